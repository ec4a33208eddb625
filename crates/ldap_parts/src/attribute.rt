//! An attribute: a description and its values.
ghost use Rattle.std.specs.Prelude.{◌≡◌, ◌^◌, ◌≤◌, ◌++◌, drop, length, min, OnOk, IsErrOf};
ghost use Rattle.ldap_ber.specs.Element.{element_bytes};
ghost use Rattle.ldap_ber.specs.Rows.{row_bytes};
ghost use Rattle.ldap_parts.specs.Values.{PartialAttributeValue};
ghost use Rattle.ldap_parts.specs.View.{attribute_view};

use ldap_ber::{WriteError, put_value_set, values_length};

/// PartialAttribute (RFC 4511 4.1.7): a description and its values, perhaps none.
#[derive(Debug)]
pub struct PartialAttribute {
    pub description: String,
    pub values: Vec<Vec<u8>>,
}

// Not derived: see "What the gate takes" in docs/ARCHITECTURE.md.
impl Drop for PartialAttribute {
    fn drop(self) {
        let PartialAttribute {
            description: _,
            values: _,
        } = self;
    }
}

/// Attribute (RFC 4511 4.1.7): a partial attribute that has a value at least. What is read as one has.
pub type Attribute = PartialAttribute;

/// What an attribute is written from: a description, and values that whoever keeps them measures and writes.
pub trait AttributeParts {
    // The attribute that they are.
    ghost attribute: { Self → PartialAttributeValue };

    /// The description.
    fn description(&self) -> &str
        ensures { result.now ≡ (attribute self.now).description };

    /// How many octets the values take as octet strings of first octet 04, one after the other; 2^32
    /// where there are more.
    fn values_length(&self) -> usize
        ensures { result ≡ min (length (row_bytes (element_bytes 4) (attribute self.now).values))
            (2 ^ 32) };

    /// Writes the values as a SET OF, of first octet 31 (X.690 8.12). E3 only where it is longer than a
    /// length can say.
    fn put_values(&self, out: &mut Vec<u8>) -> Result<(), WriteError>
        ensures ok { OnOk result (out.new.items ≡ out.old.items ++ element_bytes 49
            (row_bytes (element_bytes 4) (attribute self.now).values)) }
        ensures too_long { IsErrOf result WriteError.TooLong
            → 2 ^ 32 ≤ length (row_bytes (element_bytes 4) (attribute self.now).values) }
        ensures kept { out.new.items ≡ out.old.items ++ drop (length out.old.items) out.new.items };
}

impl AttributeParts for PartialAttribute {
    ghost attribute = { attribute_view };

    fn description(&self) -> &str {
        &self.description
    }

    fn values_length(&self) -> usize {
        values_length(&self.values)
    }

    fn put_values(&self, out: &mut Vec<u8>) -> Result<(), WriteError> {
        put_value_set(&self.values, out)
    }
}
