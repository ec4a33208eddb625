//! A record: a name, and types with values.

ghost use Rattle.std.specs.Prelude.{◌≡◌, ◌++◌, ◌∷◌, [], string_bytes, OnOk, OnErr};

use std::alloc::AllocError;
use std::marker::Model;

/// A value of an entry: its attribute description and its octets (RFC 2849, attrval-spec).
pub struct AttributeValue {
    description: String,
    octets: Vec<u8>,
}

// Not derived: see "What the gate takes" in docs/ARCHITECTURE.md.
impl Drop for AttributeValue {
    fn drop(self) {
        let AttributeValue {
            description: _,
            octets: _,
        } = self;
    }
}

impl Model for AttributeValue {
    ghost use Rattle.std.specs.Prelude.{string_bytes};
    ghost use Rattle.ldif.specs.Records.{ValueModel};

    ghost Value = { ValueModel };

    ghost view = { λ v. record { description = string_bytes v.description; octets = v.octets.items } };
}

impl AttributeValue {
    /// A value.
    pub fn new(description: String, octets: Vec<u8>) -> AttributeValue
        ensures { result ≡ record { description = string_bytes description; octets = octets.items } }
    {
        AttributeValue {
            description,
            octets,
        }
    }

    /// The attribute description.
    pub fn description(&self) -> &str
        ensures { result.now ≡ self.now.description }
    {
        self.description.as_str()
    }

    /// The octets of the value.
    pub fn octets(&self) -> &[u8]
        ensures { result.now ≡ self.now.octets }
    {
        self.octets.as_slice()
    }
}

/// An entry: its distinguished name, and its values in their order (RFC 2849, attrval-record).
pub struct Record {
    name: String,
    values: Vec<AttributeValue>,
}

// Not derived: see "What the gate takes" in docs/ARCHITECTURE.md.
impl Drop for Record {
    fn drop(self) {
        let Record { name: _, values: _ } = self;
    }
}

impl Model for Record {
    ghost use Rattle.std.specs.Prelude.{string_bytes};
    ghost use Rattle.ldif.specs.Records.{RecordModel};

    ghost Value = { RecordModel };

    ghost view = { λ r. record { name = string_bytes r.name; values = r.values.items } };
}

impl Record {
    /// A record.
    pub fn new(name: String, values: Vec<AttributeValue>) -> Record
        ensures { result ≡ record { name = string_bytes name; values = values.items } }
    {
        Record { name, values }
    }

    /// The distinguished name.
    pub fn name(&self) -> &str
        ensures { result.now ≡ self.now.name }
    {
        self.name.as_str()
    }

    /// The values, in their order.
    pub fn values(&self) -> &[AttributeValue]
        ensures { result.now ≡ self.now.values }
    {
        self.values.as_slice()
    }

    /// The record with one more value at its end. An `Err` leaves it as it was, and the value is gone.
    pub fn push(&mut self, value: AttributeValue) -> Result<(), AllocError>
        ensures ok { OnOk result (self.new ≡ record { name = self.old.name; values = self.old.values ++ value ∷ [] }) }
        ensures err { OnErr result (self.new ≡ self.old) }
    {
        self.values.push(value)?;
        Ok(())
    }
}
