//! Writes an entry that a search found, each octet once.

ghost use Rattle.std.specs.Prelude.{◌≡◌, ◌^◌, ◌≤◌, ◌++◌, drop, length, map, min, IfOk, OnOk, IsErrOf};
ghost use Rattle.ldap_parts.specs.ResponseView.{entry_view};
ghost use Rattle.ldap_parts.specs.ResponsesWritten.{entry_content};

use crate::attribute::AttributeParts;
use crate::encoding_attribute::{attributes_length, put_attribute_list};
use crate::entry::SearchResultEntry;
use ldap_ber::{WriteError, add_lengths, element_length, write};
use std::alloc::Global;

/// How many octets the content of an entry of this name with these attributes takes; 2^32 where there are more.
pub fn entry_length<A: AttributeParts>(object_name: &str, attributes: &[A]) -> usize
    ensures { result ≡ min (length (entry_content (record {
      object_name = object_name.now;
      attributes = map A.attribute attributes.now;
    }))) (2 ^ 32) }
{
    let attributes = attributes_length(attributes);
    let object_name = object_name.as_bytes().len();
    add_lengths(element_length(object_name), element_length(attributes))
}

/// Writes the content of an entry of this name with these attributes.
pub fn put_entry<A: AttributeParts>(
    alloc: Global,
    object_name: &str,
    attributes: &[A],
    out: &mut Vec<u8>,
) -> Result<(), WriteError>
    ensures ok { OnOk result (out.new.items ≡ out.old.items ++ entry_content (record {
      object_name = object_name.now;
      attributes = map A.attribute attributes.now;
    })) }
    ensures too_long { IsErrOf result WriteError.TooLong → 2 ^ 32 ≤ length (entry_content (record {
      object_name = object_name.now;
      attributes = map A.attribute attributes.now;
    })) }
    ensures kept { out.new.items ≡ out.old.items ++ drop (length out.old.items) out.new.items }
{
    write(0x04, object_name.as_bytes(), out)?;
    put_attribute_list(alloc, attributes, out)
}

/// The content of an entry.
pub fn entry_content(alloc: Global, entry: &SearchResultEntry) -> Result<Vec<u8>, WriteError>
    ensures ok { IfOk result (λ v. v.items ≡ entry_content (entry_view entry.now)) }
    ensures too_long { IsErrOf result WriteError.TooLong
        → 2 ^ 32 ≤ length (entry_content (entry_view entry.now)) }
{
    let mut content = Vec::new(alloc);
    put_entry(alloc, &entry.object_name, &entry.attributes, &mut content)?;
    Ok(content)
}
