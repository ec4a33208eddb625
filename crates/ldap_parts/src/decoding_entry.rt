//! Reads an entry that a search found.

ghost use Rattle.std.specs.Prelude.{IfOk, IfErr};
ghost use Rattle.ldap_ber.specs.Faults.{IsPlainFault};
ghost use Rattle.ldap_parts.specs.ResponseValues.{SearchResultEntryValue};
ghost use Rattle.ldap_parts.specs.ResponseView.{entry_view};
ghost use Rattle.ldap_parts.specs.ResponseGrammar.{IsSearchResultEntry};

use crate::decoding_attribute::attributes_field;
use crate::entry::SearchResultEntry;
use ldap_ber::{MsgFault, elements, text_field};
use std::alloc::Global;

/// The entry whose content this is.
pub fn entry_of(alloc: Global, content: &[u8]) -> Result<SearchResultEntry, MsgFault>
    ensures found { IfOk result (λ e. IsSearchResultEntry (entry_view e) content.now) }
    ensures fault { IfErr result (λ e. IsPlainFault e ((v : SearchResultEntryValue)
        × IsSearchResultEntry v content.now)) }
{
    let (object_name, rest) = text_field(alloc, 0x04, content)?;
    let (attributes, rest) = attributes_field(alloc, rest)?;
    elements(rest)?;
    Ok(SearchResultEntry {
        object_name,
        attributes,
    })
}
