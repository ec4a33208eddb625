//! Reads a modifyDN and a delete.

ghost use Rattle.std.specs.Prelude.{ℕ, List, Bool, IfOk, IfErr, string_bytes};
ghost use Rattle.ldap_ber.specs.Faults.{IsPlainFault};
ghost use Rattle.ldap_parts.specs.UpdateValues.{ModifyDnRequestValue};
ghost use Rattle.ldap_parts.specs.UpdateView.{modify_dn_view};
ghost use Rattle.ldap_parts.specs.UpdateGrammar.{IsDelRequest, IsNewName, IsModifyDnRequest};

use crate::modify_dn::ModifyDnRequest;
use ldap_ber::{MsgFault, elements, flag_field, optional_text, text, text_field};
use std::alloc::Global;

/// The entry, its new relative name, and whether the old one's values go, and the octets after them.
fn new_name(alloc: Global, octets: &[u8]) -> Result<((String, String, bool), &[u8]), MsgFault>
    ensures found { IfOk result (λ x. IsNewName (string_bytes x.0.0) (string_bytes x.0.1) x.0.2 octets.now x.1.now) }
    ensures fault { IfErr result (λ e. IsPlainFault e ((entry newrdn : List ℕ) × (deleteoldrdn : Bool)
        × (rest : List ℕ) × IsNewName entry newrdn deleteoldrdn octets.now rest)) }
{
    let (entry, octets) = text_field(alloc, 0x04, octets)?;
    let (newrdn, octets) = text_field(alloc, 0x04, octets)?;
    let (deleteoldrdn, octets) = flag_field(0x01, octets)?;
    Ok(((entry, newrdn, deleteoldrdn), octets))
}

/// The modifyDN whose content this is.
pub fn modify_dn_of(alloc: Global, content: &[u8]) -> Result<ModifyDnRequest, MsgFault>
    ensures found { IfOk result (λ d. IsModifyDnRequest (modify_dn_view d) content.now) }
    ensures fault { IfErr result (λ e. IsPlainFault e ((d : ModifyDnRequestValue)
        × IsModifyDnRequest d content.now)) }
{
    let ((entry, newrdn, deleteoldrdn), rest) = new_name(alloc, content)?;
    let (new_superior, rest) = optional_text(alloc, 0x80, rest)?;
    elements(rest)?;
    Ok(ModifyDnRequest {
        entry,
        newrdn,
        deleteoldrdn,
        new_superior,
    })
}

/// The name of the delete whose content this is.
pub fn delete_of(alloc: Global, content: &[u8]) -> Result<String, MsgFault>
    ensures found { IfOk result (λ s. IsDelRequest (string_bytes s) content.now) }
    ensures fault { IfErr result (λ e. IsPlainFault e ((name : List ℕ)
        × IsDelRequest name content.now)) }
{
    text(alloc, content)
}
