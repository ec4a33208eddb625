//! Makes LDIF of lines of hex, which are the responses to a search.

ghost use Rattle.std.specs.Prelude.{◌≡◌, IfOk, IfErr};
ghost use Rattle.ldif.specs.private.HexFaults.{IsHexFault};
ghost use Rattle.ldif.specs.Written.{ldif_text};
ghost use Rattle.ldif.specs.Exports.{AreMeant, IsExport, IsExportFault, entries_in};

use crate::ending::{entries, first_wrong};
use crate::hex_lines::octets_of_lines;
use crate::judging::meant_by_all;
use crate::meant::Meant;
use crate::refusals::ExportError;
use crate::writing::write;
use std::alloc::{AllocError, Global};

/// What the messages mean that the lines of a text spell.
fn meant_by_lines(alloc: Global, text: &[u8]) -> Result<Vec<Meant>, ExportError>
    ensures found { IfOk result (λ v. AreMeant text.now v.items) }
    ensures refused { IfErr result (λ e. IsHexFault e text.now) }
{
    let messages = octets_of_lines(alloc, text)?;
    let meant = meant_by_all(alloc, &messages)?;
    Ok(meant)
}

/// The text of the records of the entries.
fn written(alloc: Global, meant: Vec<Meant>) -> Result<Vec<u8>, AllocError>
    ensures { IfOk result (λ v. v.items ≡ ldif_text (entries_in meant.items)) }
{
    let records = entries(alloc, meant)?;
    write(alloc, &records)
}

/// What is written of lines of hex, each one whole response to a search (RFC 4511 4.5.2): the entries as a text of LDIF
/// (RFC 2849). Empty lines are skipped. The last message has to be the end of the search, with code 0.
pub fn export_text(alloc: Global, text: &[u8]) -> Result<Vec<u8>, ExportError>
    // What is written is the records of the entries that the lines spell.
    ensures written { IfOk result (λ v. IsExport text.now v.items) }
    // Which refusal it is: a line that is no hex comes before what is wrong with messages.
    ensures refused { IfErr result (λ e. IsExportFault e text.now) }
{
    let meant = meant_by_lines(alloc, text)?;
    match first_wrong(&meant) {
        Some(error) => Err(error),
        None => Ok(written(alloc, meant)?),
    }
}
