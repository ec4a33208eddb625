//! Makes lines of hex of LDIF: an add for each record.

ghost use Rattle.std.specs.Prelude.{◌≡◌, Ok, IfOk, IfErr};
ghost use Rattle.ldif.specs.Reading.{records_of};
ghost use Rattle.ldif.specs.Imports.{IsImport, IsImportFault};
ghost use Rattle.ldif.specs.private.Imports.{IsReadFault};

use crate::asking::add_lines;
use crate::fault::LdifError;
use crate::reading::read;
use crate::record::Record;
use crate::refusals::ImportError;
use std::alloc::Global;

/// The records of a text.
fn read_records(alloc: Global, text: &[u8]) -> Result<Vec<Record>, ImportError>
    ensures found { IfOk result (λ v. records_of text.now ≡ Ok v.items) }
    ensures refused { IfErr result (λ e. IsReadFault e text.now) }
{
    match read(alloc, text) {
        Ok(records) => Ok(records),
        Err(LdifError::BadLdif { line, cause }) => Err(ImportError::BadLdif { line, cause }),
        Err(LdifError::NoMemory) => Err(ImportError::NoMemory),
    }
}

/// What is written of a text of LDIF (RFC 2849): for each record its AddRequest (RFC 4511 4.7) as a line of lower-case
/// hex, with messageIDs from 1 on.
pub fn import_text(alloc: Global, text: &[u8]) -> Result<Vec<u8>, ImportError>
    // What is written is the adds of the records that the text is.
    ensures written { IfOk result (λ v. IsImport text.now v.items) }
    // E19 comes where the text is no LDIF, with its line and cause; E3 where an add is too long, and the last one where
    // messageIDs run out.
    ensures refused { IfErr result (λ e. IsImportFault e text.now) }
{
    let records = read_records(alloc, text)?;
    add_lines(alloc, &records)
}
