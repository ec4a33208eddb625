//! Jobs on whole texts: an input is read to its end, what is made of it is written. What is made of a text is decided
//! below.
ghost use Rattle.std.specs.Prelude.{◌≡◌, map, string_bytes, IfOk, IfErr, IfSome, OnOk};
ghost use Rattle.std.specs.Io.KnownBytes.{Appends};
ghost use Rattle.local_directory.specs.ldap_msg.View.{search_view};
ghost use Rattle.local_directory.specs.ldif.Imports.{IsImport};
ghost use Rattle.local_directory.specs.ldif.Exports.{IsExport};
ghost use Rattle.local_directory.specs.Searched.{IsSearched};
ghost use Rattle.std.specs.Arc.{arc_value};
ghost use Rattle.dird_commands.specs.Begun.{empty_under};
ghost use Rattle.dird_commands.specs.private.Texts.{Turns, IsRequestOf, IsAnswerTo};
ghost use Rattle.dird_commands.specs.private.Undone.{IsImportCause, IsExportCause, IsFoundCause, IsUnasked, IsUnread};
ghost use Rattle.dird_commands.specs.private.Undone.{IsUnmade, IsUndone, IsUnanswered};

use crate::explaining::{export_refusal, filter_refusal, import_refusal, search_refusal};
use crate::fault::Fault;
use crate::opening::EmptyDirectory;
use crate::reasons::{read_refusal, write_refusal};
use crate::refusal::Refusal;
use command_line::Question;
use filter_text::read_text;
use local_directory::{DerefAliases, SearchRequest, export_text, import_text, search_text};
use std::alloc::{AllocError, Global};
use std::io::{BufRead, Write};

/// The octets of an input, up to its end.
pub fn read_all<R: BufRead>(alloc: Global, input: &mut R) -> Result<Vec<u8>, Refusal>
    ensures ok { IfOk result (λ v. IfSome (R.remaining input.old) (λ xs. v.items ≡ xs)) }
    ensures err { IfErr result (λ refusal. IsUnread refusal.fault) }
{
    let mut text = Vec::new(alloc);
    match input.read_to_end(&mut text) {
        Ok(_) => Ok(text),
        Err(error) => Err(read_refusal(alloc, "standard input", error.kind())),
    }
}

/// Writes octets.
pub fn write_out<W: Write>(alloc: Global, octets: &[u8], output: &mut W) -> Result<(), Refusal>
    ensures ok { OnOk result (Appends (W.contents output.old) (W.contents output.new) octets.now) }
    ensures err { IfErr result (λ refusal. refusal.fault ≡ Fault.CannotWrite) }
{
    match output.write_all(octets) {
        Ok(()) => Ok(()),
        Err(error) => Err(write_refusal(alloc, error.kind())),
    }
}

/// What is written of an LDIF text.
fn import_records(alloc: Global, text: &[u8]) -> Result<Vec<u8>, Refusal>
    ensures ok { IfOk result (λ v. IsImport text.now v.items) }
    ensures err { IfErr result (λ refusal. IsImportCause refusal.fault text.now) }
{
    match import_text(alloc, text) {
        Ok(lines) => Ok(lines),
        Err(error) => Err(import_refusal(alloc, text, error)),
    }
}

/// What is made of an input.
fn import_of<R: BufRead>(alloc: Global, input: &mut R) -> Result<Vec<u8>, Refusal>
    ensures ok { IfOk result (λ v. IfSome (R.remaining input.old) (λ text. IsImport text v.items)) }
    ensures err { IfErr result (λ refusal. IsUnmade IsImportCause refusal.fault (R.remaining input.old)) }
{
    let text = match read_all(alloc, input) {
        Ok(text) => text,
        Err(refusal) => return Err(refusal),
    };
    import_records(alloc, &text)
}

/// Turns LDIF into lines of hex, an AddRequest for each record.
pub fn import_input<R: BufRead, W: Write>(
    alloc: Global,
    input: &mut R,
    output: &mut W,
) -> Result<(), Refusal>
    ensures ok { OnOk result (Turns IsImport (R.remaining input.old) (W.contents output.old) (W.contents output.new)) }
    // Nothing is written but where the output can't be written; which refusal it is.
    ensures err { IfErr result (λ refusal. IsUndone IsImportCause refusal.fault (R.remaining input.old)
        (W.contents output.old) (W.contents output.new)) }
{
    match import_of(alloc, input) {
        Ok(lines) => write_out(alloc, &lines, output),
        Err(refusal) => Err(refusal),
    }
}

/// What is written of lines of hex.
fn export_lines(alloc: Global, text: &[u8]) -> Result<Vec<u8>, Refusal>
    ensures ok { IfOk result (λ v. IsExport text.now v.items) }
    ensures err { IfErr result (λ refusal. IsExportCause refusal.fault text.now) }
{
    match export_text(alloc, text) {
        Ok(written) => Ok(written),
        Err(error) => Err(export_refusal(alloc, text, error)),
    }
}

/// What is made of an input.
fn export_of<R: BufRead>(alloc: Global, input: &mut R) -> Result<Vec<u8>, Refusal>
    ensures ok { IfOk result (λ v. IfSome (R.remaining input.old) (λ text. IsExport text v.items)) }
    ensures err { IfErr result (λ refusal. IsUnmade IsExportCause refusal.fault (R.remaining input.old)) }
{
    let text = match read_all(alloc, input) {
        Ok(text) => text,
        Err(refusal) => return Err(refusal),
    };
    export_lines(alloc, &text)
}

/// Turns lines of hex, the responses to a search, into LDIF.
pub fn export_input<R: BufRead, W: Write>(
    alloc: Global,
    input: &mut R,
    output: &mut W,
) -> Result<(), Refusal>
    ensures ok { OnOk result (Turns IsExport (R.remaining input.old) (W.contents output.old) (W.contents output.new)) }
    // Nothing is written but where the output can't be written; which refusal it is.
    ensures err { IfErr result (λ refusal. IsUndone IsExportCause refusal.fault (R.remaining input.old)
        (W.contents output.old) (W.contents output.new)) }
{
    match export_of(alloc, input) {
        Ok(entries) => write_out(alloc, &entries, output),
        Err(refusal) => Err(refusal),
    }
}

/// The texts of words.
fn copy_words(alloc: Global, words: &[&str]) -> Result<Vec<String>, AllocError>
    ensures { IfOk result (λ v. map string_bytes v.items ≡ map (λ w. w.now) words.now) }
{
    let mut texts = Vec::new(alloc);
    for word in words {
        texts.push(String::from_str(alloc, word)?)?;
    }
    Ok(texts)
}

/// The search request of a question, without limits.
fn request_of(alloc: Global, question: &Question<'_>) -> Result<SearchRequest, Fault>
    ensures err { IfErr result (λ fault. IsUnasked question.now.filter.now fault) }
    ensures ok { IfOk result (λ r. IsRequestOf question.now.base.now question.now.scope question.now.filter.now
        (map (λ w. w.now) question.now.attributes.items) (search_view r)) }
{
    let filter = read_text(alloc, question.filter)?;
    Ok(SearchRequest {
        base: String::from_str(alloc, question.base)?,
        scope: question.scope,
        deref_aliases: DerefAliases::NeverDerefAliases,
        size_limit: 0,
        time_limit: 0,
        types_only: false,
        filter,
        attributes: copy_words(alloc, &question.attributes)?,
    })
}

/// The search request of a question, whose filter is explained where it is refused.
pub fn read_question(alloc: Global, question: &Question<'_>) -> Result<SearchRequest, Refusal>
    ensures err { IfErr result (λ refusal. IsUnasked question.now.filter.now refusal.fault) }
    ensures ok { IfOk result (λ r. IsRequestOf question.now.base.now question.now.scope question.now.filter.now
        (map (λ w. w.now) question.now.attributes.items) (search_view r)) }
{
    match request_of(alloc, question) {
        Ok(request) => Ok(request),
        Err(fault) => Err(filter_refusal(alloc, question.filter, fault)),
    }
}

/// What is shown of the directory of an LDIF text, whose records are added in order to one without entries.
fn search_records(
    alloc: Global,
    empty: &EmptyDirectory,
    text: &[u8],
    request: &SearchRequest,
) -> Result<Vec<u8>, Refusal>
    ensures ok { IfOk result (λ v. IsSearched (empty_under (arc_value empty.now.schema) empty.now.suffix)
        text.now (search_view request.now) v.items) }
    ensures err { IfErr result (λ refusal. IsFoundCause (empty_under (arc_value empty.now.schema) empty.now.suffix)
        (search_view request.now) refusal.fault text.now) }
{
    let store = empty.store(alloc)?;
    match search_text(alloc, store, text, request) {
        Ok(shown) => Ok(shown),
        Err(error) => {
            let base = request.base.as_str();
            Err(search_refusal(alloc, &empty.schema, text, base, error))
        }
    }
}

/// The answer to a request over the directory of an input's records.
fn answer_of<R: BufRead>(
    alloc: Global,
    empty: &EmptyDirectory,
    request: &SearchRequest,
    input: &mut R,
) -> Result<Vec<u8>, Refusal>
    ensures ok { IfOk result (λ v. IfSome (R.remaining input.old)
        (λ text. IsSearched (empty_under (arc_value empty.now.schema) empty.now.suffix) text (search_view request.now)
        v.items)) }
    ensures err { IfErr result (λ refusal. IsUnmade
        (IsFoundCause (empty_under (arc_value empty.now.schema) empty.now.suffix) (search_view request.now))
        refusal.fault (R.remaining input.old)) }
{
    let text = match read_all(alloc, input) {
        Ok(text) => text,
        Err(refusal) => return Err(refusal),
    };
    search_records(alloc, empty, &text, request)
}

/// Searches the directory of an LDIF text.
pub fn search_input<R: BufRead, W: Write>(
    alloc: Global,
    empty: &EmptyDirectory,
    question: &Question<'_>,
    input: &mut R,
    output: &mut W,
) -> Result<(), Refusal>
    ensures ok { OnOk result (Turns
        (IsAnswerTo (empty_under (arc_value empty.now.schema) empty.now.suffix) question.now.base.now question.now.scope
        question.now.filter.now (map (λ w. w.now) question.now.attributes.items))
        (R.remaining input.old) (W.contents output.old) (W.contents output.new)) }
    // Nothing is written but where the output can't be written; which refusal it is.
    ensures err { IfErr result (λ refusal. IsUnanswered (empty_under (arc_value empty.now.schema) empty.now.suffix)
        question.now.base.now question.now.scope question.now.filter.now
        (map (λ w. w.now) question.now.attributes.items)
        refusal.fault (R.remaining input.old) (W.contents output.old) (W.contents output.new)) }
{
    let request = match read_question(alloc, question) {
        Ok(request) => request,
        Err(refusal) => return Err(refusal),
    };
    match answer_of(alloc, empty, &request, input) {
        Ok(answer) => write_out(alloc, &answer, output),
        Err(refusal) => Err(refusal),
    }
}
