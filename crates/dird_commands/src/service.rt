//! Gathers what a replica is to serve: the words of `serve`, a schema, an index choice and names.

use crate::explaining::name_refusal;
use crate::fault::Fault;
use crate::files::ReadFiles;
use crate::local::name_of_text;
use crate::opening::{indexes_of, schema_told, text_of};
use crate::reasons::no_password_in;
use crate::refusal::Refusal;
use command_line::{Password, Serving};
use local_directory::{Indexes, Name, Schema};
use std::alloc::Global;
use std::sync::Arc;

/// What a replica serves. The names are of the schema, and neither is empty.
#[derive(Drop)]
pub struct Service<'a> {
    pub schema: Arc<Schema>,
    pub indexes: Indexes,
    pub suffix: Name,
    pub manager: Name,
    pub password: String,
    /// The text of the schema's file, where one is named.
    pub schema_text: Option<String>,
    pub words: Serving<'a>,
}

/// The name of a text that names an entry: `bad name` for the empty name too.
fn entry_name(alloc: Global, schema: &Schema, text: &str) -> Result<Name, Fault> {
    let name = name_of_text(alloc, schema, text)?;
    if name.is_empty() {
        return Err(Fault::BadName);
    }
    Ok(name)
}

/// The same, behind this word of the command line.
fn name_behind(alloc: Global, schema: &Schema, word: &str, text: &str) -> Result<Name, Refusal> {
    match entry_name(alloc, schema, text) {
        Ok(name) => Ok(name),
        Err(fault) => Err(name_refusal(alloc, schema, word, text, fault)),
    }
}

/// The first line of a text.
fn first_line(text: &str) -> &str {
    match text.lines().next() {
        Some(line) => line,
        None => "",
    }
}

/// The password that is told, or that a file of its owner alone tells in its first line, where that isn't empty.
fn password_of<S: ReadFiles>(
    files: &S,
    alloc: Global,
    password: Password<'_>,
) -> Result<String, Refusal> {
    match password {
        Password::Text(text) => Ok(String::from_str(alloc, text)?),
        Password::File(path) => {
            let text = files.read_secret(alloc, path)?;
            let password = first_line(&text);
            if password.is_empty() {
                return Err(no_password_in(alloc, path));
            }
            Ok(String::from_str(alloc, password)?)
        }
    }
}

/// What these words ask to be served. The schema is read first, then the index choice, the suffix, the manager's name
/// and the password.
pub fn service_of<'a, S: ReadFiles>(
    files: &S,
    alloc: Global,
    words: Serving<'a>,
) -> Result<Service<'a>, Refusal> {
    let schema_text = text_of(files, alloc, words.settings.schema)?;
    let schema = schema_told(alloc, words.settings.schema, &schema_text)?;
    let indexes = indexes_of(files, alloc, &schema, words.settings.indexes)?;
    let suffix = name_behind(alloc, &schema, "--suffix", words.settings.suffix)?;
    let manager = name_behind(alloc, &schema, "--manager", words.settings.manager)?;
    let password = password_of(files, alloc, words.settings.password)?;
    Ok(Service {
        schema,
        indexes,
        suffix,
        manager,
        password,
        schema_text,
        words,
    })
}
