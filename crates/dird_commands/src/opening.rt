//! Reads what a directory begins with: a schema and an index choice from named files.
ghost use Rattle.std.specs.Prelude.{◌≡◌, IfOk, string_bytes};
ghost use Rattle.std.specs.Option.{option_map};
ghost use Rattle.std.specs.Arc.{arc_value};
ghost use Rattle.dird_commands.specs.Begun.{empty_under};
ghost use Rattle.dird_commands.specs.private.Opened.{IsSchemaOf, IsIndexOf};

use crate::explaining::{index_refusal, name_refusal, schema_refusal};
use crate::fault::Fault;
use crate::files::ReadFiles;
use crate::local::{SUFFIX, name_of_text};
use crate::refusal::Refusal;
use command_line::Ground;
use local_directory::{Indexes, Name, Schema, Store};
use schema_reader::{built_in_schema, read_schema};
use std::alloc::{AllocError, Global};
use std::sync::Arc;

/// The text of a named file; none for no name.
pub fn text_of<S: ReadFiles>(
    files: &S,
    alloc: Global,
    path: Option<&str>,
) -> Result<Option<String>, Refusal> {
    match path {
        Some(path) => Ok(Some(files.read_text(alloc, path)?)),
        None => Ok(None),
    }
}

/// The schema of a text, and the built-in one without a text.
fn schema_of_text(alloc: Global, text: &Option<String>) -> Result<Schema, Fault>
    ensures { IfOk result (λ s. IsSchemaOf (option_map string_bytes text.now) s) }
{
    match text {
        Some(text) => Ok(read_schema(alloc, text)?),
        None => Ok(built_in_schema(alloc)?),
    }
}

/// The index choice of a text, and no index without a text.
fn indexes_of_text(alloc: Global, schema: &Schema, text: &Option<String>) -> Result<Indexes, Fault>
    ensures { IfOk result (λ i. IsIndexOf schema.now (option_map string_bytes text.now) i) }
{
    match text {
        Some(text) => Ok(Indexes::read(alloc, schema, text)?),
        None => Ok(Indexes::none(alloc)),
    }
}

/// The text that is there, or nothing.
fn told_text(text: &Option<String>) -> &str {
    match text {
        Some(text) => text.as_str(),
        None => "",
    }
}

/// The schema of the text of a named file, and the built-in one for no name. It is read once, and shared by all who
/// need it.
pub fn schema_told(
    alloc: Global,
    path: Option<&str>,
    text: &Option<String>,
) -> Result<Arc<Schema>, Refusal> {
    match schema_of_text(alloc, text) {
        Ok(schema) => Ok(Arc::new(alloc, schema)?),
        Err(fault) => {
            let text = told_text(text);
            Err(schema_refusal(alloc, path.unwrap_or(""), text, fault))
        }
    }
}

/// The schema of a named file, and the built-in one for no name.
pub fn schema_of<S: ReadFiles>(
    files: &S,
    alloc: Global,
    path: Option<&str>,
) -> Result<Arc<Schema>, Refusal> {
    let text = text_of(files, alloc, path)?;
    schema_told(alloc, path, &text)
}

/// The index choice of a named file, and no index for no name.
pub fn indexes_of<S: ReadFiles>(
    files: &S,
    alloc: Global,
    schema: &Schema,
    path: Option<&str>,
) -> Result<Indexes, Refusal> {
    let text = text_of(files, alloc, path)?;
    match indexes_of_text(alloc, schema, &text) {
        Ok(indexes) => Ok(indexes),
        Err(fault) => {
            let text = told_text(&text);
            Err(index_refusal(alloc, schema, path.unwrap_or(""), text, fault))
        }
    }
}

/// A directory without entries, to which the records of a text are added.
#[derive(Drop)]
pub struct EmptyDirectory {
    pub schema: Arc<Schema>,
    /// The index choice, of the schema.
    pub indexes: Indexes,
    /// The name of its root.
    pub suffix: Name,
}

impl EmptyDirectory {
    /// A store of it.
    pub fn store(&self, alloc: Global) -> Result<Store, AllocError>
        ensures { IfOk result (λ store. store.directory ≡ empty_under (arc_value self.now.schema) self.now.suffix) }
    {
        let schema = Arc::try_clone(&self.schema)?;
        Ok(Store::new(
            alloc,
            schema,
            self.indexes.copy(alloc)?,
            self.suffix.copy(alloc)?,
        ))
    }
}

/// The name of the root that a word tells, or the built-in one.
fn root_of(alloc: Global, schema: &Schema, suffix: Option<&str>) -> Result<Name, Refusal> {
    let text = suffix.unwrap_or(SUFFIX);
    match name_of_text(alloc, schema, text) {
        Ok(name) => Ok(name),
        Err(fault) => Err(name_refusal(alloc, schema, "--suffix", text, fault)),
    }
}

/// What these words ask records to be added to. The schema is read first, then the index choice and the suffix.
pub fn empty_of<S: ReadFiles>(
    files: &S,
    alloc: Global,
    ground: &Ground<'_>,
) -> Result<EmptyDirectory, Refusal> {
    let schema = schema_of(files, alloc, ground.schema)?;
    let indexes = indexes_of(files, alloc, &schema, ground.index)?;
    let suffix = root_of(alloc, &schema, ground.suffix)?;
    Ok(EmptyDirectory {
        schema,
        indexes,
        suffix,
    })
}
