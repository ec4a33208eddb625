//! Runs one session over a local directory, from an input to an output.
ghost use Rattle.std.specs.Prelude.{◌≡◌, ◌+◌, codes, IfOk, IfErr};
ghost use Rattle.std.specs.Arc.{arc_value};
ghost use Rattle.local_directory.specs.indexed_tree.Stored.{NumbersBelow};
ghost use Rattle.local_directory.specs.Allows.{allows};
ghost use Rattle.local_directory.specs.Answered.{Answers};
ghost use Rattle.dird_commands.specs.Begun.{name_of, config_of, empty_directory, directory_at_first, number_at_first, AnswersFrom, IsCutFrom, FailsFrom};
ghost use Rattle.dird_commands.specs.private.Played.{IsUnnamed};

use crate::fault::Fault;
use crate::sample::add_sample;
use local_directory::{
    Config, Indexes, LocalDirectory, Name, NameError, Schema, SessionEnd, Store, answer_lines,
};
use std::alloc::Global;
use std::io::{BufRead, Write};
use std::sync::Arc;

/// The manager's name.
pub const MANAGER: &str = "cn=admin,dc=example,dc=com";

/// The manager's password.
const PASSWORD: &str = "secret";

/// The name of the directory's root.
pub const SUFFIX: &str = "dc=example,dc=com";

/// What a session's directory begins with.
#[derive(Drop)]
pub struct Options {
    /// The schema, which the directory shares with the names of binds.
    pub schema: Arc<Schema>,
    /// The index choice, of the schema.
    pub indexes: Indexes,
    /// Whether it holds the built-in sample.
    pub sample: bool,
}

/// The name of a text.
pub fn name_of_text(alloc: Global, schema: &Schema, text: &str) -> Result<Name, Fault>
    ensures ok { IfOk result (λ name. name ≡ name_of schema.now text.now) }
    ensures err { IfErr result (λ fault. IsUnnamed schema.now text.now fault) }
{
    match Name::read(alloc, schema, text) {
        Ok(name) => Ok(name),
        Err(NameError::BadName) => Err(Fault::BadName),
        Err(NameError::NoMemory) => Err(Fault::NoMemory),
    }
}

/// The name of the directory's root.
pub fn root_name(alloc: Global, schema: &Schema) -> Result<Name, Fault>
    ensures ok { IfOk result (λ name. name ≡ name_of schema.now (codes "dc=example,dc=com")) }
    ensures err { IfErr result (λ fault. IsUnnamed schema.now (codes "dc=example,dc=com") fault) }
{
    name_of_text(alloc, schema, SUFFIX)
}

/// A directory without entries.
pub fn empty(alloc: Global, schema: Arc<Schema>, indexes: Indexes) -> Result<Store, Fault>
    ensures directory { IfOk result (λ store. store.directory ≡ empty_directory (arc_value schema)) }
    ensures indexes { IfOk result (λ store. store.indexes ≡ indexes) }
{
    let suffix = root_name(alloc, &schema)?;
    Ok(Store::new(alloc, schema, indexes, suffix))
}

/// The directory at first: the sample, or one without entries; and the number of its last update.
fn open_store(
    alloc: Global,
    schema: Arc<Schema>,
    indexes: Indexes,
    sample: bool,
) -> Result<(Store, u64), Fault>
    ensures directory { IfOk result (λ p. p.0.directory ≡ directory_at_first (arc_value schema) sample) }
    ensures indexes { IfOk result (λ p. p.0.indexes ≡ indexes) }
    ensures number { IfOk result (λ p. p.1 ≡ number_at_first sample) }
    ensures below { IfOk result (λ p. NumbersBelow (p.1 + 1) p.0.directory.entries) }
{
    let mut store = empty(alloc, schema, indexes)?;
    match sample {
        true => {
            add_sample(alloc, &mut store)?;
            Ok((store, 6))
        }
        false => Ok((store, 0)),
    }
}

/// The manager's name.
fn manager_name(alloc: Global, schema: &Schema) -> Result<Name, Fault>
    ensures { IfOk result (λ name. name ≡ name_of schema.now (codes "cn=admin,dc=example,dc=com")) }
{
    name_of_text(alloc, schema, MANAGER)
}

/// One session over a directory, by the schema that its names are read by.
fn answer_over<R: BufRead, W: Write>(
    alloc: Global,
    schema: &Schema,
    directory: &mut LocalDirectory,
    input: &mut R,
    output: &mut W,
) -> Result<SessionEnd, Fault>
    ensures ok { IfOk result (λ end. Answers allows (config_of schema.now) directory.old directory.new
        (R.remaining input.old) (R.remaining input.new)
        (W.contents output.old) (W.contents output.new) end) }
    ensures err { IfErr result (λ fault. IsCutFrom (config_of schema.now) directory.old directory.new
        (R.remaining input.old)
        (W.contents output.old) (W.contents output.new) fault) }
{
    let manager = manager_name(alloc, schema)?;
    let config = Config {
        schema,
        manager: &manager,
        password: PASSWORD.as_bytes(),
        replica: 0,
        restarts: 0,
        session: 1,
    };
    match answer_lines(alloc, &config, directory, input, output) {
        Ok(end) => Ok(end),
        Err(error) => Err(Fault::from(error)),
    }
}

/// One session over a directory of its own: each line of the input is a piece of the stream in hex, each response a
/// line of the output.
pub fn answer_session<R: BufRead, W: Write>(
    alloc: Global,
    options: Options,
    input: &mut R,
    output: &mut W,
) -> Result<SessionEnd, Fault>
    // The output grows by the responses of a session over the stream that the lines spell, along a talk with the
    // directory that begins so.
    ensures ok { IfOk result (λ end. AnswersFrom (arc_value options.schema) options.sample (R.remaining input.old)
        (R.remaining input.new)
        (W.contents output.old) (W.contents output.new) end) }
    // At a fault it has written nothing, where it did not begin, or what such a session has written by then.
    ensures err { IfErr result (λ fault. FailsFrom (arc_value options.schema) options.sample (R.remaining input.old)
        (W.contents output.old) (W.contents output.new) fault) }
{
    let Options {
        schema,
        indexes,
        sample,
    } = options;
    let shared = Arc::try_clone(&schema)?;
    let (store, number) = open_store(alloc, shared, indexes, sample)?;
    let mut directory = LocalDirectory::new(alloc, store, number);
    answer_over(alloc, &schema, &mut directory, input, output)
}
