//! Words of commands as rows of data, and those that several commands take.
use clap::error::ErrorKind;
use clap::{Arg, ArgAction, Command, Error};
use std::alloc::{AllocError, Global};

/// What a word takes.
#[derive(Clone, Copy)]
pub enum Takes {
    /// Nothing: it is there or it isn't.
    Nothing,
    /// The text behind it; it may be left out.
    Text,
    /// The text behind it; it may be left out, or be there several times.
    Texts,
    /// The text behind it; it can't be left out.
    Wanted,
    /// The number behind it, between these two; it can't be left out.
    Number { first: u64, last: u64 },
    /// The number behind it, from 1 to this one; the other one, where it is left out.
    Count { last: u64, default: &'static str },
    /// The number behind it, from 1 to this one; it may be left out.
    Amount { last: u64 },
    /// It has no name before it, and can't be left out.
    Place,
    /// It has no name before it, is one of these, and can't be left out.
    OneOf(&'static [&'static str]),
    /// It has no name before it; there are any number of it, or at least one.
    Many { at_least_one: bool },
}

impl Takes {
    /// Whether it can't be left out.
    fn is_wanted(self) -> bool {
        match self {
            Takes::Wanted | Takes::Number { .. } | Takes::Place | Takes::OneOf(_) => true,
            Takes::Many { at_least_one } => at_least_one,
            _ => false,
        }
    }

    /// The least and the greatest number that may be behind the word, where it takes a number.
    pub fn range(self) -> Option<(u64, u64)> {
        match self {
            Takes::Number { first, last } => Some((first, last)),
            Takes::Count { last, default: _ } | Takes::Amount { last } => Some((1, last)),
            _ => None,
        }
    }
}

/// A word of a command.
#[derive(Clone, Copy)]
pub struct OptionSpec {
    pub name: &'static str,
    /// What its help calls its value, where it has one.
    pub value: &'static str,
    pub takes: Takes,
    pub help: &'static str,
}

/// The word for a schema.
pub const SCHEMA_OPTION: OptionSpec = OptionSpec {
    name: "schema",
    value: "FILE",
    takes: Takes::Text,
    help: "Read the schema from this file, in place of the built-in one",
};

/// The word for an index choice.
pub const INDEX_OPTION: OptionSpec = OptionSpec {
    name: "index",
    value: "FILE",
    takes: Takes::Text,
    help: "Read from this file which indexes each attribute type has, in place of none",
};

/// A word with its name before its value.
fn named<'a>(argument: Arg<'a>, word: &OptionSpec) -> Arg<'a> {
    argument.long(word.name).value_name(word.value)
}

/// A word as it is told the parser. The range of a number is judged with the other values, in words of this program.
fn argument<'a>(alloc: Global, word: &OptionSpec) -> Arg<'a> {
    let argument = Arg::new(alloc, word.name)
        .help(word.help)
        .required(word.takes.is_wanted())
        .allow_negative_numbers(word.takes.range().is_some());
    match word.takes {
        Takes::Nothing => argument.long(word.name).action(ArgAction::SetTrue),
        Takes::Text | Takes::Wanted | Takes::Number { .. } | Takes::Amount { .. } => {
            named(argument, word)
        }
        Takes::Texts => named(argument, word).action(ArgAction::Append),
        Takes::Count { last: _, default } => named(argument, word).default_value(default),
        Takes::Place => argument,
        Takes::OneOf(words) => argument.value_parser(words),
        Takes::Many { at_least_one } => argument.num_args(usize::from(at_least_one)..),
    }
}

/// A command that takes words.
#[derive(Clone, Copy)]
pub struct CommandSpec {
    pub name: &'static str,
    /// What it is for.
    pub about: &'static str,
    pub words: &'static [OptionSpec],
}

/// A command as it is told the parser.
pub fn command_of<'a>(alloc: Global, order: &CommandSpec) -> Result<Command<'a>, AllocError> {
    let mut command = Command::new(alloc, order.name).about(order.about);
    for word in order.words {
        command = command.arg(argument(alloc, word))?;
    }
    Ok(command)
}

/// The error by which a command refuses words that it has matched; that of memory, where it ran out for that.
pub fn refusal_by(command: Result<Command<'_>, AllocError>, message: &str) -> Error {
    let mut command = match command {
        Ok(command) => command,
        Err(error) => return Error::from(error),
    };
    match command.error(ErrorKind::ValueValidation, message) {
        Ok(error) => error,
        Err(error) => Error::from(error),
    }
}
