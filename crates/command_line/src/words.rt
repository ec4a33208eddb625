//! Reads the words of the command line: makes a job of them, or a text for the user.
use crate::build::BUILD;
use crate::rows::{
    CommandSpec, INDEX_OPTION, OptionSpec, SCHEMA_OPTION, Takes, command_of, refusal_by,
};
use crate::serving::{SERVE, Serving, serving_in};
use clap::{ArgMatches, Command, Error};
use ldap_requests::Scope;
use std::alloc::{AllocError, Global};

/// What the words ask for.
#[derive(Drop)]
pub enum Job<'a> {
    /// One session over one local directory.
    Answer(Opening<'a>),
    /// One search of the directory of an LDIF text.
    Search(Question<'a>),
    /// Which records of an LDIF file a directory would refuse.
    Check(Checking<'a>),
    /// An LDIF text becomes lines of adds.
    Import,
    /// Lines of a search's responses become an LDIF text.
    Export,
    /// A lab script over replicas in memory, with the index choice of a file's name; none for no index.
    Lab(Option<&'a str>),
    /// One replica of a cluster, over the network.
    Serve(Serving<'a>),
}

/// What a session's directory begins with.
#[derive(Clone, Copy)]
pub struct Opening<'a> {
    /// Whether it holds the built-in sample.
    pub sample: bool,
    /// The name of the schema's file; none for the built-in schema.
    pub schema: Option<&'a str>,
    /// The name of the index choice's file; none for no index.
    pub index: Option<&'a str>,
}

/// What the records of an LDIF text are added to: a directory without entries.
#[derive(Clone, Copy)]
pub struct Ground<'a> {
    /// The name of the schema's file; none for the built-in schema.
    pub schema: Option<&'a str>,
    /// The name of the index choice's file; none for no index.
    pub index: Option<&'a str>,
    /// The name of its root; none for the built-in one.
    pub suffix: Option<&'a str>,
}

/// A file to be checked, as it is asked for.
#[derive(Clone, Copy)]
pub struct Checking<'a> {
    pub ground: Ground<'a>,
    /// The name of the file.
    pub file: &'a str,
}

/// A search, as it is asked for.
pub struct Question<'a> {
    pub ground: Ground<'a>,
    /// Whether its plan and its cost are shown in place of its entries.
    pub explains: bool,
    pub base: &'a str,
    pub scope: Scope,
    pub filter: &'a str,
    pub attributes: Vec<&'a str>,
}

// Not derived: see "What the gate takes" in docs/ARCHITECTURE.md.
impl<'a> Drop for Question<'a> {
    fn drop(self) {
        let Question {
            ground: _,
            explains: _,
            base: _,
            scope: _,
            filter: _,
            attributes: _,
        } = self;
    }
}

/// The words for scopes.
const SCOPES: &[&str] = &["base", "one", "sub"];

/// The words of `answer`.
const ANSWER_WORDS: &[OptionSpec] = &[
    OptionSpec {
        name: "sample",
        value: "",
        takes: Takes::Nothing,
        help: "Answer over the built-in sample of six entries",
    },
    SCHEMA_OPTION,
    INDEX_OPTION,
];

/// The word for the name of the root.
const SUFFIX_WORD: OptionSpec = OptionSpec {
    name: "suffix",
    value: "DN",
    takes: Takes::Text,
    help: "The name of the root, in place of dc=example,dc=com",
};

/// The words of `search`.
const SEARCH_WORDS: &[OptionSpec] = &[
    SCHEMA_OPTION,
    INDEX_OPTION,
    SUFFIX_WORD,
    OptionSpec {
        name: "explain",
        value: "",
        takes: Takes::Nothing,
        help: "Show which indexes serve the filter and what the search costs, in place of the entries",
    },
    OptionSpec {
        name: "BASE",
        value: "",
        takes: Takes::Place,
        help: "The name of the entry where the search begins",
    },
    OptionSpec {
        name: "SCOPE",
        value: "",
        takes: Takes::OneOf(SCOPES),
        help: "The base alone, the entries right under it, or all at or below it",
    },
    OptionSpec {
        name: "FILTER",
        value: "",
        takes: Takes::Place,
        help: "Which entries are shown, as in (cn=Ana)",
    },
    OptionSpec {
        name: "ATTR",
        value: "",
        takes: Takes::Many {
            at_least_one: false,
        },
        help: "Which attributes are shown: all for none or *, no attribute for 1.1 alone",
    },
];

/// The words of `check`.
const CHECK_WORDS: &[OptionSpec] = &[
    SCHEMA_OPTION,
    INDEX_OPTION,
    SUFFIX_WORD,
    OptionSpec {
        name: "FILE",
        value: "",
        takes: Takes::Place,
        help: "The LDIF file whose records are checked",
    },
];

/// All commands, in the order of the help.
const COMMANDS: &[CommandSpec] = &[
    CommandSpec {
        name: "answer",
        about: "Answer one client: the input is its stream of LDAP messages, lines of hex cut anywhere; each response is a line of hex",
        words: ANSWER_WORDS,
    },
    CommandSpec {
        name: "search",
        about: "Search the entries of an LDIF text: the input is LDIF, the answer is LDIF",
        words: SEARCH_WORDS,
    },
    CommandSpec {
        name: "check",
        about: "Check an LDIF file before it is served: each record that a directory would refuse is shown with its line, code and reason",
        words: CHECK_WORDS,
    },
    CommandSpec {
        name: "import",
        about: "Turn LDIF into messages: each record becomes an AddRequest, a line of hex, with ids from 1",
        words: &[],
    },
    CommandSpec {
        name: "export",
        about: "Turn the responses to a search, lines of hex, into LDIF of the entries",
        words: &[],
    },
    CommandSpec {
        name: "lab",
        about: "Play a script of updates, searches, deliveries, view changes, crashes and recoveries with real replicas",
        words: &[INDEX_OPTION],
    },
    SERVE,
];

/// The program's own words.
fn program<'a>(alloc: Global) -> Command<'a> {
    Command::new(alloc, "dird")
        .version(BUILD.version())
        .about("An LDAPv3 directory server whose answers are proved")
        .subcommand_required(true)
        .arg_required_else_help(true)
}

/// All words.
fn command<'a>(alloc: Global) -> Result<Command<'a>, AllocError> {
    let mut command = program(alloc);
    for order in COMMANDS {
        let inner = command_of(alloc, order)?;
        command = command.subcommand(inner)?;
    }
    Ok(command)
}

/// What `answer` is told.
fn opening_in<'a>(matches: &ArgMatches<'a>) -> Opening<'a> {
    Opening {
        sample: matches.get_flag("sample"),
        schema: matches.get_str("schema"),
        index: matches.get_str("index"),
    }
}

/// The scope of a word, which is one of the three.
fn scope_of(word: &str) -> Scope {
    match word {
        "base" => Scope::BaseObject,
        "one" => Scope::SingleLevel,
        _ => Scope::WholeSubtree,
    }
}

/// The error of a word that is no text.
fn not_text(alloc: Global) -> Error {
    refusal_by(command(alloc), "a word of the command line is not UTF-8")
}

/// A word that has to be a text, as the system's words that are none have a NUL; only the name of a file may be none.
pub fn as_text<'a>(alloc: Global, word: &'a str) -> Result<&'a str, Error> {
    if word.as_bytes().contains(&0) {
        return Err(not_text(alloc));
    }
    Ok(word)
}

/// What stands behind a word, which is there.
pub fn value_in<'a>(matches: &ArgMatches<'a>, name: &str) -> &'a str {
    matches.get_str(name).unwrap_or("")
}

/// The same, which has to be a text.
pub fn text_in<'a>(alloc: Global, matches: &ArgMatches<'a>, name: &str) -> Result<&'a str, Error> {
    as_text(alloc, value_in(matches, name))
}

/// The words for what is shown of each entry.
fn attributes_in<'a>(alloc: Global, matches: &ArgMatches<'a>) -> Result<Vec<&'a str>, Error> {
    let words = matches.get_strs("ATTR").unwrap_or(&[]);
    for word in words {
        as_text(alloc, *word)?;
    }
    Ok(words.to_vec(alloc)?)
}

/// What records are added to.
fn ground_in<'a>(alloc: Global, matches: &ArgMatches<'a>) -> Result<Ground<'a>, Error> {
    let suffix = match matches.get_str("suffix") {
        Some(suffix) => Some(as_text(alloc, suffix)?),
        None => None,
    };
    Ok(Ground {
        schema: matches.get_str("schema"),
        index: matches.get_str("index"),
        suffix,
    })
}

/// What `check` is told.
fn checking_in<'a>(alloc: Global, matches: &ArgMatches<'a>) -> Result<Checking<'a>, Error> {
    Ok(Checking {
        ground: ground_in(alloc, matches)?,
        file: value_in(matches, "FILE"),
    })
}

/// What `search` is told.
fn question_in<'a>(alloc: Global, matches: &ArgMatches<'a>) -> Result<Question<'a>, Error> {
    Ok(Question {
        ground: ground_in(alloc, matches)?,
        explains: matches.get_flag("explain"),
        base: text_in(alloc, matches, "BASE")?,
        scope: scope_of(value_in(matches, "SCOPE")),
        filter: text_in(alloc, matches, "FILTER")?,
        attributes: attributes_in(alloc, matches)?,
    })
}

/// What matched words ask for.
fn job_in<'a>(alloc: Global, matches: &ArgMatches<'a>) -> Result<Job<'a>, Error> {
    match matches.subcommand() {
        Some(("search", inner)) => Ok(Job::Search(question_in(alloc, inner)?)),
        Some(("check", inner)) => Ok(Job::Check(checking_in(alloc, inner)?)),
        Some(("import", _)) => Ok(Job::Import),
        Some(("export", _)) => Ok(Job::Export),
        Some(("lab", inner)) => Ok(Job::Lab(inner.get_str("index"))),
        Some(("serve", inner)) => Ok(Job::Serve(serving_in(alloc, inner)?)),
        Some((_, inner)) => Ok(Job::Answer(opening_in(inner))),
        None => Ok(Job::Answer(opening_in(matches))),
    }
}

/// Reads the words of the command line, the program's name first. One that isn't UTF-8 comes with a NUL in it, and is
/// refused anywhere but as the name of a file, which then can't be read.
pub fn read_words<'a>(alloc: Global, words: &'a [String]) -> Result<Job<'a>, Error> {
    let matches = command(alloc)?.try_get_matches_from(words)?;
    job_in(alloc, &matches)
}
