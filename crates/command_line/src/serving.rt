//! Reads the words of `serve` as a replica's settings.
use crate::build::BUILD;
use crate::logs::{Logs, logs_of};
use crate::places::{Peer, PeerFault, is_of_this_machine, peer_of};
use crate::rows::{
    CommandSpec, INDEX_OPTION, OptionSpec, SCHEMA_OPTION, Takes, command_of, refusal_by,
};
use crate::words::{as_text, text_in, value_in};
use clap::{ArgMatches, Error};
use std::alloc::Global;
use std::net::SocketAddr;

/// The greatest number of a cluster.
const LAST_CLUSTER: u64 = 281_474_976_710_655;

/// The greatest number of milliseconds that may be asked for, a day.
const LONGEST: u64 = 86_400_000;

/// The greatest number of MiB that may be told, more than any machine has.
const MOST_MEMORY: u64 = 1_073_741_824;

/// The greatest number of entries that may be told, more than any directory has.
const MOST_ENTRIES: u64 = 4_294_967_295;

/// How the manager's password is told.
#[derive(Clone, Copy)]
pub enum Password<'a> {
    Text(&'a str),
    /// The name of a file whose first line it is.
    File(&'a str),
}

/// How long a replica waits, in milliseconds.
#[derive(Clone, Copy)]
pub struct Times {
    /// How often it sends again.
    pub beat: u64,
    /// How long a backup hears nothing of its primary before it suspects it.
    pub suspect: u64,
    /// Within how long a client has to send a message that it has begun.
    pub stall: u64,
    /// How long another replica's connection may be silent while others wait for its place.
    pub idle: u64,
    /// How long a client may take nothing of what it is sent.
    pub take: u64,
}

/// What a replica is told beside where replicas are.
#[derive(Clone, Copy)]
pub struct Settings<'a> {
    /// The number of the cluster, from 1.
    pub cluster: u64,
    /// The replica's place among the peers, from 0.
    pub index: u64,
    /// The name of the file of its stored view.
    pub store: &'a str,
    /// The name of the file of its journal; none for a replica that keeps its log in memory alone.
    pub journal: Option<&'a str>,
    pub suffix: &'a str,
    pub manager: &'a str,
    pub password: Password<'a>,
    /// The name of the schema's file; none for the built-in schema.
    pub schema: Option<&'a str>,
    /// The name of the index choice's file; none for no index.
    pub indexes: Option<&'a str>,
    /// How many threads read.
    pub seats: u64,
    /// How many sessions there may be.
    pub sessions: u64,
    /// How many threads wait for updates.
    pub updates: u64,
    pub times: Times,
    /// How many MiB of memory clients may take together, where that is told.
    pub memory_for_clients: Option<u64>,
    /// Where monitors are answered, if they are.
    pub metrics: Option<SocketAddr>,
    /// What is logged beside what is always told.
    pub logs: Logs,
    /// On more than so many entries a search evaluates its filter that is logged.
    pub slow: u64,
    /// Whether this is the first start of its life.
    pub fresh: bool,
}

/// What a replica is told.
pub struct Serving<'a> {
    pub settings: Settings<'a>,
    /// All replicas, by index.
    pub peers: Vec<Peer<'a>>,
}

// Not derived: see "What the gate takes" in docs/ARCHITECTURE.md.
impl<'a> Drop for Serving<'a> {
    fn drop(self) {
        let Serving {
            settings: _,
            peers: _,
        } = self;
    }
}

/// What each word of `serve` is, in the order of its help.
const OPTIONS: &[OptionSpec] = &[
    OptionSpec {
        name: "cluster",
        value: "C",
        takes: Takes::Number {
            first: 1,
            last: LAST_CLUSTER,
        },
        help: "The number of the cluster, the same at each of its replicas and at no other cluster's",
    },
    OptionSpec {
        name: "id",
        value: "I",
        takes: Takes::Number { first: 0, last: 6 },
        help: "Which of the PEERs this replica is, counted from 0",
    },
    OptionSpec {
        name: "store",
        value: "FILE",
        takes: Takes::Wanted,
        help: "The file of the replica's stored view, its own for its whole life",
    },
    OptionSpec {
        name: "journal",
        value: "FILE",
        takes: Takes::Text,
        help: "The file of the replica's journal: it keeps the log, so that not even the end of all replicas at once loses an update",
    },
    OptionSpec {
        name: "fresh",
        value: "",
        takes: Takes::Nothing,
        help: "The first start of the replica's life: its file is made, and no other start may be given this",
    },
    OptionSpec {
        name: "suffix",
        value: "DN",
        takes: Takes::Wanted,
        help: "The name of the directory's root",
    },
    OptionSpec {
        name: "manager",
        value: "DN",
        takes: Takes::Wanted,
        help: "The name that may bind and update",
    },
    OptionSpec {
        name: "password",
        value: "TEXT",
        takes: Takes::Text,
        help: "The manager's password, which whoever lists this machine's processes then reads",
    },
    OptionSpec {
        name: "password-file",
        value: "FILE",
        takes: Takes::Text,
        help: "The file whose first line is the manager's password, in place of --password; nobody but its owner may read it",
    },
    SCHEMA_OPTION,
    INDEX_OPTION,
    OptionSpec {
        name: "seats",
        value: "N",
        takes: Takes::Count {
            last: 32,
            default: "8",
        },
        help: "How many threads read, at most 32",
    },
    OptionSpec {
        name: "sessions",
        value: "N",
        takes: Takes::Count {
            last: 1_000_000,
            default: "10000",
        },
        help: "How many sessions there may be, as far as the system has descriptors; then the one that was silent for longest goes",
    },
    OptionSpec {
        name: "updates",
        value: "N",
        takes: Takes::Count {
            last: 256,
            default: "8",
        },
        help: "How many threads wait for updates, at most 256",
    },
    OptionSpec {
        name: "stall",
        value: "MS",
        takes: Takes::Count {
            last: LONGEST,
            default: "10000",
        },
        help: "Within how long a client has to send a message that it has begun",
    },
    OptionSpec {
        name: "idle",
        value: "MS",
        takes: Takes::Count {
            last: LONGEST,
            default: "60000",
        },
        help: "How long another replica's connection may be silent while others wait for its place",
    },
    OptionSpec {
        name: "take",
        value: "MS",
        takes: Takes::Count {
            last: LONGEST,
            default: "20000",
        },
        help: "How long a client may take nothing of what it is sent, and an update wait for a thread",
    },
    OptionSpec {
        name: "memory-for-clients",
        value: "MIB",
        takes: Takes::Amount { last: MOST_MEMORY },
        help: "How much memory requests and answers of clients may take together, a quarter of this machine's at most; an eighth of it, between 64 and 1024, where it isn't told",
    },
    OptionSpec {
        name: "beat",
        value: "MS",
        takes: Takes::Count {
            last: LONGEST,
            default: "500",
        },
        help: "How often the replica sends again what others may have missed",
    },
    OptionSpec {
        name: "suspect",
        value: "MS",
        takes: Takes::Count {
            last: LONGEST,
            default: "3000",
        },
        help: "How long a backup hears nothing of its primary before it suspects it",
    },
    OptionSpec {
        name: "metrics",
        value: "ADDR",
        takes: Takes::Text,
        help: "Answer monitors over HTTP at this address, as 127.0.0.1:9389: /live, /ready and /metrics",
    },
    OptionSpec {
        name: "log",
        value: "WHAT",
        takes: Takes::Texts,
        help: "Log on standard error each session's begin and end (connections), each update (updates), or both (connections,updates)",
    },
    OptionSpec {
        name: "slow",
        value: "N",
        takes: Takes::Count {
            last: MOST_ENTRIES,
            default: "10000",
        },
        help: "Log each search that evaluates its filter on more than so many entries, for want of an index",
    },
    OptionSpec {
        name: "unproved",
        value: "",
        takes: Takes::Nothing,
        help: "Serve beyond this machine although the program's proofs were not checked; a proved program needs no leave",
    },
    OptionSpec {
        name: "PEER",
        value: "",
        takes: Takes::Many { at_least_one: true },
        help: "Each replica of the cluster in order, 3, 5 or 7: where replicas find it and where clients do, as 127.0.0.1:4000,127.0.0.1:3890 or one.example.com:4000,one.example.com:389; behind a further comma the URI that clients are referred to, where it is another, as ldaps://one.example.com",
    },
];

/// The command `serve`.
pub const SERVE: CommandSpec = CommandSpec {
    name: "serve",
    about: "Serve LDAP as one replica of a cluster, until it is stopped",
    words: OPTIONS,
};

/// An error in the words of `serve`.
fn refusal(alloc: Global, message: &str) -> Error {
    refusal_by(command_of(alloc, &SERVE), message)
}

/// The replicas of a cluster, by their words.
fn peers_in<'a>(alloc: Global, words: &[&'a str]) -> Result<Vec<Peer<'a>>, Error> {
    if !matches!(words.len(), 3 | 5 | 7) {
        return Err(refusal(alloc, "a cluster has 3, 5 or 7 replicas"));
    }
    let mut peers = Vec::new(alloc);
    for word in words {
        match peer_of(word) {
            Ok(peer) => peers.push(peer)?,
            Err(fault) => {
                let PeerFault {
                    before,
                    part,
                    behind,
                } = fault;
                let message = format!(in alloc; "PEER {word}: {before}{part}{behind}")?;
                return Err(refusal(alloc, &message));
            }
        }
    }
    judge_peers(alloc, &peers)?;
    Ok(peers)
}

/// Whether an address stands twice among those of the replicas.
fn have_one_address(peers: &[Peer<'_>]) -> bool {
    for (index, peer) in peers.iter().enumerate() {
        if peer.meets_itself() {
            return true;
        }
        for other in &peers[..index] {
            if peer.meets(other) {
                return true;
            }
        }
    }
    false
}

/// Refuses replicas that contradict one another.
fn judge_peers(alloc: Global, peers: &[Peer<'_>]) -> Result<(), Error> {
    if have_one_address(peers) {
        return Err(refusal(alloc, "an address stands twice among those of the PEERs"));
    }
    for peer in peers {
        if !peer.is_referable() {
            return Err(refusal(
                alloc,
                "a PEER that hears clients at every address of its machine has the URI that clients are referred to behind it",
            ));
        }
    }
    Ok(())
}

/// How many beats a suspect period has, at least: one that is lost on its way is no reason for a suspicion.
const BEATS: u64 = 3;

/// Refuses times that contradict one another.
fn judge_times(alloc: Global, beat: u64, suspect: u64) -> Result<(), Error> {
    if beat.saturating_mul(BEATS) > suspect {
        return Err(refusal(
            alloc,
            "--suspect is at least three times --beat, else a beat that is late is a suspicion",
        ));
    }
    Ok(())
}

/// Whether all of a replica is within this machine: where it hears clients, other replicas and monitors.
fn stays_here(own: &Peer<'_>, metrics: Option<SocketAddr>) -> bool {
    let monitors = match metrics {
        Some(address) => address.ip().is_loopback(),
        None => true,
    };
    monitors && is_of_this_machine(&own.peer_address) && is_of_this_machine(&own.ldap_address)
}

/// Refuses to serve others by a program whose proofs were not checked, unless that is asked for.
fn judge_build(
    alloc: Global,
    own: &Peer<'_>,
    metrics: Option<SocketAddr>,
    is_allowed: bool,
) -> Result<(), Error> {
    if BUILD.is_proved() || is_allowed || stays_here(own, metrics) {
        return Ok(());
    }
    Err(refusal(
        alloc,
        "this program's proofs were not checked, so it serves only at 127.0.0.1, ::1 or localhost: ./prove builds the proved one; --unproved serves all the same",
    ))
}

/// Refuses what stands behind a word that takes a number, and is none, or out of its range.
fn judge_number(alloc: Global, matches: &ArgMatches<'_>, word: &OptionSpec) -> Result<(), Error> {
    let (Some((first, last)), Some(text)) = (word.takes.range(), matches.get_str(word.name)) else {
        return Ok(());
    };
    match text.parse::<u64>() {
        Ok(number) if first <= number && number <= last => Ok(()),
        _ => {
            let name = word.name;
            let message = format!(in alloc; "--{name} takes a number from {first} to {last}")?;
            Err(refusal(alloc, &message))
        }
    }
}

/// Refuses what is no number where one is wanted.
fn judge_numbers(alloc: Global, matches: &ArgMatches<'_>) -> Result<(), Error> {
    for word in OPTIONS {
        judge_number(alloc, matches, word)?;
    }
    Ok(())
}

/// The number behind a word, which is there.
fn number_in(matches: &ArgMatches<'_>, name: &str) -> u64 {
    matches.get_one::<u64>(name).unwrap_or(0)
}

/// How the password is told: by one of two words.
fn password_in<'a>(alloc: Global, matches: &ArgMatches<'a>) -> Result<Password<'a>, Error> {
    match (
        matches.get_str("password"),
        matches.get_str("password-file"),
    ) {
        (Some(text), None) => {
            if text.is_empty() {
                return Err(refusal(alloc, "the password is empty"));
            }
            Ok(Password::Text(as_text(alloc, text)?))
        }
        (None, Some(path)) => Ok(Password::File(path)),
        _ => Err(refusal(
            alloc,
            "the password is told by one of --password and --password-file",
        )),
    }
}

/// Where monitors are answered, if they are.
fn metrics_in(alloc: Global, matches: &ArgMatches<'_>) -> Result<Option<SocketAddr>, Error> {
    let Some(word) = matches.get_str("metrics") else {
        return Ok(None);
    };
    match word.parse::<SocketAddr>() {
        Ok(address) => Ok(Some(address)),
        Err(_) => Err(refusal(alloc, "--metrics takes an address, as 127.0.0.1:9389")),
    }
}

/// What is logged.
fn logs_in(alloc: Global, matches: &ArgMatches<'_>) -> Result<Logs, Error> {
    match logs_of(matches.get_strs("log").unwrap_or(&[])) {
        Some(logs) => Ok(logs),
        None => Err(refusal(
            alloc,
            "--log takes connections, updates, or both with a comma between them",
        )),
    }
}

/// How long the replica waits.
fn times_in(matches: &ArgMatches<'_>) -> Times {
    Times {
        beat: number_in(matches, "beat"),
        suspect: number_in(matches, "suspect"),
        stall: number_in(matches, "stall"),
        idle: number_in(matches, "idle"),
        take: number_in(matches, "take"),
    }
}

/// What a replica is told that is one of these.
fn settings_in<'a>(
    alloc: Global,
    matches: &ArgMatches<'a>,
    peers: &[Peer<'_>],
) -> Result<Settings<'a>, Error> {
    let index = number_in(matches, "id");
    let Some(own) = peers.get(index as usize) else {
        return Err(refusal(alloc, "the id is not below the number of PEERs"));
    };
    let suffix = text_in(alloc, matches, "suffix")?;
    let manager = text_in(alloc, matches, "manager")?;
    let password = password_in(alloc, matches)?;
    let metrics = metrics_in(alloc, matches)?;
    let logs = logs_in(alloc, matches)?;
    let times = times_in(matches);
    judge_times(alloc, times.beat, times.suspect)?;
    judge_build(alloc, own, metrics, matches.get_flag("unproved"))?;
    Ok(Settings {
        cluster: number_in(matches, "cluster"),
        index,
        store: value_in(matches, "store"),
        journal: matches.get_str("journal"),
        suffix,
        manager,
        password,
        schema: matches.get_str("schema"),
        indexes: matches.get_str("index"),
        seats: number_in(matches, "seats"),
        sessions: number_in(matches, "sessions"),
        updates: number_in(matches, "updates"),
        times,
        memory_for_clients: matches.get_one::<u64>("memory-for-clients"),
        metrics,
        logs,
        slow: number_in(matches, "slow"),
        fresh: matches.get_flag("fresh"),
    })
}

/// What `serve` is told.
pub fn serving_in<'a>(alloc: Global, matches: &ArgMatches<'a>) -> Result<Serving<'a>, Error> {
    judge_numbers(alloc, matches)?;
    let peers = peers_in(alloc, matches.get_strs("PEER").unwrap_or(&[]))?;
    match settings_in(alloc, matches, &peers) {
        Ok(settings) => Ok(Serving { settings, peers }),
        Err(error) => Err(error),
    }
}
