//! What the words of `serve` ask for becomes a running replica: the settings flow on to the server, and why it ended
//! flows back.
use command_line::{Address as Told, BUILD};
use dird_commands::{ExitStatus, Service};
use server::{
    Address, Build, Cluster, Limits, Logs, NodeConfig, Options, ReplicaAddresses, ServerError,
    Terms, Times, serve,
};
use std::alloc::{AllocError, Global};
use std::fs::{File, Files};
use std::io::{Eprint, Print, Read, Write};
use std::net::{Net, TcpListener, TcpStream};
use std::sync::Wait;
use std::thread::Threads;
use std::time::{Clock, Duration};

/// Where a socket is found.
fn address_of(address: Told<'_>) -> Address<'_> {
    match address {
        Told::Numbers(address) => Address::Numbers(address),
        Told::Name { host, port } => Address::Name { host, port },
    }
}

/// Where the replicas are.
fn places_of<'a>(
    alloc: Global,
    service: &Service<'a>,
) -> Result<Vec<ReplicaAddresses<'a>>, AllocError> {
    let mut places = Vec::new(alloc);
    for peer in &service.words.peers {
        places.push(ReplicaAddresses {
            peer_address: address_of(peer.peer_address),
            ldap_address: address_of(peer.ldap_address),
            uri: peer.uri,
        })?;
    }
    Ok(places)
}

/// The text that is there.
fn text_in(text: &Option<String>) -> Option<&str> {
    match text {
        Some(text) => Some(text.as_str()),
        None => None,
    }
}

/// Where clients find a replica: where it hears them, and the URI that they are referred to, where that is another.
fn client_line(alloc: Global, place: &ReplicaAddresses<'_>) -> Result<String, AllocError> {
    match place.uri {
        Some(uri) => format!(in alloc; "{} {uri}\n", place.ldap_address),
        None => format!(in alloc; "{}\n", place.ldap_address),
    }
}

/// Where clients find the replicas, a line each.
fn clients_of(alloc: Global, places: &[ReplicaAddresses<'_>]) -> Result<String, AllocError> {
    let mut clients = String::new(alloc);
    for place in places {
        let line = client_line(alloc, place)?;
        clients.push_str(&line)?;
    }
    Ok(clients)
}

/// What all replicas must have alike.
fn terms_of(
    alloc: Global,
    service: &Service<'_>,
    places: &[ReplicaAddresses<'_>],
) -> Result<Terms, AllocError> {
    let clients = clients_of(alloc, places)?;
    let schema = text_in(&service.schema_text);
    Ok(Terms::of(schema, service.words.settings.suffix, &clients))
}

/// A file's option, and the file's name behind it, except one that isn't UTF-8.
fn option_text(alloc: Global, option: &str, name: &str) -> Result<String, AllocError> {
    if name.contains('\0') {
        return String::from_str(alloc, option);
    }
    format!(in alloc; "{option}: {name}")
}

/// Why a replica ended, with the name of the file that it is about behind the file's option.
fn text_of(
    alloc: Global,
    fault: &ServerError,
    store: &str,
    journal: Option<&str>,
) -> Result<String, AllocError> {
    let text = format!(in alloc; "{fault}")?;
    if let Some((first, rest)) = text.split_once("\n--store: ") {
        let option = option_text(alloc, "--store", store)?;
        return format!(in alloc; "{first}\n{option}: {rest}");
    }
    match (text.split_once("\n--journal: "), journal) {
        (Some((first, rest)), Some(journal)) => {
            let option = option_text(alloc, "--journal", journal)?;
            format!(in alloc; "{first}\n{option}: {rest}")
        }
        _ => Ok(text),
    }
}

// The bounds are spelled out here: through `ServerRuntime` the check of `main` doesn't find the type of a folder.

/// Serves as a replica, until it is stopped. Why it ended joins the faults.
pub fn serve_as_replica<R, N>(
    rt: &R,
    alloc: Global,
    service: Service<'_>,
    faults: &mut Vec<u8>,
) -> ExitStatus
where
    R: Net<Listener = TcpListener, Stream = TcpStream>
        + Files<File = File, Dir = N>
        + Threads
        + Wait
        + Clock
        + Print
        + Eprint
        + Sync,
    N: Read + Drop + Send,
{
    let settings = service.words.settings;
    let Err(fault) = serve_service(rt, alloc, service) else {
        return ExitStatus::Done;
    };
    let _ = match text_of(alloc, &fault, settings.store, settings.journal) {
        Ok(text) => writeln!(faults, "{text}"),
        Err(_) => writeln!(faults, "out of memory"),
    };
    ExitStatus::Refused
}

/// Serves as a replica, until it is stopped.
fn serve_service<R, N>(rt: &R, alloc: Global, service: Service<'_>) -> Result<(), ServerError>
where
    R: Net<Listener = TcpListener, Stream = TcpStream>
        + Files<File = File, Dir = N>
        + Threads
        + Wait
        + Clock
        + Print
        + Eprint
        + Sync,
    N: Read + Drop + Send,
{
    let places = places_of(alloc, &service)?;
    let terms = terms_of(alloc, &service, &places)?;
    let Service {
        schema,
        indexes,
        suffix,
        manager,
        password,
        schema_text: _,
        words,
    } = service;
    let settings = words.settings;
    let Some(cluster) = Cluster::new(settings.cluster) else {
        return Err(ServerError::ForeignCluster);
    };
    // The options live as long as what they borrow here.
    let version = String::from_str(alloc, BUILD.number())?;
    let options = Options {
        build: if BUILD.is_proved() {
            Build::Proved
        } else {
            Build::Unproved
        },
        version: &version,
        node: NodeConfig {
            schema,
            indexes,
            suffix,
            cluster,
            index: settings.index,
            count: words.peers.len() as u64,
        },
        manager,
        password: &password,
        store: settings.store,
        journal: settings.journal,
        is_fresh: settings.fresh,
        seats: settings.seats as usize,
        sessions: settings.sessions as usize,
        updates: settings.updates as usize,
        memory_for_clients: settings.memory_for_clients,
        times: Times {
            beat: Duration::from_millis(settings.times.beat),
            suspect: Duration::from_millis(settings.times.suspect),
        },
        limits: Limits {
            message: Duration::from_millis(settings.times.stall),
            idle: Duration::from_millis(settings.times.idle),
            write: Duration::from_millis(settings.times.take),
        },
        places: &places,
        terms,
        metrics: settings.metrics,
        logs: Logs {
            connections: settings.logs.connections,
            updates: settings.logs.updates,
            slow: settings.slow,
        },
    };
    serve(rt, alloc, options)
}
