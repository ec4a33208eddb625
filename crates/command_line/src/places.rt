//! Where the replicas of a cluster are found, by the words of the command line.
use std::net::SocketAddr;

/// Where a socket is found.
#[derive(Clone, Copy)]
pub enum Address<'a> {
    /// An address with its port.
    Numbers(SocketAddr),
    /// A host's name with a port.
    Name { host: &'a str, port: u16 },
}

/// Where one replica is found.
#[derive(Clone, Copy)]
pub struct Peer<'a> {
    /// Where the other replicas find it.
    pub peer_address: Address<'a>,
    /// Where it hears clients.
    pub ldap_address: Address<'a>,
    /// The URI that clients are referred to; none for that of the address at which it hears them.
    pub uri: Option<&'a str>,
}

/// How many characters the name of a host has, at most (RFC 1035 2.3.4).
const LONGEST: usize = 253;

/// What may stand in the name of a host beside letters and digits.
const HOST_MARKS: &[u8] = b"-._";

/// What may stand in a URI beside letters and digits (RFC 3986 2): delimiters, other marks, and what begins an escape.
const URI_MARKS: &[u8] = b":/?#[]@!$&'()*+,;=-._~%";

/// Whether a text has nothing but ASCII letters, digits and these marks.
fn is_made_of(text: &str, marks: &[u8]) -> bool {
    for octet in text.as_bytes() {
        if !octet.is_ascii_alphanumeric() && !marks.contains(octet) {
            return false;
        }
    }
    true
}

/// Whether a text is the name of a host (RFC 1123 2.1): parts with dots between them, none of which is empty. The last
/// begins with a letter: else it may be an address that is spelled badly.
fn is_host(text: &str) -> bool {
    let mut is_named = false;
    for part in text.split('.') {
        match part.as_bytes() {
            [first, ..] => is_named = first.is_ascii_alphabetic(),
            [] => return false,
        }
    }
    is_named && text.len() <= LONGEST && !text.starts_with('-') && is_made_of(text, HOST_MARKS)
}

/// What is wrong with the word of a PEER: a sentence, and the part of the word within it.
#[derive(Clone, Copy)]
pub struct PeerFault<'a> {
    pub before: &'static str,
    pub part: &'a str,
    pub behind: &'static str,
}

/// What is wrong with a part of the word of a PEER, which the sentence begins with.
fn fault_of<'a>(part: &'a str, behind: &'static str) -> PeerFault<'a> {
    PeerFault {
        before: "'",
        part,
        behind,
    }
}

/// Where a socket is found, by its word; or why that is neither an address nor a host's name, with a port.
fn address_of(word: &str) -> Result<Address<'_>, PeerFault<'_>> {
    if let Ok(address) = word.parse::<SocketAddr>() {
        return Ok(Address::Numbers(address));
    }
    let Some((host, port)) = word.rsplit_once(':') else {
        return Err(fault_of(
            word,
            "' has no port: write ADDRESS:PORT, and IPv6 as [ADDRESS]:PORT",
        ));
    };
    let Ok(port) = port.parse::<u16>() else {
        return Err(PeerFault {
            before: "the port of '",
            part: word,
            behind: "' is no number up to 65535",
        });
    };
    if !is_host(host) {
        return Err(fault_of(word, "' begins with neither an address nor a host's name"));
    }
    Ok(Address::Name { host, port })
}

/// Whether only this machine reaches an address, as far as its spelling shows.
pub fn is_of_this_machine(address: &Address<'_>) -> bool {
    match address {
        Address::Numbers(address) => address.ip().is_loopback(),
        Address::Name { host, port: _ } => *host == "localhost",
    }
}

/// Whether an address stands for all of a machine's, which nobody else can be referred to.
fn is_any(address: &Address<'_>) -> bool {
    match address {
        Address::Numbers(address) => address.ip().is_unspecified(),
        Address::Name { host: _, port: _ } => false,
    }
}

/// Whether two addresses are one: no port 0 is, for the system chooses another when somebody listens there.
fn are_one(first: &Address<'_>, second: &Address<'_>) -> bool {
    match (first, second) {
        (Address::Numbers(first), Address::Numbers(second)) => {
            first.port() != 0 && first == second
        }
        (
            Address::Name { host, port },
            Address::Name {
                host: other_host,
                port: other_port,
            },
        ) => *port != 0 && port == other_port && host == other_host,
        _ => false,
    }
}

impl<'a> Peer<'a> {
    /// Whether clients can be referred to the replica: by its URI, or else by an address that other machines reach.
    pub fn is_referable(&self) -> bool {
        self.uri.is_some() || !is_any(&self.ldap_address)
    }

    /// Whether two replicas are to be found at one address.
    pub fn meets(&self, other: &Peer<'_>) -> bool {
        are_one(&self.peer_address, &other.peer_address)
            || are_one(&self.ldap_address, &other.ldap_address)
    }

    /// Whether clients and other replicas are to be heard at one address.
    pub fn meets_itself(&self) -> bool {
        are_one(&self.peer_address, &self.ldap_address)
    }
}

/// Whether a text is a URI that clients may be referred to, with a host (RFC 4516 2).
fn is_uri(text: &str) -> bool {
    match text.split_once("://") {
        Some(("ldap" | "ldaps", behind)) => {
            !matches!(behind.as_bytes(), [] | [b'/', ..]) && is_made_of(text, URI_MARKS)
        }
        _ => false,
    }
}

/// Where a replica is found, by its word; or why that isn't two addresses, and a URI or none, with commas between them.
pub fn peer_of(word: &str) -> Result<Peer<'_>, PeerFault<'_>> {
    let Some((peer, rest)) = word.split_once(',') else {
        return Err(PeerFault {
            before: "it has one address: write that for replicas, a comma, and that for clients",
            part: "",
            behind: "",
        });
    };
    let (clients, uri) = match rest.split_once(',') {
        Some((clients, uri)) => (clients, Some(uri)),
        None => (rest, None),
    };
    let peer_address = address_of(peer)?;
    let ldap_address = address_of(clients)?;
    match uri {
        Some(uri) if !is_uri(uri) => Err(fault_of(
            uri,
            "' is no URI: write ldap:// or ldaps://, and a host",
        )),
        _ => Ok(Peer {
            peer_address,
            ldap_address,
            uri,
        }),
    }
}
