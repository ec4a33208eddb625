//! Where a socket is found: an address, or a name that is looked up.
use std::fmt::{self, Display, Formatter, Write};
use std::net::{Net, SocketAddr, ToSocketAddrs};

/// Where a socket is found.
#[derive(Clone, Copy, Debug)]
pub enum Address<'a> {
    /// An address with its port.
    Numbers(SocketAddr),
    /// A host's name with a port. It is looked up whenever the socket is sought, since its address may change.
    Name { host: &'a str, port: u16 },
}

impl<'a> Display for Address<'a> {
    fn fmt<W: Write>(&self, f: &mut Formatter<W>) -> fmt::Result {
        match self {
            Address::Numbers(address) => write!(f, "{address}"),
            Address::Name { host, port } => write!(f, "{host}:{port}"),
        }
    }
}

impl<'a> Address<'a> {
    /// The address, of a name's the first that the system has now; none, where it has none. A look-up may wait for the
    /// system.
    pub fn first<R: Net>(&self, rt: &R) -> Option<SocketAddr> {
        match self {
            Address::Numbers(address) => Some(*address),
            Address::Name { host, port } => {
                let mut found = (*host, *port).to_socket_addrs(rt).ok()?;
                found.next()
            }
        }
    }
}
