//! What a server asks of the system.
use std::fs::{File, Files};
use std::io::{Eprint, Print, Read};
use std::net::{Net, TcpListener, TcpStream};
use std::sync::Wait;
use std::thread::Threads;
use std::time::Clock;

/// Sockets, files, threads, the clock and both outputs. A folder is read by a value of the type `Folder`.
pub trait ServerRuntime<Folder: Read + Drop + Send>: Net<Listener = TcpListener, Stream = TcpStream>
    + Files<File = File, Dir = Folder>
    + Threads
    + Wait
    + Clock
    + Print
    + Eprint
    + Sync {}

impl<R, Folder> ServerRuntime<Folder> for R
where
    R: Net<Listener = TcpListener, Stream = TcpStream>
        + Files<File = File, Dir = Folder>
        + Threads
        + Wait
        + Clock
        + Print
        + Eprint
        + Sync,
    Folder: Read + Drop + Send,
{}
