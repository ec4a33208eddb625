//! Takes connections from a listener and numbers them.
use crate::door::Door;
use crossbeam_channel::{SendTimeoutError, Sender};
use std::alloc::Global;
use std::net::{Net, SocketAddr, TcpListener, TcpStream};
use std::sync::Wait;
use std::time::{Clock, Duration};
use std::{io, thread};

/// How long it is waited before the door is looked at again, or a connection is asked for again, in milliseconds.
const PAUSE: u64 = 100;

/// How long the call that wakes a listener may take, in seconds.
const WAKE: u64 = 1;

/// What has a door: what those who take connections share with those who serve them.
pub trait HasDoor {
    fn door(&self) -> &Door;
}

impl HasDoor for Door {
    fn door(&self) -> &Door {
        self
    }
}

/// What becomes of a socket that was taken, with the house that it was taken into and the address of its other end.
pub trait Arrives<'a, R, H>: Sized {
    fn arrive(
        rt: &'a R,
        alloc: Global,
        house: &'a H,
        socket: TcpStream,
        address: SocketAddr,
    ) -> io::Result<Self>;
}

/// Hands a connection on once there is room for it; false where the door is closed or nobody takes connections any
/// more.
fn hand_on<R: Wait + Clock, V: Drop>(
    rt: &R,
    door: &Door,
    to: &Sender<(u64, V)>,
    number: u64,
    visitor: V,
) -> bool {
    let mut message = (number, visitor);
    for _ in rt.forever() {
        match to.send_timeout(rt, message, Duration::from_millis(PAUSE)) {
            Ok(()) => return true,
            Err(SendTimeoutError::Timeout(back)) => {
                if door.is_closed() {
                    return false;
                }
                message = back;
            }
            Err(_) => return false,
        }
    }
    false
}

/// Takes connections and numbers them from 1, until the door is closed. At most as many wait as the channel has room
/// for; further ones wait with the operating system. A connection that can't be taken or made ready is left out, and a
/// listener that fails is asked again.
pub fn accept_all<'a, R: Wait + Clock, H: HasDoor, V: Arrives<'a, R, H> + Drop>(
    rt: &'a R,
    alloc: Global,
    listener: &TcpListener,
    house: &'a H,
    to: Sender<(u64, V)>,
) {
    let door = house.door();
    for number in 1..u64::MAX {
        let accepted = listener.accept();
        if door.is_closed() {
            break;
        }
        let Ok((socket, address)) = accepted else {
            thread::sleep(rt, Duration::from_millis(PAUSE));
            continue;
        };
        let Ok(visitor) = V::arrive(rt, alloc, house, socket, address) else {
            continue;
        };
        if !hand_on(rt, door, &to, number, visitor) {
            break;
        }
    }
}

/// Closes the door for good, and wakes whoever waits for a connection at this address. It takes a second at most: where
/// no connection can be made because too many wait to be taken, whoever takes them is awake.
pub fn close<R: Net<Stream = TcpStream>>(rt: &R, door: &Door, address: SocketAddr) {
    door.shut();
    let _is_awake = TcpStream::connect_timeout(rt, &address, Duration::from_secs(WAKE)).is_ok();
}
