//! Starts the threads of a server, and ends them.
ghost use denote.Param.Send.{IsSend, IsSync};

use crate::engine::Engine;
use crate::fault::{Audience, ServerError};
use crate::pages::ServerPages;
use crate::session_events::SessionReporter;
use crate::shared_parts::{SharedParts, listen};
use crate::telling::{tell_fault, tell_room};
use logged_directory::Logged;
use peer_threads::{Claim, Cluster, PeerThreads, ReplicaAddresses};
use server_monitor::{Monitoring, StandardError};
use session_pool::{
    Config, Directory, Door, PoolSettings, SessionPool, close, descriptors, serve_sessions,
};
use std::alloc::{AllocError, Global};
use std::io::Eprint;
use std::net::{Net, SocketAddr, TcpListener, TcpStream};
use std::sync::Wait;
use std::thread::{self, Threads};
use std::time::{Clock, Duration};

/// How often it is looked whether the node has a state, in milliseconds.
const LOOK: u64 = 10;

/// A server: what its threads share.
#[derive(Drop)]
pub struct Server<'a, R, E> {
    pub rt: &'a R,
    pub alloc: Global,
    pub shared_parts: &'a SharedParts,
    pub engine: &'a E,
    pub cluster: Cluster,
    pub places: &'a [ReplicaAddresses<'a>],
    /// What this start says of itself when it greets.
    pub claim: Claim,
}

impl<'a, R, E> Server<'a, R, E>
where
    R: Net<Listener = TcpListener, Stream = TcpStream>
        + Threads
        + Wait
        + Clock
        + Print
        + Eprint
        + Sync,
    E: Engine + Sync,
{
    /// Sends to the other replicas and hears them, until the server closes.
    fn link(&self) -> Result<(), AllocError> {
        let shared_parts: &'a SharedParts = self.shared_parts;
        let peer_threads = PeerThreads {
            rt: self.rt,
            alloc: self.alloc,
            parts: shared_parts.peer_parts(),
            listener: &shared_parts.peers,
            door: &shared_parts.peer_door,
            needed_threads: &shared_parts.needed_threads,
            handler: self.engine,
            cluster: self.cluster,
            places: self.places,
            claim: self.claim,
            times: shared_parts.link_times,
        };
        peer_threads.link()
    }

    /// How many sessions there may be: as many as were asked for, and as the system has descriptors for.
    fn room(&self, sessions: usize) -> usize {
        match descriptors() {
            Some(most) => {
                if most < sessions as u64 {
                    tell_room(
                        self.rt,
                        self.alloc,
                        &self.shared_parts.reporter,
                        most as usize,
                    );
                    most as usize
                } else {
                    sessions
                }
            }
            None => sessions,
        }
    }

    /// Waits until the node has a state that clients may ask: before, a client had better go on to another replica.
    /// Whether the server goes on.
    fn wait_for_state(&self) -> bool {
        let mut goes_on = false;
        for _ in self.rt.forever() {
            goes_on = !self.shared_parts.client_door.is_closed();
            if !goes_on || self.engine.figures().role.serves() {
                break;
            }
            thread::sleep(self.rt, Duration::from_millis(LOOK));
        }
        goes_on
    }

    /// Listens to clients, and says where. Who stops the server afterwards knows it too.
    fn open_door(&self) -> Result<TcpListener, ServerError> {
        let listener = listen(self.rt, Audience::Clients, self.shared_parts.client_address)?;
        let address = listener
            .local_addr()
            .unwrap_or(self.shared_parts.client_address);
        *self.shared_parts.heard_at.lock(self.rt) = Some(address);
        match println!(self.rt; "listening {address}") {
            Ok(()) => Ok(listener),
            Err(_) => Err(ServerError::CannotWrite),
        }
    }

    /// A directory whose answers are counted, and of which updates and slow searches are logged; whether it is asked
    /// for updates alone.
    fn logged<D>(&self, way: D, updates: bool) -> Logged<'a, R, D> {
        let shared_parts: &'a SharedParts = self.shared_parts;
        Logged::new(
            self.rt,
            &shared_parts.reporter,
            shared_parts.logs,
            &shared_parts.counters,
            updates,
            way,
        )
    }

    /// The directories that are read, so.
    fn logged_ways<D: Drop>(&self, ways: Vec<D>) -> Result<Vec<Logged<'a, R, D>>, AllocError> {
        let mut logged = Vec::with_capacity(self.alloc, ways.len())?;
        for way in ways {
            logged.push(self.logged(way, false))?;
        }
        Ok(logged)
    }

    /// Those that are updated, so, each with its thread.
    fn logged_gates<U: Drop>(
        &self,
        gates: Vec<(usize, U)>,
    ) -> Result<Vec<(usize, Logged<'a, R, U>)>, AllocError> {
        let mut logged = Vec::with_capacity(self.alloc, gates.len())?;
        for (thread, way) in gates {
            logged.push((thread, self.logged(way, true)))?;
        }
        Ok(logged)
    }

    /// Serves clients, once the node has a state, until the server closes: reads by one list of directories, updates by
    /// the other.
    fn serve_clients<D: Directory + Send + Drop, U: Directory + Send + Drop>(
        &self,
        ways: Vec<D>,
        gates: Vec<(usize, U)>,
        sessions: usize,
        config: &Config<'_>,
    ) -> Result<(), ServerError> {
        self.shared_parts.needed_threads.begin();
        let teller = SessionReporter {
            rt: self.rt,
            alloc: self.alloc,
            needed_threads: &self.shared_parts.needed_threads,
            sessions: &self.shared_parts.sessions,
            engine: self.engine,
            reporter: &self.shared_parts.reporter,
            counters: &self.shared_parts.counters,
            addresses: self.shared_parts.addresses.as_ref(),
        };
        let sessions = self.room(sessions);
        self.shared_parts.counters.set_session_limit(sessions);
        let terms = PoolSettings {
            config: *config,
            sessions,
            seats: ways.len(),
            leaves: self.shared_parts.leaves.as_slice(),
            budget: &self.shared_parts.budget,
        };
        self.shared_parts.counters.set_read_threads(ways.len());
        let door = &self.shared_parts.client_door;
        let Ok(pool) = SessionPool::new(self.rt, self.alloc, door, &teller, terms) else {
            return Err(ServerError::NoMemory);
        };
        if !self.wait_for_state() {
            return Ok(());
        }
        let listener = self.open_door()?;
        // Who stopped the server before it was known where clients are heard has woken nobody.
        if !door.is_closed() {
            self.shared_parts.needed_threads.open();
            let ways = self.logged_ways(ways)?;
            let gates = self.logged_gates(gates)?;
            serve_sessions(&pool, &listener, ways, gates)?;
        }
        Ok(())
    }

    /// Whatever ended badly ends the server.
    fn end_with<F>(&self, ended: Result<(), F>) -> Result<(), F> {
        if ended.is_err() {
            self.engine.stop();
        }
        ended
    }

    /// Lets nobody in at this door any more, and wakes who waits for a connection at this address.
    fn shut(&self, door: &Door, address: Option<SocketAddr>) {
        match address {
            Some(address) => close(self.rt, door, address),
            None => door.shut(),
        }
    }

    /// Ends all threads.
    fn stop(&self) {
        self.engine.stop();
        for outbox in &self.shared_parts.boxes {
            outbox.stop(self.rt);
        }
        self.shared_parts.client_door.shut();
        let heard_at = *self.shared_parts.heard_at.lock(self.rt);
        self.shut(&self.shared_parts.client_door, heard_at);
        let peers = self.shared_parts.peers.local_addr().ok();
        self.shut(&self.shared_parts.peer_door, peers);
        if let Some(monitors) = &self.shared_parts.monitors {
            self.shut(&self.shared_parts.monitor_door, monitors.local_addr().ok());
        }
    }

    /// Drives the node, until it is stopped.
    fn drive(&self) -> Result<(), ServerError> {
        self.shared_parts.needed_threads.begin();
        self.end_with(self.engine.drive())
    }

    /// Drives the node and runs its clock, until that ends; then all threads end. Why the node stopped is told before
    /// that its clock did.
    fn drive_and_tick(&self) -> Result<(), ServerError> {
        let (driven, ticked) = thread::join(
            self.rt,
            || self.drive(),
            || {
                let ticked = self.engine.run();
                self.stop();
                ticked
            },
        );
        driven?;
        ticked
    }

    /// Serves clients, and runs the node in the thread that calls, until that ends; then all threads end.
    fn serve_and_tick<D: Directory + Send + Drop, U: Directory + Send + Drop>(
        &self,
        ways: Vec<D>,
        gates: Vec<(usize, U)>,
        sessions: usize,
        config: &Config<'_>,
    ) -> Result<(), ServerError> {
        let (served, ticked) = thread::join(
            self.rt,
            ||
                requires { IsSync R.row × IsSync E.row × IsSend D.row × IsSend U.row }
            { self.end_with(self.serve_clients(ways, gates, sessions, config)) },
            || self.drive_and_tick(),
        );
        ticked?;
        served?;
        Ok(())
    }

    /// All threads but the one that writes what is said and the one that answers monitors.
    fn run_all<D: Directory + Send + Drop, U: Directory + Send + Drop>(
        &self,
        ways: Vec<D>,
        gates: Vec<(usize, U)>,
        sessions: usize,
        config: &Config<'_>,
    ) -> Result<(), ServerError> {
        let (linked, served) = thread::join(
            self.rt,
            || self.end_with(self.link()),
            ||
                requires { IsSync R.row × IsSync E.row × IsSend D.row × IsSend U.row }
            { self.serve_and_tick(ways, gates, sessions, config) },
        );
        served?;
        linked?;
        Ok(())
    }

    /// Answers monitors, where they are, until the server closes.
    fn serve_monitors(&self) {
        if let Some(listener) = &self.shared_parts.monitors {
            self.shared_parts.needed_threads.begin();
            let pages = ServerPages {
                rt: self.rt,
                alloc: self.alloc,
                shared_parts: self.shared_parts,
                engine: self.engine,
            };
            let monitoring = Monitoring {
                rt: self.rt,
                alloc: self.alloc,
                source: &pages,
            };
            monitoring.serve_all(listener);
        }
    }

    /// All threads but the one that writes what is said.
    fn run_beside_monitors<D: Directory + Send + Drop, U: Directory + Send + Drop>(
        &self,
        ways: Vec<D>,
        gates: Vec<(usize, U)>,
        sessions: usize,
        config: &Config<'_>,
    ) -> Result<(), ServerError> {
        let ((), ended) = thread::join(
            self.rt,
            || self.serve_monitors(),
            ||
                requires { IsSync R.row × IsSync E.row × IsSend D.row × IsSend U.row }
            { self.run_all(ways, gates, sessions, config) },
        );
        ended
    }

    /// Writes what is said on standard error, until nothing more will be.
    fn write_what_is_said(&self) {
        self.shared_parts.needed_threads.begin();
        let mut error = StandardError { rt: self.rt };
        self.shared_parts.reporter.write_all(self.rt, &mut error);
    }

    /// All threads, to the end of the last: clients, replicas, and the node's clock, in the thread that calls. What was
    /// said by then is written before it ends.
    pub fn run<D: Directory + Send + Drop, U: Directory + Send + Drop>(
        &self,
        ways: Vec<D>,
        gates: Vec<(usize, U)>,
        sessions: usize,
        config: &Config<'_>,
    ) -> Result<(), ServerError> {
        let ((), ended) = thread::join(
            self.rt,
            || self.write_what_is_said(),
            ||
                requires { IsSync R.row × IsSync E.row × IsSend D.row × IsSend U.row }
            {
                let ended = self.run_beside_monitors(ways, gates, sessions, config);
                if let Err(fault) = &ended {
                    tell_fault(self.rt, self.alloc, &self.shared_parts.reporter, fault);
                }
                self.shared_parts.reporter.stop(self.rt);
                ended
            },
        );
        ended
    }
}
