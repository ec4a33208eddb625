//! The threads of a pool. Directories come in, one a thread; sessions are served until the door is closed.
use crate::pool::SessionPool;
use crate::tells::SessionObserver;
use client_link::Directory;
use std::alloc::AllocError;
use std::net::TcpListener;
use std::sync::Wait;
use std::thread;
use std::thread::Threads;
use std::time::Clock;

/// Serves sessions that are ready, in a thread for each directory.
fn sit_all<R, T, D>(pool: &SessionPool<'_, R, T>, seats: Vec<D>) -> Result<(), AllocError>
where
    R: Wait + Clock + Threads + Sync,
    T: SessionObserver + Sync,
    D: Directory + Send + Drop,
{
    pool.teller.begins();
    let sits = |directory: D| -> D { pool.sit(directory) };
    let _seats = thread::map_vec(pool.rt, seats, &sits)?;
    Ok(())
}

/// Serves updates, in a thread for each directory.
fn update_all<R, T, D>(
    pool: &SessionPool<'_, R, T>,
    updates: Vec<(usize, D)>,
) -> Result<(), AllocError>
where
    R: Wait + Clock + Threads + Sync,
    T: SessionObserver + Sync,
    D: Directory + Send + Drop,
{
    pool.teller.begins();
    let works = |way: (usize, D)| -> D {
        let (thread, directory) = way;
        pool.update(thread, directory)
    };
    let _updates = thread::map_vec(pool.rt, updates, &works)?;
    Ok(())
}

/// Reads and updates, side by side.
fn serve_all<R, T, D, U>(
    pool: &SessionPool<'_, R, T>,
    seats: Vec<D>,
    updates: Vec<(usize, U)>,
) -> Result<(), AllocError>
where
    R: Wait + Clock + Threads + Sync,
    T: SessionObserver + Sync,
    D: Directory + Send + Drop,
    U: Directory + Send + Drop,
{
    let (sat, updated) = thread::join(
        pool.rt,
        || sit_all(pool, seats),
        || update_all(pool, updates),
    );
    sat?;
    updated
}

/// Serves the clients of a listener, until the door is closed: a thread for each directory of the first list, which
/// reads, and one for each of the second, which updates and is told the thread's index. Want of memory is the only
/// error.
pub fn serve_sessions<R, T, D, U>(
    pool: &SessionPool<'_, R, T>,
    listener: &TcpListener,
    seats: Vec<D>,
    updates: Vec<(usize, U)>,
) -> Result<(), AllocError>
where
    R: Wait + Clock + Threads + Sync,
    T: SessionObserver + Sync,
    D: Directory + Send + Drop,
    U: Directory + Send + Drop,
{
    let ((), served) = thread::join(
        pool.rt,
        || pool.take_all(listener),
        || serve_all(pool, seats, updates),
    );
    served
}
