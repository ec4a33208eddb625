//! The pages that a server's monitors are shown.
use crate::engine::Monitored;
use crate::shared_parts::SharedParts;
use server_monitor::{
    Counts, Method, Others, Page, PageSource, ProcessCounts, descriptor_limit, page,
};
use std::alloc::{AllocError, Global};
use std::sync::Wait;

/// What the pages of a server are made of.
#[derive(Drop)]
pub struct ServerPages<'a, R, E> {
    pub rt: &'a R,
    pub alloc: Global,
    pub shared_parts: &'a SharedParts,
    pub engine: &'a E,
}

impl<'a, R: Wait, E: Monitored> ServerPages<'a, R, E> {
    /// What the system tells of the process, and what the replica keeps.
    fn process(&self) -> ProcessCounts {
        let shared_parts: &SharedParts = self.shared_parts;
        ProcessCounts {
            memory: shared_parts.process_files.memory(),
            processors: shared_parts.process_files.processors(),
            descriptors: self.engine.descriptors(),
            descriptor_limit: descriptor_limit(),
            began: shared_parts.process_files.began,
            journal: shared_parts.counters.journal(),
            dropped_lines: shared_parts.reporter.dropped(self.rt),
        }
    }

    /// What the replica counts.
    fn counts(&self) -> Result<Counts, AllocError> {
        let shared_parts: &SharedParts = self.shared_parts;
        let own = usize::from(shared_parts.sender);
        let connected = shared_parts.links.connected(self.rt, self.alloc, own)?;
        shared_parts.counters.counts(
            self.alloc,
            connected,
            Others {
                own,
                update_threads: shared_parts.leaves.len(),
                process: self.process(),
                budget: &shared_parts.budget,
            },
        )
    }
}

impl<'a, R: Wait, E: Monitored> PageSource for ServerPages<'a, R, E> {
    fn page(&self, method: Method, asked: Page) -> Result<String, AllocError> {
        let counts = self.counts()?;
        page(
            self.alloc,
            method,
            asked,
            self.shared_parts.version.as_str(),
            &self.engine.figures(),
            &counts,
        )
    }

    fn is_closed(&self) -> bool {
        self.shared_parts.monitor_door.is_closed()
    }
}
