//! What a replica does and counts, as metrics in the text form that Prometheus reads.
ghost use Rattle.std.specs.Prelude.{◌≡◌, ◌++◌, OnOk, string_bytes};
ghost use Rattle.status_page.specs.Metrics.{answers_text, clients_text, counts_text, others_text, process_text};
ghost use Rattle.status_page.specs.Metrics.{threads_text, times_text, traffic_text};
ghost use Rattle.status_page.specs.Pages.{metrics_text, quorum, replica_text, sizes_text, state_text};

use crate::figures::{
    ClientCounts, Counts, Figures, Histograms, PeerCounts, ProcessCounts, Trouble,
};
use crate::samples::{Samples, counter, gauge, histogram, push_metrics};
use std::alloc::AllocError;

/// Whether the replica is in touch with a majority, as a number.
fn quorum(trouble: Trouble) -> u64
    ensures { result ≡ quorum trouble }
{
    match trouble {
        Trouble::None | Trouble::Stuck | Trouble::Hung => 1,
        Trouble::NoMajority => 0,
    }
}

/// Adds how the program was built, what the replica does, and how much it keeps.
fn push_figures(text: &mut String, version: &str, figures: &Figures) -> Result<(), AllocError>
    ensures { OnOk result (string_bytes text.new ≡ string_bytes text.old ++ (state_text version.now figures.now
        ++ replica_text figures.now ++ sizes_text figures.now)) }
{
    let build = figures.build;
    push_metrics(
        text,
        &[
            gauge(
                "dird_build_info",
                "The program's version, and whether its proofs were checked.",
                Samples::Build { version, build },
            ),
            gauge(
                "dird_quorum",
                "0 where the replica is the primary and hears from no majority, else 1.",
                Samples::Number(quorum(figures.trouble)),
            ),
            gauge(
                "dird_role",
                "What the replica does: 1 for its role, 0 for the others.",
                Samples::Roles(figures.role),
            ),
            gauge(
                "dird_view",
                "The number of the replica's view.",
                Samples::Number(figures.view_number),
            ),
            gauge(
                "dird_last_update",
                "The number of the last update that the replica has made.",
                Samples::Number(figures.last_update),
            ),
            gauge(
                "dird_sessions",
                "How many clients are connected.",
                Samples::Number(figures.sessions),
            ),
            gauge(
                "dird_entries",
                "How many entries the directory has.",
                Samples::Number(figures.entries),
            ),
            gauge(
                "dird_log_entries",
                "How many entries the log has, committed or not.",
                Samples::Number(figures.log_length),
            ),
        ],
    )
}

/// Adds what was answered since the start.
fn push_answers(text: &mut String, counts: &Counts) -> Result<(), AllocError>
    ensures { OnOk result (string_bytes text.new ≡ string_bytes text.old ++ answers_text counts.now) }
{
    push_metrics(
        text,
        &[
            counter(
                "dird_searches_total",
                "Searches that were answered, by result code.",
                Samples::ByCode(&counts.searches),
            ),
            counter(
                "dird_compares_total",
                "Compares that were answered, by result code.",
                Samples::ByCode(&counts.compares),
            ),
            counter(
                "dird_updates_total",
                "Updates that were asked of this replica and answered, by result code; 10 is a referral.",
                Samples::ByCode(&counts.updates),
            ),
            counter(
                "dird_binds_total",
                "Binds that were answered, by result code; 0 is one that was accepted.",
                Samples::ByCode(&counts.binds),
            ),
            counter(
                "dird_evaluated_entries_total",
                "Entries on which searches evaluated their filters.",
                Samples::Number(counts.evaluated),
            ),
            counter(
                "dird_slow_searches_total",
                "Searches that did so on more entries than --slow.",
                Samples::Number(counts.slow),
            ),
        ],
    )
}

/// Adds what threads do.
fn push_threads(text: &mut String, counts: &Counts) -> Result<(), AllocError>
    ensures { OnOk result (string_bytes text.new ≡ string_bytes text.old ++ threads_text counts.now) }
{
    push_metrics(
        text,
        &[
            gauge(
                "dird_reads_in_flight",
                "How many searches and compares are being answered.",
                Samples::Number(counts.reads),
            ),
            gauge(
                "dird_read_threads",
                "How many threads answer searches and compares.",
                Samples::Number(counts.read_threads),
            ),
            gauge(
                "dird_updates_in_flight",
                "How many updates are being made.",
                Samples::Number(counts.updating),
            ),
            gauge(
                "dird_update_threads",
                "How many threads wait for updates.",
                Samples::Number(counts.update_threads),
            ),
        ],
    )
}

/// Adds what clients take, who was sent away, and what passes between them and the replica.
fn push_clients(text: &mut String, clients: ClientCounts) -> Result<(), AllocError>
    ensures { OnOk result (string_bytes text.new ≡ string_bytes text.old ++ (clients_text clients
        ++ traffic_text clients)) }
{
    push_metrics(
        text,
        &[
            gauge(
                "dird_client_memory_bytes",
                "Octets of memory that the sessions of clients hold.",
                Samples::Number(clients.memory),
            ),
            gauge(
                "dird_client_memory_limit_bytes",
                "Octets of memory that they may hold together.",
                Samples::Number(clients.memory_limit),
            ),
            counter(
                "dird_sessions_ended_for_memory_total",
                "Sessions that were ended since all held more than they may.",
                Samples::Number(clients.ended),
            ),
            gauge(
                "dird_session_limit",
                "How many sessions there may be.",
                Samples::Number(clients.session_limit),
            ),
            counter(
                "dird_sessions_evicted_total",
                "Sessions that were ended, or not begun, since there was no room.",
                Samples::Number(clients.evicted),
            ),
            counter(
                "dird_client_read_bytes_total",
                "Octets that were read of clients.",
                Samples::Number(clients.octets_read),
            ),
            counter(
                "dird_client_written_bytes_total",
                "Octets that were written to clients.",
                Samples::Number(clients.octets_written),
            ),
        ],
    )
}

/// Adds what the replica knows of the others.
fn push_peers(text: &mut String, peers: &PeerCounts) -> Result<(), AllocError>
    ensures { OnOk result (string_bytes text.new ≡ string_bytes text.old ++ others_text peers.now) }
{
    push_metrics(
        text,
        &[
            counter(
                "dird_peer_messages_queued_total",
                "Messages that were queued for another replica.",
                Samples::ByPeer(&peers.queued),
            ),
            counter(
                "dird_peer_messages_sent_total",
                "Messages that were taken from the queue to be sent to it.",
                Samples::ByPeer(&peers.sent),
            ),
            gauge(
                "dird_peer_acknowledged",
                "The last log entry that it has acknowledged to this replica, by its number.",
                Samples::ByPeer(&peers.acknowledged),
            ),
            counter(
                "dird_peer_starts_refused_total",
                "Starts of it that were refused, since their files are older than what it said.",
                Samples::ByPeer(&peers.refused),
            ),
            gauge(
                "dird_peer_connected",
                "1 where it is heard, else 0.",
                Samples::ByPeer(&peers.connected),
            ),
            gauge(
                "dird_peer_last_heard_timestamp_seconds",
                "When it was heard last, in seconds since 1970; 0 for never.",
                Samples::ByPeer(&peers.heard),
            ),
            counter(
                "dird_peer_sent_bytes_total",
                "Octets of messages that were made to be sent to it.",
                Samples::ByPeer(&peers.octets_sent),
            ),
            counter(
                "dird_peer_received_bytes_total",
                "Octets of messages that came from it.",
                Samples::ByPeer(&peers.octets_received),
            ),
        ],
    )
}

/// Adds how long requests took, and batches of events.
fn push_times(text: &mut String, times: &Histograms) -> Result<(), AllocError>
    ensures { OnOk result (string_bytes text.new ≡ string_bytes text.old ++ times_text times.now) }
{
    push_metrics(
        text,
        &[
            histogram(
                "dird_request_seconds",
                "How long requests took, in seconds; an update until it was committed.",
                Samples::Requests(times),
            ),
            histogram(
                "dird_batch_seconds",
                "How long batches of events took with a journal, in seconds: their steps, a write and a sync.",
                Samples::Times(&times.batches),
            ),
        ],
    )
}

/// Adds what the system tells of the process, and what the process keeps.
fn push_process(text: &mut String, process: ProcessCounts) -> Result<(), AllocError>
    ensures { OnOk result (string_bytes text.new ≡ string_bytes text.old ++ process_text process) }
{
    push_metrics(
        text,
        &[
            gauge(
                "process_resident_memory_bytes",
                "Octets of memory that the process has.",
                Samples::Known(process.memory),
            ),
            counter(
                "process_cpu_seconds_total",
                "Seconds of processors that the process took.",
                Samples::Hundredths(process.processors),
            ),
            gauge(
                "process_open_fds",
                "How many descriptors the process has open.",
                Samples::Known(process.descriptors),
            ),
            gauge(
                "process_max_fds",
                "How many descriptors the process may have open.",
                Samples::Known(process.descriptor_limit),
            ),
            gauge(
                "process_start_time_seconds",
                "When the process began, in seconds since 1970.",
                Samples::Number(process.began),
            ),
            gauge(
                "dird_journal_bytes",
                "Octets of the file of the journal.",
                Samples::Known(process.journal),
            ),
            counter(
                "dird_log_lines_dropped_total",
                "Lines that were not written on standard error, since nobody read it.",
                Samples::Number(process.dropped_lines),
            ),
        ],
    )
}

/// Adds all that a replica counts.
fn push_counts(text: &mut String, counts: &Counts) -> Result<(), AllocError>
    ensures { OnOk result (string_bytes text.new ≡ string_bytes text.old ++ counts_text counts.now) }
{
    push_answers(text, counts)?;
    push_threads(text, counts)?;
    push_clients(text, counts.clients)?;
    push_peers(text, &counts.peers)?;
    push_times(text, &counts.times)?;
    push_process(text, counts.process)
}

/// Adds the replica's state and all that it counts.
pub fn push_all(
    text: &mut String,
    version: &str,
    figures: &Figures,
    counts: &Counts,
) -> Result<(), AllocError>
    ensures { OnOk result (string_bytes text.new ≡ string_bytes text.old ++ metrics_text version.now figures.now
        counts.now) }
{
    push_figures(text, version, figures)?;
    push_counts(text, counts)
}
