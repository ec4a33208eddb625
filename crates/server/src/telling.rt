//! What a server says of its node, a line an event.
use node_gate::{Pulse, Standing};
use server_threads::Reporter;
use std::alloc::Global;
use std::sync::Wait;

/// A view that is entered, or another standing in it.
pub fn tell_pulse<R: Wait>(rt: &R, alloc: Global, reporter: &Reporter, pulse: &Pulse) {
    let view = pulse.view_number;
    let line = match pulse.standing {
        Standing::Primary => format!(in alloc; "view {view}: primary"),
        Standing::Backup { primary } => format!(in alloc; "view {view}: backup of {primary}"),
        Standing::Changing => format!(in alloc; "view {view}: beginning"),
        Standing::Recovering => format!(in alloc; "view {view}: recovering"),
    };
    reporter.say(rt, line);
}

/// A step of the node that lasts for long: nothing says which call it waits in.
pub fn tell_stuck<R: Wait>(rt: &R, alloc: Global, reporter: &Reporter) {
    reporter.say(
        rt,
        format!(in alloc;
            "stuck: a step of the node has lasted for longer than --suspect; it takes no update until it ends (does the disk of --store and --journal answer?)"
        ),
    );
}

/// A step that has lasted for so long that the replica says no more that it is there.
pub fn tell_hung<R: Wait>(rt: &R, alloc: Global, reporter: &Reporter) {
    reporter.say(
        rt,
        format!(in alloc;
            "stuck for longer than three times --suspect: the others go on without this replica; end it and start it again"
        ),
    );
}

/// A step that lasted for long has ended.
pub fn tell_unstuck<R: Wait>(rt: &R, alloc: Global, reporter: &Reporter) {
    reporter.say(rt, format!(in alloc; "no longer stuck"));
}

/// A primary that hears from no majority.
pub fn tell_no_majority<R: Wait>(rt: &R, alloc: Global, reporter: &Reporter) {
    reporter.say(
        rt,
        format!(in alloc; "no majority answers: updates are refused until one does"),
    );
}

/// A primary that hears from a majority again.
pub fn tell_majority<R: Wait>(rt: &R, alloc: Global, reporter: &Reporter) {
    reporter.say(rt, format!(in alloc; "a majority answers again"));
}

/// A replica that goes on from its journal, with so many records.
pub fn tell_resumed<R: Wait>(
    rt: &R,
    alloc: Global,
    reporter: &Reporter,
    records: u64,
    view_number: u64,
) {
    reporter.say(
        rt,
        format!(in alloc; "journal: {records} records, resuming in view {view_number}"),
    );
}

/// A replica that has committed as much as its journal told, so that clients are heard.
pub fn tell_caught_up<R: Wait>(rt: &R, alloc: Global, reporter: &Reporter) {
    reporter.say(rt, format!(in alloc; "caught up"));
}
