//! Reads the words behind `--log`: which lines a server logs.

/// What is logged beside what is always told.
#[derive(Clone, Copy)]
pub struct Logs {
    /// Whether each session's begin and end are.
    pub connections: bool,
    /// Whether each update is.
    pub updates: bool,
}

/// What these texts name together, each of which is words with a comma between them; none, where one of them names
/// nothing that can be logged.
pub fn logs_of(texts: &[&str]) -> Option<Logs> {
    let mut logs = Logs {
        connections: false,
        updates: false,
    };
    for words in texts {
        for word in words.split(',') {
            match word {
                "connections" => logs.connections = true,
                "updates" => logs.updates = true,
                _ => return None,
            }
        }
    }
    Some(logs)
}
