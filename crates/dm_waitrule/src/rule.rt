//! Waiting rules.

/// How long the departures of trains wait for passengers who change.
#[derive(Clone, Copy)]
pub enum WaitRule {
    /// None is later than it would be without the change.
    Never,

    /// Each waits as long as it takes.
    Always,

    /// Each is at most so many seconds later than it would be without the change.
    AtMost(u64),
}
