//! Points of a run at which a test may hold it up.

/// A gate that the threads of a run pass. It tells nothing and counts nothing.
pub trait Gate: Sync {
    /// Passes the gate at a point. Point 1 is passed by a feed before it handles a line and point 2
    /// after the line's reply is kept, each with the feed's number. Point 3 is passed by a search
    /// worker when it starts, point 4 when it ends and point 5 before each node that it expands,
    /// each with the worker's number from 1.
    fn pass(&self, who: u32, point: u32);
}

/// A gate that holds nobody up.
#[derive(Clone, Copy, Debug, PartialEq, Eq)]
pub struct OpenGate;

impl Gate for OpenGate {
    fn pass(&self, _who: u32, _point: u32) {}
}
