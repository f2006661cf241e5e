//! The records of the network and delay files.

use crate::ids::{ActId, EventId, Milli, Secs, StopId};

/// Whether a train leaves or arrives.
#[derive(Clone, Copy, PartialEq, Eq, Debug)]
pub enum EventKind {
    Departure,
    Arrival,
}

/// What an activity stands for.
#[derive(Clone, Copy, PartialEq, Eq, Debug)]
pub enum ActKind {
    Drive,
    Wait,
    Turnaround,
    Change,
    Headway,
}

/// A record of an event file.
#[derive(Clone, Copy, PartialEq, Eq, Debug)]
pub struct EventRow {
    pub id: EventId,
    pub kind: EventKind,

    /// The scheduled time, in seconds.
    pub time: Secs,

    /// Thousandths of passengers.
    pub weight: Milli,
    pub stop: StopId,
}

/// A record of an activity file.
#[derive(Clone, Copy, PartialEq, Eq, Debug)]
pub struct ActRow {
    pub id: ActId,
    pub kind: ActKind,
    pub tail: EventId,
    pub head: EventId,

    /// The least time from the tail to the head, in seconds.
    pub lower: Secs,

    /// Thousandths of passengers.
    pub weight: Milli,
}

/// A record of a delay file, of an event or of an activity.
#[derive(Clone, Copy, PartialEq, Eq, Debug)]
pub struct DelayRow {
    pub id: u32,

    /// The source delay, in seconds.
    pub delay: Secs,
}
