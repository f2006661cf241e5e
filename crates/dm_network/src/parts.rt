//! What a network is made of, and why lists of records make none.

use dm_base::{ActId, ActKind, EventId, EventKind, Items, Milli, Secs, StopId};
use std::alloc::AllocError;

/// An arrival or a departure of a train.
#[derive(Clone, Copy)]
pub struct Event {
    pub id: EventId,
    pub kind: EventKind,

    /// The scheduled time, in seconds.
    pub time: Secs,

    /// Thousandths of passengers.
    pub weight: Milli,
    pub stop: StopId,
}

/// What joins two events. The tail and the head are places of events.
#[derive(Clone, Copy)]
pub struct Activity {
    pub id: ActId,
    pub kind: ActKind,
    pub tail: usize,
    pub head: usize,

    /// The least time from the tail to the head, in seconds.
    pub lower: Secs,

    /// Thousandths of passengers.
    pub weight: Milli,

    /// The place of the pair that a headway belongs to, or `None` for every other activity.
    pub pair: Option<usize>,
}

/// Two events with headways in both directions, by place. The one with the smaller id comes first.
#[derive(Clone, Copy, PartialEq, Eq)]
pub struct Pair {
    pub small: usize,
    pub large: usize,
}

/// Why records make no network, in the order in which the faults are looked for.
#[derive(PartialEq, Eq, Debug, Drop)]
pub enum NetFault {
    /// There are more than 100,000 events or more than 500,000 activities.
    TooMany,

    /// The least id that stands twice among the events.
    DoubleEvent(EventId),

    /// The least id that stands twice among the activities.
    DoubleActivity(ActId),

    /// The first activity of the file whose tail or head is no event.
    UnknownEvent(ActId),

    /// The first headway of the file whose lower bound is 0.
    ZeroHeadway(ActId),

    /// Activities that bind at the start and form a cycle, each head the next tail.
    Cycle(Items<ActId>),

    /// There is not enough memory.
    OutOfMemory,
}

impl From<AllocError> for NetFault {
    ghost use Rattle.std.specs.Prelude.{◌≡◌};
    ghost use Rattle.dm_network.specs.declared.parts.NetFault.TheVariants.{OutOfMemory};

    ghost from_gives = { λ _ fault. fault ≡ OutOfMemory };

    fn from(_error: AllocError) -> NetFault {
        NetFault::OutOfMemory
    }
}
