//! Shares of a cost's terms.

use dm_base::{ActId, EventId, Items};

/// Some of the terms of a cost: what these arrivals cost for being late, and what these changes cost where they are missed.
#[derive(Drop)]
pub struct Share {
    /// Arrivals, by ascending id.
    pub arrivals: Items<EventId>,

    /// Changes, by ascending id.
    pub changes: Items<ActId>,
}
