//! An event that gets another time.

use crate::constraints::Constraints;
use crate::times::Times;
use dm_base::Secs;

/// An event of a network that is to have another time, with what it is held to and the times before.
#[derive(Clone, Copy)]
pub struct Move<'m> {
    pub constraints: &'m Constraints,

    /// The times before.
    pub times: &'m Times,

    /// The place of the event.
    pub event: usize,

    /// Its time from then on, in seconds.
    pub time: Secs,

    /// The places of the activities into it and out of it.
    pub into: &'m [usize],
    pub out_of: &'m [usize],
}
