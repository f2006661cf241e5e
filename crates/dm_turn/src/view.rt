//! What the passes of a turn know.

use dm_rows::Entry;
use std::collections::LinkedList;

/// Where a pass stands in the queue. No value of it is made.
pub enum Phase {
    Idle,
    Waiting(u64),
    Served(u64),
}

/// An entry and its number in the history, from 1. No value of it is made: contracts see the own entries of a pass so.
pub struct Numbered {
    pub number: u64,
    pub entry: Entry,
}

/// What a pass knows. No value of it is made.
pub struct View<B> {
    pub base: Option<B>,
    /// The number of entries with which the turn was made.
    pub opening: u64,
    pub seats: u64,
    pub room: u64,
    pub seen: LinkedList<Entry>,
    /// A second history that was seen, between two steps of a join.
    pub told: LinkedList<Entry>,
    pub mine: LinkedList<Numbered>,
    pub phase: Phase,
}
