//! What the hands of a word know.

use std::collections::LinkedList;

/// What a hand knows. No value of it is made.
pub struct View {
    pub start: u64,
    pub seats: u64,
    pub room: u64,
    pub lowered: LinkedList<u64>,
    pub looked: u64,
}
