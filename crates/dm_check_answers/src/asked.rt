//! The line that is answered, with what stands before the answer.

use crate::past::Past;
use dm_feed::Line;

/// A line of a feed that is answered: what it says, its number, and what stands before the answer in the feed's log.
#[derive(Clone, Copy)]
pub struct Asked<'a> {
    pub past: &'a Past,
    pub feed: u32,
    pub line: u32,
    pub said: &'a Line,
}
