//! What choices are searched for.

use dm_network::Network;
use dm_rows::{Decision, Rows};
use std::alloc::Global;

/// The rows of a network for which choices are searched, and the decisions with which every path begins.
#[derive(Clone, Copy)]
pub struct Task<'t> {
    /// What the search takes its memory from.
    pub alloc: Global,

    pub net: &'t Network,
    pub rows: &'t Rows,

    /// In seconds for each passenger, at most 1,000,000.
    pub penalty: u64,

    /// Decisions of free choices, none twice, as the rows have them. All other free choices may be made.
    pub base: &'t [Decision],

    /// How many nodes a tree may have, at most 16,384.
    pub budget: u64,
}
