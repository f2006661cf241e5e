//! How far the lines of a journal were read.

use crate::faults::FollowKind;

/// The line that comes next.
#[derive(Clone, Copy)]
pub enum Stage {
    Version,
    Penalty,
    Feeds,
    Entries { feeds: u32 },

    /// An entry, where there are not yet as many as the header says.
    Journal { feeds: u32, entries: u32 },

    /// None: this line breaks its rule.
    Failed { line: u32, kind: FollowKind },
}
