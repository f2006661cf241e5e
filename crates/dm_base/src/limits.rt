//! The largest sizes and numbers that the dispatcher takes. With them every time is below 2^38 seconds, and every
//! cost below 2^100 thousandths of passenger seconds.

use crate::ids::{Milli, Secs};

/// Events of a network.
pub const EVENTS: usize = 100_000;

/// Activities of a network.
pub const ACTIVITIES: usize = 500_000;

/// The largest scheduled time, in seconds.
pub const TIME: Secs = 1_000_000_000;

/// The largest time at which an event passes, in seconds.
pub const PASSED_TIME: Secs = 2_000_000_000;

/// The largest lower bound of an activity, in seconds.
pub const BOUND: Secs = 1_000_000;

/// The largest source delay of an event or an activity, in seconds.
pub const DELAY: Secs = 1_000_000;

/// The largest weight of an event or an activity, in thousandths of passengers.
pub const WEIGHT: Milli = 1_000_000_000;

/// The largest penalty of a missed change, in seconds for each passenger.
pub const PENALTY: u64 = 1_000_000;

/// Feeds of a run.
pub const FEEDS: usize = 64;

/// Boards of a run.
pub const BOARDS: usize = 64;

/// Threads that search for one plan.
pub const WORKERS: u32 = 16;

/// Entries of a history.
pub const ENTRIES: u32 = 1_000_000;

/// Nodes of one plan's search tree.
pub const BUDGET: u64 = 16_384;

/// Plans of one feed.
pub const PLANS: usize = 16;

/// Bytes of a feed's line, without its line end.
pub const LINE: usize = 1_024;

/// Bytes of a network file.
pub const FILE: usize = 67_108_864;

/// Bytes of a feed.
pub const FEED: usize = 262_144;

/// Bytes of a run's text that is checked.
pub const TEXT: usize = 536_870_912;
