//! Feeds that go on after the last line that was answered.
//!
//! It stands on dm_tail for a feed that grows and its log, on dm_feed for lines, on dm_cert for the items that answer them, and
//! on dm_desk for what a log is true of.
//!
//! A server that starts anew has the log of each feed from its journal, and reads the feed itself again from its first byte. It
//! hears each line of the feed again and compares it with the item that answers it. So nothing is answered twice.
//!
//! # What is promised
//!
//! [`catch_up`] takes a feed with its log. Nothing was read of the feed before.
//!
//! - At Ok, the feed is ready for a round. The log and the number of its items that were shown are as before. Where the log is in
//!   order and can be spelled, the feed goes on over every desk that the log is true of: whole lines were passed, the due ones
//!   among them are those that the log answers, each once and in order, and what follows them is pending.
//! - `OutOfMemory`: want of memory.
//! - `Fault`: a read failed, and the feed's count of faults has risen.
//! - `Changed(line)`: all earlier due lines are as they were answered. Either the next due line differs from the next item's, and
//!   `line` is the smaller of the two numbers. Or no further line ends, and `line` is the next item's.
//!
//! A feed's count of faults never falls, and it stays the feed that it was (`source`).
#![tactic(auto)]

mod catching;
mod matching;

pub use catching::{CatchUpStop, catch_up};
