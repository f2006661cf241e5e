//! Items of logs in memory: their text, and that a journal can keep them.
//!
//! It stands on dm_report, which prints the items of logs and reads their numbers, on dm_records for which lists memory
//! holds, and on dm_outside for sinks and pages.
//!
//! # What is promised
//!
//! A [`Gathered`] sink has taken just the bytes that it was given: it is a `Sink` that tells them. It fails only where there
//! is no memory. [`items_text`] gives exactly the items as they stand in a reply file. [`items_are_held`] only reads items.
//! It tells a proof what holds of all items in memory: their numbers are ones that types hold, and their lists ones that
//! memory holds.
#![tactic(auto)]

mod gathering;
mod holding;

pub use gathering::{Gathered, items_text};
pub use holding::items_are_held;
