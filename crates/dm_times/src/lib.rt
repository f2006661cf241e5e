//! Times and costs from scratch, over every row and every choice.
//!
//! It stands on dm_settle for the sweep that computes times, and on dm_rows for what rows, timetables and costs are. Every time
//! is below 2^38 seconds, and every cost below 2^100 thousandths of passenger seconds.
//!
//! # What is promised
//!
//! [`least`] gives the rows' least timetable, or a cycle of them by ids, exactly where there is one, unless memory is short.
//! [`least_holding`] gives the same of activities that the caller chooses, of which none enters a passed event, from their
//! constraints ([`constraints_holding`]). [`Holding`] and [`Charging`] say what the caller chooses; [`AsRowsSay`] is what the
//! rows say by themselves.
//!
//! [`cost`] gives exactly the cost of the rows' least timetable, below 2^100, without memory. `cost_charging` gives exactly the
//! cost of any times with a charge for activities that the caller chooses. [`comes_too_early`] tells whether the head of an
//! activity comes before its tail and its span allow.
//!
//! Laws: rows that are reached by messages or by decisions on free choices, or are relaxed by a path, can be met exactly where
//! they have no cycle. The start rows have none, whichever events are cancelled. A delay, a pass, a drop, a clock, a cancelled event
//! and a lock never make a cycle. In the least timetable of rows within the limits every time is below 2^38 seconds.
#![tactic(auto)]

mod costing;
mod filling;
mod holding;
pub mod laws;
mod scratch;

pub use costing::{comes_too_early, cost, cost_charging};
pub use dm_settle::{NoTimes, Times};
pub use filling::constraints_holding;
pub use holding::{AsRowsSay, Charging, Holding};
pub use scratch::{least, least_holding};
