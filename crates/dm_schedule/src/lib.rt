//! The events of a network by their scheduled times.
//!
//! It stands on dm_network, and computes no times. A clock that goes on can move only events that are scheduled before it. These
//! stand in front, so whoever keeps times at a clock need not look at the others.
//!
//! # What is promised
//!
//! `schedule_of` gives the events of a network with their scheduled times, in an order in which these times never fall.
//! `scheduled_before` gives a front of this list. Behind that front nothing is scheduled before the clock. No clause says that
//! the front holds no other events.
#![tactic(auto)]

mod schedule;

pub use schedule::{Scheduled, schedule_of, scheduled_before};
