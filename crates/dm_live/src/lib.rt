//! The least timetable of a network, kept while what its events are held to changes.
//!
//! It stands on dm_settle, whose sweep computes times, and on dm_order, whose order the sweep follows. It does not know why an
//! activity is held, or why an event has its floor.
//!
//! A [`LiveTimetable`] has constraints, an order of the activities that they hold, the times of the events, and marks. A move
//! changes a floor or a span, holds an activity or lets it go. It marks at most one event, the one whose time it may change
//! directly, and reads no row. After any number of moves [`LiveTimetable::settle_watched`] computes the marked events anew, and
//! goes on from those whose times change. [`LiveTimetable::fix`] gives an event its time at once, as one that passes. What is
//! held out of the event needs no place in the order until [`LiveTimetable::free`] lets its time move again.
//!
//! # What is promised
//!
//! `new` marks every event. It is refused exactly where the held activities have a cycle, unless memory is short first.
//!
//! After any moves `settle_watched` leaves exactly the least timetable of what is held. It tells two watchers of each time that
//! changes. It reads at most one in-row for each event that was marked or follows one whose time changed, and at most one out-row
//! for each event whose time changed.
//!
//! `hold` is refused exactly where the activity would make a cycle with those held. Then nothing has changed but the cycle that
//! `last_cycle` shows. `set_floor` and `set_span` set exactly that floor or span, and `release` lets exactly that activity go.
//! `fix` gives a time to an event that nothing held enters. The activities out of the event leave the order until `free` brings
//! them back. The readers answer exactly.
//!
//! No call but `new` takes memory. A timetable keeps no cost.
//!
//! Laws, in [`laws`]: the activities that a live timetable holds have no cycle, and where no event is marked its times are the
//! least.
#![tactic(auto)]

mod aligning;
pub mod laws;
mod marking;
mod placing;
mod taking;
mod timetable;

pub use timetable::LiveTimetable;
