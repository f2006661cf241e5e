//! The sweep that computes times along an order of events, over the constraints that it is given.
//!
//! It stands on dm_network, on dm_marks, and on dm_graph for the search for an order. It does not know why an activity is held.
//!
//! [`Constraints`] say which activities of a network are held, with the floor of each event and the span of each activity.
//! Together they are a graph. A [`Sweep`] is what a sweep reads: a network, constraints, and an order of the events.
//!
//! A sweep computes the marked events anew, in the order. It goes on along the held activities out of every event whose time has
//! changed, so it serves raises and falls alike. It does not go to a head that is later than the activity asks for, with the
//! event's time before and with its time after: the event does not move such a head. [`Sweep::settle_watched`] sweeps from the
//! marked events, and reads the rows of few events. With every event marked the sweep is the computation from scratch
//! ([`least_times`]).
//!
//! # What is promised
//!
//! `least_times` gives the least timetable of the constraints that it is given. Exactly where the held activities have a cycle,
//! it shows one instead, unless memory is short first. `ids_of` gives the ids of the activities at given places.
//!
//! `settle_watched` gives the least timetable of the constraints as they are now, from marked events alone and without memory. It
//! asks that each event that is not marked has its time already, and that the order suits (`MayBegin`). It leaves no mark. A
//! clause bounds the rows of arcs that it reads. It tells two [`Watcher`]s of each time that the sweep writes, before it is
//! written, with the event's two rows. The call ensures that a watcher that knew the old times knows the new ones.
//!
//! Every time is below 2^38 seconds. The other calls of [`Constraints`] and [`Times`] read and change exactly what they name.
//!
//! Laws, in [`laws`]: in a least timetable each event has the least time that the graph allows beside the others. Where floors
//! and spans are within the limits and there is no cycle, each time of it is below 2^38 seconds.
#![tactic(auto)]

mod constraints;
mod faults;
pub mod laws;
mod moving;
mod scratch;
mod sweep;
mod time;
mod times;
mod watching;

pub use constraints::Constraints;
pub use faults::NoTimes;
pub use moving::Move;
pub use scratch::{ids_of, least_times};
pub use sweep::Sweep;
pub use times::Times;
pub use watching::{Unwatched, Watcher};
