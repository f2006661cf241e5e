//! Journeys of passengers in a timetable: from a stop to a stop after a time, with few changes or early.
//!
//! It stands on dm_times for timetables, and on dm_network and dm_graph for an order of the activities. Its `specs/` say
//! which activities a passenger can use, and what a walk along them is.
//!
//! # What is promised
//!
//! [`journeys`] tells how a passenger travels from one stop to another from a time on, in the rows' least timetable. A walk
//! begins with a departure at that time or later. It uses drives, waits and changes that are caught, none of them with a
//! cancelled end, and has at most a given number of changes, which is 8 or less. Each journey is such a walk, with its arrival
//! and its changes. Along the list the changes rise and the arrivals fall. For every such walk the list has a journey with no
//! more changes and no later arrival. So no such walk is better than a listed one both in changes and in arrival. The list is
//! empty exactly where there is no walk.
#![tactic(auto)]

mod arriving;
mod reaching;
mod riding;
mod tracing;

pub use arriving::{Journey, journeys};
