//! Railway networks: events, activities, and the pairs of events that headways join in both directions.
//!
//! It stands on dm_base for ids, kinds and limits, and on dm_graph for cycles. Its `specs/` say what a network is.
//!
//! # What is promised
//!
//! [`Network::build`] makes a network of the records of two files, or says exactly why there is none. `built`: the network is
//! made of exactly the records, and is within the limits. `refused`: the fault is the first in the order of the faults, want of
//! memory aside.
//!
//! The readers of a network answer exactly and take no memory. `in_row` lists exactly the activities with that head, and
//! `out_row` those with that tail; each counts one step. `reveal` tells what holds of every network, and that the ids of its
//! events are below 2^32.
//!
//! [`least_double`] tells exactly which number of a list is the least that stands twice.
//!
//! `Network::search` finds an order of all events in which the held activities go forward, or a cycle of held activities. It
//! works over the network's own arrays and takes no memory.
#![tactic(auto)]

mod arrays;
mod build;
mod find;
mod flat;
mod forming;
mod network;
mod pairing;
mod parts;
mod records;

pub use network::Network;
pub use parts::{Activity, Event, NetFault, Pair};
pub use records::least_double;
