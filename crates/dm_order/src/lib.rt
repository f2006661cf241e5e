//! The order of all events, kept while activities come and go.
//!
//! It stands on dm_network and dm_rows, and on dm_graph for the search for an order. An [`Order`] is a list of all events of one
//! network and a set of held activities. Each held activity goes forward in the list: its tail stands before its head. The list
//! is moved only where an added activity does not go forward. That takes one look over the places between its two events. Where
//! several such activities lie between different events, it takes one search.
//!
//! # What is promised
//!
//! `Order::new` holds exactly the active activities between events that have not passed. It answers that the rows have a cycle
//! exactly where they have one, unless memory is short first. `add` holds more activities. It refuses them exactly where they
//! close a cycle with those held. `last_cycle` then shows such a cycle, and all else is as before. `remove` lets activities go
//! and changes nothing else. After each call, every held activity goes forward in the order. `add` and `remove` take no memory.
//!
//! Laws, in [`laws`]: an order lists every event of its network once, and the activities that it holds have no cycle.
#![tactic(auto)]

mod faults;
mod flags;
pub mod laws;
mod lists;
mod order;
mod reach;
mod shift;
mod way;

pub use faults::OrderFault;
pub use order::Order;
