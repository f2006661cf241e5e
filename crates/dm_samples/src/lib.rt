//! Cases as lines of a file, small networks and rows, and how a case came out: for the programs that try what no run makes.
//!
//! It stands on dm_outside for files, on dm_network for networks, on dm_rows for messages and on dm_propagate for changes.
//!
//! - [`Case`] is a case: a kind with its words, and a text. [`read_file`] reads a file of cases. [`written_out`] gives the bytes
//!   that a text stands for, and [`in_one_line`] puts bytes into one line.
//! - [`Sample`] names the small networks. [`network_of`] makes a network of records, as [`event`] and [`activity`] make them.
//! - [`rows_on_time`] are rows without a delay. [`hear`] makes the change of a message that nothing refuses.
//! - [`decides_one_of`] tells whether a decision decides a choice of a list.
//! - [`update`] of an engine is for programs that count no steps.
//! - [`report`] prints how a case came out.
//!
//! # What is promised
//!
//! `rows_on_time` gives rows of the network. After `hear`, rows of the network are still rows of the network.
//!
//! `decides_one_of` says yes only where the choice is listed.
//!
//! `update` of an engine leaves an engine of its network, and promises no more.
#![tactic(auto)]

mod cases;
mod changing;
mod failure;
mod hearing;
mod networks;
mod small;

pub use cases::{Case, in_one_line, read_file, written_out};
pub use changing::update;
pub use failure::{Failure, report};
pub use hearing::{decides_one_of, hear};
pub use networks::{activity, event, network_of, rows_on_time};
pub use small::Sample;
