//! A table as a desk, for a server of one thread.
//!
//! It stands on dm_desk for what a desk promises and on dm_table for what answers. A [`TableDesk`] has its table to itself: it
//! has seen every entry of the table, and entered each.
//!
//! # What is promised
//!
//! A `TableDesk` answers the calls of a `Desk` at the history of its table. The entries of that history are its own, by their
//! numbers from 1 (`desk_of`). It takes memory for the room of an entry, for a cycle that is shown, for the copy of the rows, and
//! for the choices of a plan that is adopted or carried over.
#![tactic(auto)]

mod entering;
mod table_desk;

pub use table_desk::TableDesk;
