//! Deques from which other threads steal, with an account of what each thread has put and taken.
//!
//! It stands on crossbeam_deque. Every push, pop and steal is a call under one protocol (`specs/Rule.antt`). An [`Owner`] puts
//! tasks on its deque and takes the last ones off. A [`Thief`] takes the first ones, and accounts for them in a [`Tally`]. Every
//! task of a deque fits what the search has picked for it ([`Grown`]), so whoever takes a task knows as much.
//!
//! # What is promised
//!
//! However tasks are weighed, what the owner has put weighs the same as three things together: what the owner has taken, what the
//! tallies that are out have taken, and what the deque holds. So each task that was put was taken once or is still there.
//!
//! - `Owner::new` gives an empty deque, and `thief` a handle for other threads. Both take memory.
//! - `tally` lends a tally, and `settle` takes one in again. What the tally took is then the owner's. The owner knows how many
//!   are out.
//! - `put` adds a task. Where the deque cannot grow it hands the task back, and nothing has changed.
//! - `take` gives the last task, or finds the deque empty at one moment.
//! - `steal` gives the first task, or none.
//! - `count` tells how many tasks the deque holds at one moment.
//! - `lend_each` has each of some deques lend a tally, and `settle_each` takes one in at each.
//!
//! Where no tally is out, `take` and `count` speak of the owner's account alone: `take` gives none only where all that was put
//! was taken, and `count` tells what is left. Where tallies are out, neither tells what these have taken meanwhile: the clauses
//! say only that there are as many such takings as tallies. No call waits.
#![tactic(auto)]

mod account;
mod deque;
mod rule;
mod sharing;

pub use account::Account;
pub use deque::{Owner, Tally, Thief};
pub use rule::{Fair, Grown};
pub use sharing::{Lent, lend_each, settle_each};
