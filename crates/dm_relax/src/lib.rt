//! The relaxed problem of a path of decisions, and what completes a path that violates nothing.
//!
//! It stands on dm_times for least timetables and costs, and on dm_tree for what the relaxed problem of a path is.
//!
//! # What is promised
//!
//! [`relax`] gives exactly the least times of a path's relaxed problem, their cost, and the first undecided choice that they
//! violate. Or it gives a cycle, exactly where what binds there has one, unless memory is short.
//!
//! [`complete`] takes a path that violates nothing. It gives exactly what differs from the rows in the path's completion.
//!
//! Laws:
//!
//! - `relaxed_cost_is_a_bound`: no choices that hold a path's decisions cost less than its relaxed cost. Where such choices have
//!   no cycle, the relaxed problem has none. Where nothing is violated, the completion has the relaxed times and the relaxed
//!   cost.
//! - `differences_complete`: what differs from the rows in the completion has the relaxed times and the relaxed cost as well.
#![tactic(auto)]

mod completing;
pub mod laws;
mod relaxation;
mod relaxing;
mod unmet;

pub use completing::complete;
pub use relaxing::{Relaxed, relax};
