//! Tells exactly whether a plan by parts is true, whatever stands in it.
//!
//! It stands on dm_parts for what a true plan by parts is, on dm_check_plans for the relaxed problem of a path and for choices, on
//! dm_check_times for what an event costs, and on nothing that searches plans. Each part is judged by times of its own: going from
//! one node to the next costs what that moves, and a leaf costs the ids of its share, whatever the size of the network.
//!
//! # What is promised
//!
//! [`is_true_plan_by_parts`] tells exactly whether a plan by parts is a true one of rows for a budget of nodes, where its shares
//! have at most 65,536 ids together. It tests the choices and the cost; the shares, and that no term stands in two; each node of
//! each part, in preorder, by the relaxed problem of its path; each bound; the rest; the sum; the mark; and the size. No clause
//! speaks of the time and the memory that this takes. Memory is linear in the network and the plan.
#![tactic(auto)]

mod claiming;
mod costing;
mod grounds;
mod naming;
mod parts;
mod plans;
mod shares;

pub use plans::is_true_plan_by_parts;
