//! The search for plans: true plans of the rows of a snapshot.
//!
//! It stands on dm_traverse, which judges the nodes of a tree anew and ends with a true plan, and on dm_guide, which finds good
//! choices and a tree that tells much, and promises nothing.
//!
//! # What is promised
//!
//! [`step`], of dm_traverse, says exactly what a search does with a path. The answer is a cycle, pruned, solved with the
//! completion's differences, or the first violated choice. Each is given exactly where it holds.
//!
//! [`finish`] ends a search from any tree whose inner nodes, cycles and costs at the leaves are right, within a budget of 1 to
//! 16,384 nodes. It begins with any choices that cost no more than the rows by themselves. It gives a true plan of the snapshot's
//! rows for the budget, with the snapshot's entry, or want of memory. The plan costs no more than these choices. Each choice,
//! cycle and bound of the tree is in the plan's tree at the same path. How it searches the rest is outside its clauses.
//!
//! [`plan`] does the same from nothing, for rows that have no cycle. `plan_task` does so for a task: it gives a true plan of the
//! task, in which every path begins with the task's base and what the base decides stays as it is.
//!
//! `searcher_at` makes a guide's searcher with an evaluator of its own; nothing is promised of it. `BoundWord` and `Hand` are those
//! of dm_bound: a word that several searches lower.
//!
//! A guide finds good choices and a tree that tells much, by one searcher. dm_traverse then goes through the tree, as the guide says.
//!
//! Laws:
//!
//! - `optimal_plans_are_optimal`: the choices of a true plan that is marked optimal are optimal, and its bound is its cost. No
//!   choices cost less than the bound of a true plan. With k choices allowed, a budget of 2^(k+1) - 1 nodes makes a true plan
//!   optimal. All this holds of every task, within its allowed choices.
//! - `a_hole_is_a_start`: a tree of one hole and no choices will do where the rows have no cycle.
#![tactic(auto)]

mod finishing;
mod guiding;
pub mod laws;

pub use dm_bound::{BoundWord, Hand};
pub use dm_traverse::{Outcome, step};
pub use finishing::{finish, plan, plan_task};
pub use guiding::searcher_at;
