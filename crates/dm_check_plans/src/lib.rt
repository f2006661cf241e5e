//! Tells exactly whether a plan is true, whatever stands in it.
//!
//! It stands on dm_tree for what a true plan is, on dm_paths for paths of decisions, on dm_check_times for the least times of
//! relaxed problems, and on dm_check_rows for those of rows. It stands on nothing that searches plans. Memory is linear in the
//! network and the tree.
//!
//! # What is promised
//!
//! [`is_true_plan`], over `dm_check_times`, tells exactly whether a plan is a true plan of rows for a budget of nodes, whatever
//! stands in it. It tests the plan's choices and cost, its bound, its mark and its size. It tests each node of the
//! plan's tree, in preorder, by the relaxed problem of the node's path. A loop walks the tree.
//!
//! [`are_true_choices`] tells exactly whether choices are free ones in order that differ from the rows and make them cost what is
//! said. [`is_least`] tells exactly whether a cost is the least that leaves carry.
//!
//! A [`RelaxedProblem`] is seen as a path of decisions with the times of its relaxed problem (`IsRelaxedProblemOf`). `decide` and
//! `take_back` go along the path, and [`go_on`] and [`go_back`] from one node of a tree to the next and to the root. `solve` gives
//! the least times, or tells exactly that there is a cycle. Then `cost` is the relaxed cost, and `times`, `is_charged`, `is_open`
//! and `is_violated` tell exactly what stands there.
//!
//! Times carry over from one node to the next. The heads of activities that are newly held or let go begin anew where they may
//! have to, together with what was held to them. After a cycle, times begin again from the root's. No clause speaks of the time
//! that this takes.
#![tactic(auto)]

mod choices;
mod grounds;
mod held_timetable;
mod known;
mod leaves;
mod nodes;
mod plans;
mod relaxed_problem;
mod stepping;
mod timed;
mod turning;
mod violations;

pub use leaves::is_least;
pub use plans::{are_true_choices, is_true_plan};
pub use relaxed_problem::RelaxedProblem;
pub use stepping::{go_back, go_on};
