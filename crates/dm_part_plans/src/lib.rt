//! True plans by parts, made of parts and choices that are handed in.
//!
//! It stands on dm_branch for the trees of parts, on dm_traverse for evaluators that are brought to a path, and on dm_parts for what a
//! true plan by parts is. Lemmas of dm_part_bounds show what one part of all terms is worth.
//!
//! # What is promised
//!
//! [`plan_of_parts`] takes a true plan of a task, trees of parts and choices, and gives a true plan by parts of the task, or wants
//! memory. It has the plan's entry, and costs no more than the plan. Its shares have at most 65,536 ids together, so that a text has
//! room for it. Where the network has no more terms than that, its bound is no lower than the plan's.
//!
//! Each node of each tree is judged anew by an evaluator that is brought to its path. Where what was found does not hold, a part
//! has fewer nodes or is left out: its terms then count as they are where nothing is decided. So does a part with too many ids.
//! Where the parts' bound is below the plan's, one part has all terms and the plan's tree. How much better the bound is, no clause says.
#![tactic(auto)]

mod alone;
mod choosing;
mod claiming;
mod costing;
mod gathering;
mod growing;
mod judging;
mod solving;

pub use solving::plan_of_parts;
