//! The relaxed problem of a path of decisions, kept while decisions are made and taken back.
//!
//! It stands on dm_priced for the timetable with its cost, on dm_tree for what the relaxed problem of a path is, and on dm_paths
//! and dm_relax for what decisions do to rows. An [`Evaluator`] begins with the path without a decision. Each move computes the
//! times that it moves and no others. Where it moves an event, it marks what the times do not keep. So finding the first violated
//! choice costs what is marked before that choice.
//!
//! # What is promised
//!
//! An `Evaluator` keeps the relaxed problem of a path of decisions live. [`Evaluator::decide`] puts a decision behind the path.
//! It refuses exactly where the relaxed problem would then have a cycle; the path and the times are then as before, and
//! `last_cycle` is such a cycle. [`Evaluator::undecide`] takes any decision of the path back, and never fails. After each of them
//! the times are the least of the path's relaxed problem (`least`). `cost` is exactly its relaxed cost, a sum of kept numbers.
//! `is_open`, `has_decided` and `is_violated` tell exactly whether a choice is open, decided or violated.
//!
//! [`Evaluator::violated`] gives exactly the first undecided choice that the times violate. It goes from mark to mark. When it
//! meets a mark of what the times keep, it takes the mark away. No clause says that few places are marked. `into_priced` gives
//! the timetable alone. All calls but `new` take no memory.
//!
//! Laws: a priced timetable that is held to the relaxed problem of a path (`Evaluates`) has at rest the least times of that
//! problem and its cost. The problem has no cycle.
#![tactic(auto)]

mod evaluator;
mod headways;
pub mod laws;
mod marking;
mod marks;
mod places;
mod starting;
mod turning;
mod violations;

pub use evaluator::Evaluator;
