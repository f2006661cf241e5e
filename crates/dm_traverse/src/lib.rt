//! The nodes of a plan's tree, judged anew one by one, and the true plan that they end with.
//!
//! It stands on dm_relax for the relaxed problem of a path, on dm_evaluate for evaluators, and on dm_tree for trees and plans. What
//! guides it is handed in.
//!
//! # What is promised
//!
//! [`step`] says exactly what a search does with a path. The answer is a cycle, pruned, solved with the completion's differences,
//! or the first violated choice. Each is given exactly where it holds.
//!
//! [`finish_with`] ends a search of a task from any tree whose inner nodes, cycles and costs at the leaves are right, within the
//! task's budget. It begins with any choices that cost no more than the rows by themselves, where it is known what they cost. It gives
//! a true plan of the task, with an entry, or want of memory. The plan costs no more than these choices. Each choice, cycle and
//! bound of the tree is in the plan's tree at the same path. How it searches the rest is outside its clauses.
//!
//! [`plan_with`] does the same from nothing, for rows that have no cycle, where it is known what these cost by themselves: it gives a
//! true plan of the task, in which every path begins with the task's base and what the base decides stays as it is. Both use an
//! evaluator of the task and go by what a guide says. `whole` gives the task of a whole network.
//!
//! `step_to` says what `step` does with a path behind the base of a task, in the time that an evaluator takes to go there from
//! where it is. `step_by` does the same with a hint: it branches on the hinted choice where that one is violated, and otherwise
//! on the first. `step_along` lets an evaluator make the decisions of a path behind the base one by one: all of them, or those
//! before the first whose choice is not open or which makes a cycle. It says what `step` does where it arrives. `walk` brings an
//! evaluator to a path, or says that the relaxed problem of the path has a cycle. `evaluator_at_base` makes such an evaluator.
//! `behind` gives the decisions of a path behind the first so many.
//!
//! The search goes through the tree in preorder, and judges each node anew by an evaluator that is brought from path to path. It
//! spends what is left of the budget on the leaves that cost least, in traversals whose cost limit rises.
#![tactic(auto)]

mod finishing;
mod moving;
mod searching;
mod steps;
mod walking;

pub use finishing::{finish_with, plan_with, whole};
pub use moving::{evaluator_at_base, step_along, step_by, step_to};
pub use steps::{Outcome, step};
pub use walking::{behind, walk};
