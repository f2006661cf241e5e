//! Trees of choices, the relaxed problem of a path of decisions, and what a true and an optimal plan is.
//!
//! It stands on dm_rows. Its `specs/` say what a plan promises: its choices, its cost, its bound, and the tree that shows that
//! nothing was overlooked. The code makes and reads trees, which are lists of nodes in preorder. A path may be 8,191 decisions
//! long, so all is walked by loops. No time and no cost is computed here.
//!
//! # What is promised
//!
//! The definitions say what trees of choices, relaxed problems, true plans and optimal choices are.
//!
//! - [`Tree::from_nodes`] takes nodes exactly where they are one whole tree in preorder.
//! - [`leaves`] gives a tree's leaves with their paths.
//! - [`assemble`] gives the least tree that has given leaves, or answers exactly that no tree has them. If it ends with a tree
//!   too large to count, that is want of memory.
//! - [`Tree::second_child`] leads past the first child's tree, and [`Tree::child_towards`] leads from the root to any node,
//!   choice by choice. Both take no memory. The decisions on the way are the path of the node.
//! - [`turn_back`] leads from a leaf's path to that of the next node, or tells that there is none.
//! - [`Chosen::copied`] copies what an adoption takes of a plan.
//! - [`nodes`] counts the nodes of a tree. A [`Partial`] is a tree in which holes may stand.
//!
//! Laws:
//!
//! - A worked plan is true. The present choices marked optimal with one leaf are not. Nor is the plan with its root as one open
//!   leaf, at a budget of seven nodes.
//! - Nothing refuses the choices of a true plan where the history has room (`true_plans_are_admitted`).
#![tactic(auto)]

mod adopting;
mod assembly;
mod drafts;
mod forms;
pub mod laws;
mod partial;
mod paths;
mod plans;
mod walks;
mod whole;

pub use adopting::{AdoptRefusal, Chosen};
pub use assembly::assemble;
pub use forms::{AssembleFault, Child, Leaf, Mark, Node};
pub use partial::Partial;
pub use paths::turn_back;
pub use plans::Plan;
pub use walks::leaves;
pub use whole::{Tree, nodes};
