//! Choices by place, and paths of decisions: what a path leaves undecided, and what one decision more binds and charges for.
//!
//! It stands on dm_rows for choices and rows, and on dm_tree for trees of decisions. It computes no times. What searches
//! plans (`dm_relax`, `dm_evaluate`) and what judges them (`dm_check_plans`) both stand on it. Its lemmas say what two paths
//! have in common where one of them has one decision more.
//!
//! # What is promised
//!
//! [`place_of_choice`] answers exactly where a choice stands in the network, or that it is none of its choices. [`flip_of`]
//! answers exactly what a decision of a free choice names. Neither takes memory. `differs_from` tells exactly whether the
//! rows have another decision.
//!
//! `change_decision` and `pair_decision` give the decisions of the choice at a place. `push_some` pushes a decision if there
//! is one. `with_decisions` sets decisions of free choices. [`all_undecided`] and [`binding_flags`] make the flags of the
//! path without decisions: what is undecided, and what binds then. These last four take memory. `binds` tells of one activity
//! whether it binds then. [`Undecided`] reads and sets one flag.
#![tactic(auto)]

mod decisions;
mod differing;
mod flips;
mod free;
mod places;
mod undecided;

pub use decisions::{change_decision, pair_decision, push_some, with_decisions};
pub use differing::differs_from;
pub use flips::flip_of;
pub use free::{all_undecided, binding_flags, binds};
pub use places::{ChoicePlace, place_of_choice};
pub use undecided::Undecided;
