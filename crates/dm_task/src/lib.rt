//! What choices are searched for, and what a guide says of where to look first.
//!
//! It stands on dm_tree for plans and on dm_rows for what a path may decide.
//!
//! A [`Task`] is what choices are searched for; its `specs/` say which plan it asks for. A [`Guide`] says where a search for them
//! looks first: choices that are good, and a tree of choices as [`Hint`]s. One who is [`Polishing`] makes choices better. Who guides
//! or polishes, and who is helped so, know nothing of each other.
//!
//! # What is promised
//!
//! `Task`: the rows are of the network, and penalty and budget are within their limits. The base decides free choices, none
//! twice, as the rows have them. A plan may make every free choice that the base leaves.
//!
//! `Guide`, `Polishing`: nothing is promised of what they say. Whoever goes by it judges each node, and each choice, anew.
#![tactic(auto)]

mod guides;
mod polishing;
mod tasks;

pub use guides::{Guide, Hint};
pub use polishing::Polishing;
pub use tasks::Task;
