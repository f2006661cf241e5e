//! The protocol of the shared deques, a worker's call at one node, what all workers find, the plan of it, and both by a guide. The
//! call at a node stands here with an evaluator and without one.

pub use dm_deques::{Account, Fair, Grown, Owner, Tally, Thief};
pub use dm_team::{
    Beginning, Best, Found, Path, expand, expand_with, find, plan_of, search_guided,
};
