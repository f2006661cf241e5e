//! Plans.

use crate::{Mark, Tree};
use dm_base::{Cost, Items};
use dm_rows::Decision;

/// Choices for the rows at an entry, with a tree that shows how good they are.
pub struct Plan {
    /// How many entries the history has whose rows the plan is for.
    pub entry: u32,

    /// The decisions that differ from these rows, the changes in ascending id and then the pairs, none twice.
    pub choices: Items<Decision>,

    /// What the rows cost with the choices set, in thousandths of passenger seconds.
    pub cost: Cost,

    /// What no choices go below, in thousandths of passenger seconds.
    pub bound: Cost,

    pub mark: Mark,
    pub tree: Tree,
}

impl Drop for Plan {
    fn drop(self) {
        let Plan {
            entry: _,
            choices: _,
            cost: _,
            bound: _,
            mark: _,
            tree: _,
        } = self;
    }
}
