//! Choices that were found.

use dm_base::Cost;
use dm_rows::Decision;

/// Decisions after which nothing is violated, and what they cost.
pub struct Found {
    pub path: Vec<Decision>,
    pub cost: Cost,
}

impl Drop for Found {
    fn drop(self) {
        let Found { path: _, cost: _ } = self;
    }
}
