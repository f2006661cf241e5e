//! What a guide says.

use dm_rows::{Choice, Decision};
use std::alloc::Global;

/// Choices that are good, and a tree that tells much. Nothing is promised of it.
pub struct Guide {
    /// Decisions after which nothing is violated, or none where nothing better was found.
    pub path: Vec<Decision>,

    /// The nodes of the tree, of which the first is the root.
    pub hints: Vec<Hint>,
}

impl Drop for Guide {
    fn drop(self) {
        let Guide { path: _, hints: _ } = self;
    }
}

/// A node of a guide's tree.
#[derive(Clone, Copy)]
pub struct Hint {
    /// A choice that is violated there: on this one the tree branches.
    pub choice: Option<Choice>,

    /// The number of the node that is the first child, which the second child follows.
    pub below: Option<usize>,
}

impl Guide {
    /// A guide that says nothing.
    pub fn new(alloc: Global) -> Guide {
        Guide {
            path: Vec::new(alloc),
            hints: Vec::new(alloc),
        }
    }

    /// The node of a number.
    pub fn hint(&self, node: usize) -> Option<Hint> {
        self.hints.get(node).copied()
    }
}
