//! Parts, and plans by parts.

use crate::Share;
use dm_base::{Cost, Items};
use dm_rows::{Choice, Decision};
use dm_tree::Mark;

/// A node of a part's tree. The children of a choice are those of dm_tree's nodes.
#[derive(Clone, Copy)]
pub enum PartNode {
    /// A choice with two children.
    Inner(Choice),

    /// The relaxed problem of the path has a cycle.
    Cycle,

    /// The relaxed problem of the path costs this within the share, in thousandths of passenger seconds.
    Leaf(Cost),
}

/// A share of the cost, with a tree that shows that no choices make it cheaper than the bound.
pub struct Part {
    pub share: Share,

    /// The nodes in preorder.
    pub tree: Items<PartNode>,

    /// The least cost of a leaf, in thousandths of passenger seconds.
    pub bound: Cost,
}

impl Drop for Part {
    fn drop(self) {
        let Part {
            share: _,
            tree: _,
            bound: _,
        } = self;
    }
}

/// Choices for the rows at an entry, with parts that show how good they are.
pub struct PlanByParts {
    /// How many entries the history has whose rows the plan is for.
    pub entry: u32,

    /// The decisions that differ from these rows, the changes in ascending id and then the pairs, none twice.
    pub choices: Items<Decision>,

    /// What the rows cost with the choices set, in thousandths of passenger seconds.
    pub cost: Cost,

    /// The parts, in any order. No term of the cost stands in two shares.
    pub parts: Items<Part>,

    /// What the terms that stand in no share cost where nothing is decided, in thousandths of passenger seconds.
    pub rest: Cost,

    /// What no choices go below, in thousandths of passenger seconds: the bounds of the parts and the rest together.
    pub bound: Cost,

    /// Optimal exactly where the bound is the cost.
    pub mark: Mark,
}

impl Drop for PlanByParts {
    fn drop(self) {
        let PlanByParts {
            entry: _,
            choices: _,
            cost: _,
            parts: _,
            rest: _,
            bound: _,
            mark: _,
        } = self;
    }
}
