//! Parts of the leaves that a round expands. Each is expanded by itself, so its result does not depend on who takes it.

use crate::found::Found;
use crate::growing::{Change, Grown, Tree};
use crate::rounds::block;
use crate::sharing::Known;
use dm_base::Cost;
use dm_scout::Scout;
use std::alloc::AllocError;
use std::mem::replace;
use std::sync::atomic::{AtomicU64, Ordering};

/// How many parts a round has at most, and how many leaves a part of it has at least.
const PARTS: usize = 16;

const FEW: usize = 16;

/// The leaves of a tree that are expanded in a round, in preorder, and what others than the first searcher know of the tree.
pub struct Leaves {
    pub chosen: Vec<usize>,

    /// In how many parts they are taken, and how many of these were taken.
    pub parts: usize,
    taken: AtomicU64,

    /// Below them is expanded what costs less than this.
    limit: Cost,

    /// How many nodes are expanded at most.
    most: u64,
    pub known: Known,
}

impl Drop for Leaves {
    fn drop(self) {
        let Leaves {
            chosen: _,
            parts: _,
            taken: _,
            limit: _,
            most: _,
            known: _,
        } = self;
    }
}

impl Leaves {
    /// Leaves below which so many nodes are expanded at most that cost less than the limit.
    pub fn new(chosen: Vec<usize>, limit: Cost, most: u64, known: Known) -> Leaves {
        let parts = (chosen.len() / FEW).min(PARTS).max(1);
        Leaves {
            chosen,
            parts,
            taken: AtomicU64::new(0),
            limit,
            most,
            known,
        }
    }

    /// The number of a part that nobody has taken yet.
    fn take(&self) -> Option<usize> {
        let number = self.taken.fetch_add(1, Ordering::SeqCst) as usize;
        if number < self.parts {
            Some(number)
        } else {
            None
        }
    }

    /// How many nodes so many of the leaves may expand.
    fn share(&self, leaves: usize) -> u64 {
        let all = self.most.saturating_mul(leaves as u64);
        all.checked_div(self.chosen.len() as u64).unwrap_or(0)
    }
}

/// A node, and its place.
#[derive(Clone, Copy)]
pub struct Placed {
    pub place: usize,
    pub node: Grown,
}

/// What has come of a part: its leaves as they are now, the nodes and gains that are new, and the choices that are better than
/// all before.
pub struct Part {
    pub number: usize,
    pub leaves: Vec<Placed>,
    pub nodes: Vec<Grown>,
    pub changes: Vec<Change>,
    pub best: Found,
    pub expanded: u64,
}

impl Drop for Part {
    fn drop(self) {
        let Part {
            number: _,
            leaves: _,
            nodes: _,
            changes: _,
            best: _,
            expanded: _,
        } = self;
    }
}

impl Tree {
    /// Expands the parts of a round's leaves that it takes, one after the other, while any is left.
    pub fn expand_parts(
        &mut self,
        scout: &mut Scout<'_>,
        leaves: &Leaves,
    ) -> Result<Vec<Part>, AllocError> {
        let mut parts = Vec::new(self.alloc);
        for _ in 0..leaves.parts {
            let Some(number) = leaves.take() else {
                return Ok(parts);
            };
            parts.push(self.expand_part(scout, leaves, number)?)?;
        }
        Ok(parts)
    }

    /// Expands a part of the leaves. Then the tree is again as it was when the round began.
    fn expand_part(
        &mut self,
        scout: &mut Scout<'_>,
        leaves: &Leaves,
        number: usize,
    ) -> Result<Part, AllocError> {
        let chosen = block(&leaves.chosen, number, leaves.parts);
        let before = self.placed(chosen)?;
        let (nodes, changes, expanded) = (self.nodes.len(), self.changes.len(), self.expanded);
        let nothing = Found {
            path: Vec::new(self.alloc),
            cost: self.best.cost,
        };
        let best = replace(&mut self.best, nothing);
        self.expand_all(scout, chosen, leaves.limit, leaves.share(chosen.len()))?;
        self.leave(scout, nodes)?;
        let part = Part {
            number,
            leaves: self.placed(chosen)?,
            nodes: self.nodes_from(nodes)?,
            changes: self.changes_from(changes)?,
            best: replace(&mut self.best, best),
            expanded: self.expanded.saturating_sub(expanded),
        };
        self.expanded = expanded;
        self.nodes.truncate(nodes);
        self.place(&before);
        self.forget(scout, changes);
        Ok(part)
    }

    /// The nodes from a place on.
    pub fn nodes_from(&self, place: usize) -> Result<Vec<Grown>, AllocError> {
        match self.nodes.get(place..) {
            Some(nodes) => Vec::from_slice(self.alloc, nodes),
            None => Ok(Vec::new(self.alloc)),
        }
    }

    /// The gains that have come, but for the first so many.
    fn changes_from(&self, many: usize) -> Result<Vec<Change>, AllocError> {
        match self.changes.get(many..) {
            Some(changes) => Vec::from_slice(self.alloc, changes),
            None => Ok(Vec::new(self.alloc)),
        }
    }

    /// These nodes, each with its place.
    pub fn placed(&self, places: &[usize]) -> Result<Vec<Placed>, AllocError> {
        let mut all = Vec::new(self.alloc);
        for place in places {
            if let Some(node) = self.nodes.get(*place) {
                all.push(Placed {
                    place: *place,
                    node: *node,
                })?;
            }
        }
        Ok(all)
    }

    /// Puts nodes at their places.
    pub fn place(&mut self, all: &[Placed]) {
        for placed in all {
            if let Some(slot) = self.nodes.get_mut(placed.place) {
                *slot = placed.node;
            }
        }
    }

    /// Takes in what has come of a part, where the tree had so many nodes when the round began.
    pub fn take_in(
        &mut self,
        scout: &Scout<'_>,
        part: &Part,
        before: usize,
    ) -> Result<(), AllocError> {
        let shift = self.nodes.len().saturating_sub(before);
        for placed in &part.leaves {
            if let Some(slot) = self.nodes.get_mut(placed.place) {
                *slot = placed.node.shifted(before, shift);
            }
        }
        self.take_nodes(&part.nodes, before, shift)?;
        self.learn_all(scout, &part.changes)?;
        self.expanded = self.expanded.saturating_add(part.expanded);
        if part.best.cost < self.best.cost {
            self.best = Found {
                path: Vec::from_slice(self.alloc, &part.best.path)?,
                cost: part.best.cost,
            };
        }
        Ok(())
    }

    fn take_nodes(
        &mut self,
        nodes: &[Grown],
        before: usize,
        shift: usize,
    ) -> Result<(), AllocError> {
        for grown in nodes {
            self.nodes.push(grown.shifted(before, shift))?;
        }
        Ok(())
    }

    /// Comes to know gains.
    pub fn learn_all(&mut self, scout: &Scout<'_>, changes: &[Change]) -> Result<(), AllocError> {
        for change in changes {
            self.learn(scout, change.number, change.gains)?;
        }
        Ok(())
    }
}
