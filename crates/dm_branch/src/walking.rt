//! Ways through a part's tree.
ghost use Rattle.std.specs.Prelude.{◌≤◌, length};

use crate::growing::Tree;
use dm_probe::Mover;
use std::alloc::AllocError;

impl Tree {
    /// Brings a mover from the root to a node of the tree, as far as no decision makes a cycle.
    pub fn stand_at(&mut self, mover: &mut Mover<'_>, node: usize) -> Result<(), AllocError> {
        let _there = self.go_to(mover, node)?;
        mover.settle();
        Ok(())
    }

    /// Brings the mover back to the root.
    pub fn leave(&mut self, mover: &mut Mover<'_>) {
        self.go_up_to(mover, 0);
    }

    /// Brings the mover to a node, through what both places have in common. It is false where a decision makes a cycle.
    pub(crate) fn go_to(&mut self, mover: &mut Mover<'_>, node: usize) -> Result<bool, AllocError> {
        let way = self.way_to(node)?;
        let common = common_front(&self.here, &way);
        self.go_up_to(mover, common);
        for next in &way[common..] {
            if !self.go_down(mover, *next)? {
                return Ok(false);
            }
        }
        Ok(true)
    }

    /// The nodes from below the root down to a node.
    fn way_to(&self, node: usize) -> Result<Vec<usize>, AllocError> {
        let mut way = Vec::new(self.alloc);
        let mut at = node;
        for _ in 0..self.nodes.len() {
            if at == 0 {
                break;
            }
            way.push(at)?;
            at = self.nodes.get(at).map(|grown| grown.parent).unwrap_or(0);
        }
        way.reverse();
        Ok(way)
    }

    fn go_up_to(&mut self, mover: &mut Mover<'_>, depth: usize) {
        for _ in depth..self.here.len() {
            if let Some(node) = self.here.pop() {
                self.undecide(mover, node);
            }
        }
    }

    fn undecide(&self, mover: &mut Mover<'_>, node: usize) {
        if let Some(grown) = self.nodes.get(node) {
            mover.undecide(grown.number);
        }
    }

    /// Goes down to a child. It is false where that makes a cycle: then the mover stays.
    fn go_down(&mut self, mover: &mut Mover<'_>, node: usize) -> Result<bool, AllocError> {
        let Some(grown) = self.nodes.get(node).copied() else {
            return Ok(false);
        };
        if !mover.decide(grown.number, grown.side) {
            return Ok(false);
        }
        self.here.push(node)?;
        Ok(true)
    }

    /// The nodes in preorder.
    pub(crate) fn preorder(&self) -> Result<Vec<usize>, AllocError> {
        let mut order = Vec::new(self.alloc);
        let mut due = Vec::new(self.alloc);
        due.push(0_usize)?;
        for _ in 0..self.nodes.len() {
            let Some(node) = due.pop() else {
                break;
            };
            order.push(node)?;
            if let Some(below) = self.nodes.get(node).and_then(|grown| grown.below) {
                due.push(below.saturating_add(1))?;
                due.push(below)?;
            }
        }
        Ok(order)
    }
}

/// How many nodes two ways have in common at the front.
fn common_front(one: &[usize], other: &[usize]) -> usize
    ensures { result ≤ length other.now }
{
    let shorter = one.len().min(other.len());
    for k in 0..shorter {
        if one[k] != other[k] {
            return k;
        }
    }
    shorter
}
