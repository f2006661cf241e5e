//! A part: terms of the cost, and its tree.
ghost use Rattle.std.specs.Prelude.{◌≡◌, IfOk};

use crate::growing::{Narrow, Tree};
use crate::telling::PartTree;
use dm_base::Cost;
use dm_probe::{Mover, Share};
use std::alloc::{AllocError, Global};
use std::marker::{Brand, Model};

/// Some terms of the cost, and a tree over choices that move them. Its value is the terms: whatever its tree does, they stay.
pub struct Part {
    share: Share,
    tree: Tree,
}

impl Drop for Part {
    fn drop(self) {
        let Part { share: _, tree: _ } = self;
    }
}

impl Model for Part {
    ghost use Rattle.dm_probe.specs.declared.shares.Share.{Share};

    ghost Value = { Share };

    ghost view = { λ p. p.share };
}

impl Part {
    /// The part of a share whose tree may branch on these choices. No tree stands yet, and no plan is known.
    pub fn new(alloc: Global, share: Share, candidates: Vec<usize>) -> Result<Part, AllocError>
        ensures { IfOk result (λ part. part ≡ share) }
    {
        let tree = Tree::new(alloc, candidates)?;
        Ok(Part { share, tree })
    }

    /// Has a plan cost so much over the share.
    pub fn plan_at(&mut self, cost: Cost)
        ensures { self.new ≡ self.old }
    {
        self.tree.plan_at(cost);
    }

    pub fn share(&self) -> &Share
        ensures { result.now ≡ self.now }
    {
        &self.share
    }

    /// The numbers of the choices on which the tree may branch.
    pub fn candidates(&self) -> &[usize] {
        self.tree.candidates()
    }

    /// How much the bound lies above what the share costs at the root.
    pub fn excess(&self) -> Cost {
        self.tree.excess()
    }

    /// How much the bound lies below what the share costs in the plan.
    pub fn gap(&self) -> Cost {
        self.tree.gap()
    }

    /// Whether the bound is the least cost of the share, or the tree cannot show more.
    pub fn is_done(&self) -> bool {
        self.tree.is_done()
    }

    /// How many nodes the tree has, or 0 if it is a single leaf.
    pub fn size(&self) -> usize {
        self.tree.size()
    }

    /// The leaf that tells most: a solved one that costs least, or else the cheapest.
    pub fn leaf(&self) -> Option<usize> {
        self.tree.leaf()
    }

    /// The leaf that tells most, and then the cheapest others that cost less than the plan, so many at most.
    pub fn leaves(&self, many: usize) -> Result<Vec<usize>, AllocError> {
        self.tree.leaves(many)
    }

    /// Has the tree branch on other choices too, none of which it could branch on before. Whether it shows more is open again.
    pub fn widen(&mut self, more: &[usize]) -> Result<Narrow, AllocError>
        ensures { self.new ≡ self.old }
    {
        self.tree.widen(more)
    }

    /// Takes the tree back to what it was before it was widened.
    pub fn narrow(&mut self, narrow: &Narrow) -> Result<(), AllocError>
        ensures { self.new ≡ self.old }
    {
        self.tree.narrow(narrow)
    }

    /// Expands the cheapest leaf as long as the tree then has at most so many nodes. The mover stands at the root, with no share
    /// loaded, before and after.
    pub fn grow(&mut self, mover: &mut Mover<'_>, most: usize) -> Result<(), AllocError>
        ensures { self.new ≡ self.old }
    {
        mover.load(&self.share)?;
        self.tree.grow(mover, most)?;
        mover.unload(&self.share);
        Ok(())
    }

    /// Brings a mover from the root to a node of the tree, as far as no decision makes a cycle.
    pub fn stand_at(&mut self, mover: &mut Mover<'_>, node: usize) -> Result<(), AllocError>
        ensures { self.new ≡ self.old }
    {
        self.tree.stand_at(mover, node)
    }

    /// Brings the mover back to the root.
    pub fn leave(&mut self, mover: &mut Mover<'_>)
        ensures { self.new ≡ self.old }
    {
        self.tree.leave(mover);
    }

    /// The tree, where it has more than one node. The mover stands at the root, with no share loaded, before and after.
    pub fn tell(&mut self, mover: &mut Mover<'_>) -> Result<Option<PartTree>, AllocError>
        ensures { self.new ≡ self.old }
    {
        self.tree.tell(&self.share, mover)
    }
}
