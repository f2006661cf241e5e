//! A tree over the choices that move some terms of the cost.

use crate::gaining::{Gains, Tries, try_both};
use dm_base::Cost;
use dm_probe::{Mover, Side};
use std::alloc::{AllocError, Global};
use std::collections::BinaryHeap;

/// How many of the violated choices that promise most are tried anew at each leaf.
const STRONG: usize = 4;

/// A node, and the last decision of its path.
#[derive(Clone, Copy)]
pub struct Grown {
    pub parent: usize,
    pub number: usize,
    pub side: Side,

    /// What the share costs there.
    pub cost: Cost,

    /// The choice on which it branches.
    pub choice: Option<usize>,

    /// Its first child, which the second follows.
    pub below: Option<usize>,

    /// Whether its path makes a cycle.
    pub is_cycle: bool,
}

/// A leaf that may be branched on, by how much less than anything it costs.
type Open = (Cost, usize);

/// How much a choice promises, as what is missing to the most, and its place among those of a part.
type Promise = (Cost, usize);

/// What a tree was before it was widened.
#[derive(Clone, Copy)]
pub struct Narrow {
    nodes: usize,
    candidates: usize,
    best: Cost,
    solved: Option<usize>,
    bound: Cost,
    is_done: bool,
}

/// A tree over choices that move some terms of the cost.
pub struct Tree {
    pub(crate) alloc: Global,

    /// The numbers of the choices on which the tree may branch, and what each gained when it was tried last.
    pub(crate) candidates: Vec<usize>,
    tries: Vec<Tries>,
    pub(crate) nodes: Vec<Grown>,
    open: BinaryHeap<Open>,

    /// The nodes from below the root down to where the mover stands.
    pub(crate) here: Vec<usize>,

    /// What the share costs at the root, in the plan, and at best.
    root: Cost,
    planned: Cost,
    best: Cost,

    /// The least cost of a leaf.
    bound: Cost,
    is_done: bool,

    /// A leaf of the best cost at which nothing is violated.
    solved: Option<usize>,
}

impl Drop for Tree {
    fn drop(self) {
        let Tree {
            alloc: _,
            candidates: _,
            tries: _,
            nodes: _,
            open: _,
            here: _,
            root: _,
            planned: _,
            best: _,
            bound: _,
            is_done: _,
            solved: _,
        } = self;
    }
}

impl Tree {
    /// A tree that may branch on these choices. No node stands yet, and no plan is known.
    pub fn new(alloc: Global, candidates: Vec<usize>) -> Result<Tree, AllocError> {
        Ok(Tree {
            alloc,
            tries: vec![in alloc; Tries::none(); candidates.len()]?,
            candidates,
            nodes: Vec::new(alloc),
            open: BinaryHeap::new(alloc),
            here: Vec::new(alloc),
            root: 0,
            planned: Cost::MAX,
            best: Cost::MAX,
            bound: 0,
            is_done: false,
            solved: None,
        })
    }

    /// Has a plan cost so much over the share.
    pub fn plan_at(&mut self, cost: Cost) {
        self.planned = cost;
        self.best = self.best.min(cost);
    }

    /// The numbers of the choices on which the tree may branch.
    pub fn candidates(&self) -> &[usize] {
        &self.candidates
    }

    /// How much the bound lies above what the share costs at the root.
    pub fn excess(&self) -> Cost {
        self.bound.saturating_sub(self.root)
    }

    /// How much the bound lies below what the share costs in the plan.
    pub fn gap(&self) -> Cost {
        self.planned.saturating_sub(self.bound)
    }

    /// Has the tree branch on other choices too, none of which it could branch on before. Whether it shows more is open again.
    pub fn widen(&mut self, more: &[usize]) -> Result<Narrow, AllocError> {
        let narrow = Narrow {
            nodes: self.nodes.len(),
            candidates: self.candidates.len(),
            best: self.best,
            solved: self.solved,
            bound: self.bound,
            is_done: self.is_done,
        };
        self.candidates.extend_from_slice(more)?;
        self.tries.resize(self.candidates.len(), Tries::none())?;
        self.solved = None;
        self.best = self.planned;
        self.is_done = false;
        Ok(narrow)
    }

    /// Takes the tree back to what it was before it was widened.
    pub fn narrow(&mut self, narrow: &Narrow) -> Result<(), AllocError> {
        self.nodes.truncate(narrow.nodes);
        self.candidates.truncate(narrow.candidates);
        self.tries.truncate(narrow.candidates);
        for grown in self.nodes.iter_mut() {
            if grown.below.is_some_and(|below| below >= narrow.nodes) {
                grown.below = None;
                grown.choice = None;
            }
        }
        self.best = narrow.best;
        self.solved = narrow.solved;
        self.bound = narrow.bound;
        self.is_done = narrow.is_done;
        self.open_leaves()
    }

    /// Opens each leaf whose path makes no cycle, and nothing else.
    fn open_leaves(&mut self) -> Result<(), AllocError> {
        self.open.clear();
        for (node, grown) in self.nodes.iter().enumerate() {
            if grown.choice.is_none() && !grown.is_cycle {
                self.open
                    .push((Cost::MAX.saturating_sub(grown.cost), node))?;
            }
        }
        Ok(())
    }

    /// Whether the bound is the least cost of the share, or the tree cannot show more.
    pub fn is_done(&self) -> bool {
        self.is_done
    }

    /// How many nodes the tree has, or 0 if it is a single leaf.
    pub fn size(&self) -> usize {
        if self.nodes.len() > 1 {
            self.nodes.len()
        } else {
            0
        }
    }

    /// The leaf that tells most: a solved one that costs least, or else the cheapest.
    pub fn leaf(&self) -> Option<usize> {
        match self.solved {
            Some(node) if self.cost_at(node) == self.bound => Some(node),
            _ => self.open.peek().map(|open| open.1),
        }
    }

    /// The leaf that tells most, and then the cheapest others that cost less than the plan, so many at most.
    pub fn leaves(&self, many: usize) -> Result<Vec<usize>, AllocError> {
        let first = self.leaf();
        let mut leaves: Vec<(Cost, usize)> = Vec::new(self.alloc);
        if let Some(node) = first {
            leaves.push((0, node))?;
        }
        for (node, grown) in self.nodes.iter().enumerate() {
            let is_open = grown.choice.is_none() && !grown.is_cycle;
            if is_open && grown.cost < self.planned && Some(node) != first {
                leaves.push((grown.cost.saturating_add(1), node))?;
            }
        }
        leaves.sort_unstable();
        leaves.truncate(many);
        second_of(self.alloc, &leaves)
    }

    fn cost_at(&self, node: usize) -> Cost {
        self.nodes
            .get(node)
            .map(|grown| grown.cost)
            .unwrap_or(Cost::MAX)
    }

    /// Expands the cheapest leaf as long as the tree then has at most so many nodes. The mover stands at the root, with the share
    /// loaded, before and after.
    pub fn grow(&mut self, mover: &mut Mover<'_>, most: usize) -> Result<(), AllocError> {
        self.begin(mover)?;
        for _ in 0..most.saturating_add(1) {
            if !self.step(mover, most)? {
                break;
            }
        }
        self.leave(mover);
        Ok(())
    }

    /// Begins with the root.
    fn begin(&mut self, mover: &mut Mover<'_>) -> Result<(), AllocError> {
        if !self.nodes.is_empty() {
            return Ok(());
        }
        let cost = mover.share_cost();
        self.root = cost;
        self.add(0, 0, Side::First, Some(cost))
    }

    /// Adds a leaf that costs so much, or that makes a cycle.
    fn add(
        &mut self,
        parent: usize,
        number: usize,
        side: Side,
        cost: Option<Cost>,
    ) -> Result<(), AllocError> {
        if let Some(cost) = cost {
            self.open
                .push((Cost::MAX.saturating_sub(cost), self.nodes.len()))?;
        }
        self.nodes.push(Grown {
            parent,
            number,
            side,
            cost: cost.unwrap_or(Cost::MAX),
            choice: None,
            below: None,
            is_cycle: cost.is_none(),
        })?;
        Ok(())
    }

    /// Expands the cheapest leaf. It is false where there is none, or no room, or nothing more to be shown.
    fn step(&mut self, mover: &mut Mover<'_>, most: usize) -> Result<bool, AllocError> {
        let Some(node) = self.open.peek().map(|open| open.1) else {
            self.bound = self.best;
            self.is_done = true;
            return Ok(false);
        };
        let cost = self.cost_at(node);
        self.bound = cost;
        if cost >= self.best {
            self.is_done = true;
            return Ok(false);
        }
        if self.nodes.len().saturating_add(2) > most || !self.go_to(mover, node)? {
            return Ok(false);
        }
        let Some(place) = self.pick(mover, cost)? else {
            self.best = cost;
            self.solved = Some(node);
            self.is_done = true;
            return Ok(false);
        };
        let _leaf = self.open.pop();
        self.branch(mover, node, place, cost)?;
        Ok(true)
    }

    /// The place of the violated choice that promises most where the mover stands.
    fn pick(&mut self, mover: &mut Mover<'_>, cost: Cost) -> Result<Option<usize>, AllocError> {
        let violated = self.violated(mover)?;
        let mut promises = Vec::new(self.alloc);
        for place in &violated {
            let promise = self.promise(mover, *place, cost);
            promises.push((Cost::MAX.saturating_sub(promise), *place))?;
        }
        promises.sort_unstable();
        promises.truncate(STRONG);
        if promises.len() > 1 {
            self.try_anew(mover, &mut promises, cost);
            promises.sort_unstable();
        }
        Ok(promises.first().map(|promise| promise.1))
    }

    /// The places of the choices that are violated where the mover stands.
    fn violated(&self, mover: &mut Mover<'_>) -> Result<Vec<usize>, AllocError> {
        mover.settle();
        let mut places = Vec::new(self.alloc);
        for (place, number) in self.candidates.iter().enumerate() {
            if mover.is_violated(*number) {
                places.push(place)?;
            }
        }
        Ok(places)
    }

    /// How much a choice promises by what it gained last. It is tried if it never was.
    fn promise(&mut self, mover: &mut Mover<'_>, place: usize, cost: Cost) -> Cost {
        let gains = self.tries.get(place).and_then(|tries| tries.gains());
        match gains {
            Some(gains) => gains.promise(self.best.saturating_sub(cost)),
            None => self.try_at(mover, place, cost),
        }
    }

    /// Tries a choice, and says how much it promises.
    fn try_at(&mut self, mover: &mut Mover<'_>, place: usize, cost: Cost) -> Cost {
        let Some(number) = self.candidates.get(place).copied() else {
            return 0;
        };
        let gains = try_both(mover, number, cost);
        if let Some(tries) = self.tries.get_mut(place) {
            tries.note(gains);
        }
        gains.promise(self.best.saturating_sub(cost))
    }

    fn try_anew(&mut self, mover: &mut Mover<'_>, promises: &mut [Promise], cost: Cost) {
        for promise in promises.iter_mut() {
            let most = self.try_at(mover, promise.1, cost);
            promise.0 = Cost::MAX.saturating_sub(most);
        }
    }

    /// Has two children below a node where the mover stands, on either side of a choice.
    fn branch(
        &mut self,
        mover: &mut Mover<'_>,
        node: usize,
        place: usize,
        cost: Cost,
    ) -> Result<(), AllocError> {
        let number = self.candidates.get(place).copied().unwrap_or(0);
        let below = self.nodes.len();
        if let Some(grown) = self.nodes.get_mut(node) {
            grown.choice = Some(number);
            grown.below = Some(below);
        }
        let first = self.child(mover, node, number, Side::First)?;
        let second = self.child(mover, node, number, Side::Second)?;
        if let Some(tries) = self.tries.get_mut(place) {
            tries.note(Gains::over(cost, first, second));
        }
        Ok(())
    }

    /// Adds a child, and gives what it costs.
    fn child(
        &mut self,
        mover: &mut Mover<'_>,
        parent: usize,
        number: usize,
        side: Side,
    ) -> Result<Cost, AllocError> {
        if !mover.decide(number, side) {
            self.add(parent, number, side, None)?;
            return Ok(Cost::MAX);
        }
        let cost = mover.share_cost();
        if cost < self.best || (cost == self.best && self.solved.is_none()) {
            self.note_solved(mover, cost);
        }
        mover.undecide(number);
        self.add(parent, number, side, Some(cost))?;
        Ok(cost)
    }

    /// Notes the node that comes next as the best, if nothing is violated where the mover stands.
    fn note_solved(&mut self, mover: &Mover<'_>, cost: Cost) {
        for number in &self.candidates {
            if mover.is_violated(*number) {
                return;
            }
        }
        self.best = cost;
        self.solved = Some(self.nodes.len());
    }
}

/// The leaves, without what they cost.
fn second_of(alloc: Global, leaves: &[(Cost, usize)]) -> Result<Vec<usize>, AllocError> {
    let mut nodes = Vec::new(alloc);
    for (_cost, node) in leaves {
        nodes.push(*node)?;
    }
    Ok(nodes)
}
