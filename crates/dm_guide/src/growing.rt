//! A tree that grows.
ghost use Rattle.std.specs.Prelude.{◌≤◌, length};

use crate::found::Found;
use dm_base::Cost;
use dm_polish::{By, Gains, Scores, TriedGains, gain, try_both};
use dm_scout::{NOWHERE, Place, Scout, Side};
use dm_task::{Guide, Hint};
use dm_tree::Node;
use std::alloc::{AllocError, Global};

/// A node, and the last decision of its path.
#[derive(Clone, Copy)]
pub struct Grown {
    pub parent: Place,
    depth: Place,
    number: Place,
    side: Side,
    cost: Cost,

    /// A choice that is violated there, or the one on which it branches.
    choice: Place,
    pub below: Place,

    /// Whether it is a leaf that may be branched on.
    is_open: bool,
}

/// An open leaf, and what it costs.
#[derive(Clone, Copy)]
pub struct Leaf {
    pub cost: Cost,
    pub node: usize,
}

/// The gains of a choice that was tried, and those before.
#[derive(Clone, Copy)]
pub struct Change {
    pub number: usize,
    pub gains: Gains,
    pub before: Gains,
}

/// A tree that grows, the gains of the choices, and the best choices that it has met.
pub struct Tree {
    pub alloc: Global,
    pub nodes: Vec<Grown>,
    pub tried_gains: TriedGains,
    scores: Scores,
    pub best: Found,

    /// The nodes from below the root down to where the scout stands.
    pub here: Vec<usize>,

    /// How many nodes were expanded.
    pub expanded: u64,

    /// How many nodes other searchers were told of, which leaves were expanded since, and the gains that have come since.
    pub told: usize,
    pub fresh: Vec<usize>,
    pub changes: Vec<Change>,

    /// Whether there are other searchers.
    pub tells: bool,
}

impl Drop for Tree {
    fn drop(self) {
        let Tree {
            alloc: _,
            nodes: _,
            tried_gains: _,
            scores: _,
            best: _,
            here: _,
            expanded: _,
            told: _,
            fresh: _,
            changes: _,
            tells: _,
        } = self;
    }
}

impl Tree {
    /// No tree yet, among so many choices, of which none was tried, with room for so many nodes.
    pub fn new(
        alloc: Global,
        choices: usize,
        room: usize,
        tells: bool,
    ) -> Result<Tree, AllocError> {
        let mut nodes = Vec::new(alloc);
        nodes.reserve(room)?;
        Ok(Tree {
            alloc,
            nodes,
            scores: Scores::new(alloc, By::Promise, choices)?,
            tried_gains: TriedGains::new(alloc, choices)?,
            best: Found {
                path: Vec::new(alloc),
                cost: 0,
            },
            here: Vec::new(alloc),
            expanded: 0,
            told: 0,
            fresh: Vec::new(alloc),
            changes: Vec::new(alloc),
            tells,
        })
    }

    /// Begins with the nodes of a tree, and the best choices so far. The scout stands at the root.
    pub fn begin(
        &mut self,
        scout: &mut Scout<'_>,
        nodes: &[Node],
        best: Found,
    ) -> Result<(), AllocError> {
        self.best = best;
        scout.note_violated()?;
        self.take_up(scout, nodes)
    }

    /// Takes up the nodes of a tree.
    fn take_up(&mut self, scout: &mut Scout<'_>, nodes: &[Node]) -> Result<(), AllocError> {
        let mut due = Vec::new(self.alloc);
        self.add_unseen(0, 0, 0, Side::First)?;
        due.push(0_usize)?;
        for node in nodes {
            let Some(at) = due.pop() else {
                return Ok(());
            };
            match *node {
                Node::Inner(choice) => {
                    if let Some(number) = scout.choices().find(scout.net(), choice) {
                        let below = self.branch(at, number)?;
                        due.push(below.saturating_add(1))?;
                        due.push(below)?;
                    }
                }
                Node::Hole => self.see(scout, at)?,
                Node::Open(cost) => self.leave_open(at, cost),
                Node::Cycle | Node::Bound(_) => {}
            }
        }
        Ok(())
    }

    /// Has two children below a node, which are not seen yet, and gives the first.
    fn branch(&mut self, node: usize, number: usize) -> Result<usize, AllocError> {
        let below = self.nodes.len();
        let depth = match self.nodes.get_mut(node) {
            Some(grown) => {
                grown.choice = Place::of(number);
                grown.below = Place::of(below);
                grown.is_open = false;
                grown.depth.index().saturating_add(1)
            }
            None => 0,
        };
        self.add_unseen(node, depth, number, Side::First)?;
        self.add_unseen(node, depth, number, Side::Second)?;
        Ok(below)
    }

    /// Adds a node of which nothing is known.
    fn add_unseen(
        &mut self,
        parent: usize,
        depth: usize,
        number: usize,
        side: Side,
    ) -> Result<(), AllocError> {
        self.nodes.push(Grown {
            parent: Place::of(parent),
            depth: Place::of(depth),
            number: Place::of(number),
            side,
            cost: Cost::MAX,
            choice: NOWHERE,
            below: NOWHERE,
            is_open: false,
        })?;
        Ok(())
    }

    fn leave_open(&mut self, node: usize, cost: Cost) {
        if let Some(grown) = self.nodes.get_mut(node) {
            grown.cost = cost;
            grown.is_open = true;
        }
    }

    /// Goes to a node and looks at it.
    fn see(&mut self, scout: &mut Scout<'_>, node: usize) -> Result<(), AllocError> {
        if self.go_to(scout, node)? {
            self.look(scout, node)
        } else {
            Ok(())
        }
    }

    /// Looks at the node where the scout stands: where nothing is violated it may be the best, else it may be branched on.
    fn look(&mut self, scout: &mut Scout<'_>, node: usize) -> Result<(), AllocError> {
        let cost = scout.cost();
        let choice = scout.violated()?.first().copied();
        if let Some(grown) = self.nodes.get_mut(node) {
            grown.cost = cost;
            grown.choice = Place::of_any(choice);
            grown.is_open = choice.is_some();
        }
        if choice.is_none() && cost < self.best.cost {
            let path = scout.path()?;
            self.best = Found { path, cost };
        }
        Ok(())
    }

    /// Expands what costs least so many times, of several the youngest.
    pub fn expand_first(&mut self, scout: &mut Scout<'_>, many: u64) -> Result<(), AllocError> {
        for _ in 0..many {
            let mut next: Option<Leaf> = None;
            for leaf in &self.open_leaves()? {
                next = match next {
                    Some(least) if is_before(least, *leaf) => Some(least),
                    _ => Some(*leaf),
                };
            }
            let Some(leaf) = next else {
                return Ok(());
            };
            let _below = self.expand(scout, leaf.node)?;
        }
        Ok(())
    }

    /// How many nodes may still be expanded.
    pub fn left(&self, budget: u64) -> u64 {
        let nodes = self.nodes.len() as u64;
        budget.saturating_sub(nodes) / 2
    }

    pub fn expanded(&self) -> u64 {
        self.expanded
    }

    /// Expands these leaves, and below them what costs less than the limit, so often at most.
    pub fn expand_all(
        &mut self,
        scout: &mut Scout<'_>,
        chosen: &[usize],
        limit: Cost,
        most: u64,
    ) -> Result<(), AllocError> {
        let mut due = Vec::from_slice(self.alloc, chosen)?;
        due.reverse();
        for _ in 0..most {
            let Some(node) = due.pop() else {
                return Ok(());
            };
            if let Some(below) = self.expand(scout, node)? {
                self.add_due(&mut due, below.saturating_add(1), limit)?;
                self.add_due(&mut due, below, limit)?;
            }
        }
        Ok(())
    }

    /// Adds a node that may be branched on, if it costs less than the limit.
    fn add_due(&self, due: &mut Vec<usize>, node: usize, limit: Cost) -> Result<(), AllocError> {
        match self.open_at(node) {
            Some(grown) if grown.cost < limit => due.push(node)?,
            _ => {}
        }
        Ok(())
    }

    /// A node, if it is a leaf that may be branched on and costs less than the best.
    fn open_at(&self, node: usize) -> Option<Grown> {
        match self.nodes.get(node) {
            Some(grown) if grown.is_open && grown.cost < self.best.cost => Some(*grown),
            _ => None,
        }
    }

    /// The open leaves that cost less than the best, in preorder.
    pub fn open_leaves(&self) -> Result<Vec<Leaf>, AllocError> {
        let mut leaves = Vec::new(self.alloc);
        let mut due = Vec::new(self.alloc);
        due.push(0_usize)?;
        for _ in 0..self.nodes.len() {
            let Some(node) = due.pop() else {
                return Ok(leaves);
            };
            let Some(grown) = self.nodes.get(node) else {
                continue;
            };
            if let Some(below) = grown.below.get() {
                due.push(below.saturating_add(1))?;
                due.push(below)?;
            } else if grown.is_open && grown.cost < self.best.cost {
                let cost = grown.cost;
                leaves.push(Leaf { cost, node })?;
            }
        }
        Ok(leaves)
    }

    /// Branches at an open leaf that costs less than the best, and gives its first child, which the second follows.
    fn expand(&mut self, scout: &mut Scout<'_>, node: usize) -> Result<Option<usize>, AllocError> {
        if self.open_at(node).is_none() {
            return Ok(None);
        }
        let Some(number) = self.choice_at(scout, node)? else {
            // A cycle, or nothing is violated: it was no open leaf.
            self.close(node);
            return Ok(None);
        };
        let below = self.branch(node, number)?;
        self.try_children(scout, number, below)?;
        self.expanded = self.expanded.saturating_add(1);
        Ok(Some(below))
    }

    /// Looks at both children of the node where the scout stands, and learns what its choice gains.
    fn try_children(
        &mut self,
        scout: &mut Scout<'_>,
        number: usize,
        below: usize,
    ) -> Result<(), AllocError> {
        let cost = scout.cost();
        let beside = below.saturating_add(1);
        // The second first, so that the scout then stands at the first.
        let second = self.child(scout, beside)?;
        if self.here.last() == Some(&beside) {
            self.go_up(scout)?;
        }
        let first = self.child(scout, below)?;
        self.learn(scout, number, Gains::over(cost, first, second))
    }

    /// Goes to a leaf, and gives the violated choice that promises most there.
    fn choice_at(
        &mut self,
        scout: &mut Scout<'_>,
        node: usize,
    ) -> Result<Option<usize>, AllocError> {
        if self.go_to(scout, node)? {
            self.choice_here(scout)
        } else {
            Ok(None)
        }
    }

    fn close(&mut self, node: usize) {
        if let Some(grown) = self.nodes.get_mut(node) {
            grown.is_open = false;
        }
    }

    /// Goes down to a child, and gives what it costs.
    fn child(&mut self, scout: &mut Scout<'_>, node: usize) -> Result<Cost, AllocError> {
        if !self.go_down(scout, node)? {
            return Ok(Cost::MAX);
        }
        self.look(scout, node)?;
        Ok(scout.cost())
    }

    /// The violated choice that promises most where the scout stands, the first of those that promise the same.
    fn choice_here(&mut self, scout: &mut Scout<'_>) -> Result<Option<usize>, AllocError> {
        self.scores.follow(scout, &self.tried_gains)?;
        for _ in 0..scout.choices().len().saturating_add(1) {
            let Some(i) = self.scores.top() else {
                return Ok(None);
            };
            if let Some(gains) = self.tried_gains.get(i) {
                let cap = gain(self.best.cost.saturating_sub(scout.cost()));
                return if gains.larger() > cap {
                    self.most_under(scout, cap)
                } else {
                    Ok(Some(i))
                };
            }
            let gains = try_both(scout, i);
            self.scores.follow(scout, &self.tried_gains)?;
            self.learn(scout, i, gains)?;
        }
        Ok(None)
    }

    /// Enters the gains of a choice.
    pub fn learn(
        &mut self,
        scout: &Scout<'_>,
        number: usize,
        gains: Gains,
    ) -> Result<(), AllocError> {
        let before = self.tried_gains.set(number, gains);
        self.scores.look_at(scout, &self.tried_gains, number);
        self.changes.push(Change {
            number,
            gains,
            before,
        })?;
        Ok(())
    }

    /// Forgets all gains but the first so many.
    pub fn forget(&mut self, scout: &Scout<'_>, many: usize) {
        for _ in many..self.changes.len() {
            if let Some(change) = self.changes.pop() {
                let _after = self.tried_gains.set(change.number, change.before);
                self.scores.look_at(scout, &self.tried_gains, change.number);
            }
        }
    }

    /// The violated choice that promises most where no gain counts for more than a cap.
    fn most_under(&self, scout: &mut Scout<'_>, cap: u64) -> Result<Option<usize>, AllocError> {
        let mut most = None;
        for i in scout.violated()? {
            let promise = match self.tried_gains.get(*i) {
                Some(gains) => gains.promise(cap),
                None => 0,
            };
            most = match most {
                Some((p, j)) if p > promise || (p == promise && j < *i) => Some((p, j)),
                _ => Some((promise, *i)),
            };
        }
        match most {
            Some((_, i)) => Ok(Some(i)),
            None => Ok(None),
        }
    }

    /// Brings the scout to a node, through what both places have in common. It is false where a decision makes a cycle.
    fn go_to(&mut self, scout: &mut Scout<'_>, node: usize) -> Result<bool, AllocError> {
        if self.here.last() == Some(&node) {
            return Ok(true);
        }
        let way = self.way_to(node)?;
        let common = common_front(&self.here, &way);
        for _ in common..self.here.len() {
            self.go_up(scout)?;
        }
        for next in &way[common..] {
            if !self.go_down(scout, *next)? {
                return Ok(false);
            }
        }
        Ok(true)
    }

    /// The nodes from below the root down to a node.
    fn way_to(&self, node: usize) -> Result<Vec<usize>, AllocError> {
        let mut way = Vec::new(self.alloc);
        let mut at = node;
        for _ in 0..self.nodes.len() {
            let Some(grown) = self.nodes.get(at) else {
                break;
            };
            if grown.depth.index() == 0 {
                break;
            }
            way.push(at)?;
            at = grown.parent.index();
        }
        way.reverse();
        Ok(way)
    }

    /// Goes up to one of the first so many nodes.
    pub fn leave(&mut self, scout: &mut Scout<'_>, many: usize) -> Result<(), AllocError> {
        for _ in 0..self.here.len() {
            match self.here.last() {
                Some(node) if *node >= many => self.go_up(scout)?,
                _ => return Ok(()),
            }
        }
        Ok(())
    }

    fn go_up(&mut self, scout: &mut Scout<'_>) -> Result<(), AllocError> {
        let Some(node) = self.here.pop() else {
            return Ok(());
        };
        match self.nodes.get(node) {
            Some(grown) => scout.undecide(grown.number.index()),
            None => Ok(()),
        }
    }

    /// Goes down to a child. It is false where that makes a cycle: then the scout stays.
    fn go_down(&mut self, scout: &mut Scout<'_>, node: usize) -> Result<bool, AllocError> {
        let Some(grown) = self.nodes.get(node).copied() else {
            return Ok(false);
        };
        if !scout.decide(grown.number.index(), grown.side)? {
            return Ok(false);
        }
        self.here.push(node)?;
        Ok(true)
    }

    /// What the tree says.
    pub fn told(&self, scout: &Scout<'_>) -> Result<Guide, AllocError> {
        let mut hints = Vec::new(self.alloc);
        for grown in &self.nodes {
            let choice = match grown.choice.get() {
                Some(i) => scout.choice(i),
                None => None,
            };
            hints.push(Hint {
                choice,
                below: grown.below.get(),
            })?;
        }
        Ok(Guide {
            path: Vec::from_slice(self.alloc, &self.best.path)?,
            hints,
        })
    }
}

/// Whether one leaf is expanded before another that is more to the right.
fn is_before(one: Leaf, other: Leaf) -> bool {
    one.cost < other.cost || (one.cost == other.cost && one.node > other.node)
}

/// How many nodes two ways have in common at the front.
fn common_front(one: &[usize], other: &[usize]) -> usize
    ensures { result ≤ length other.now }
{
    let shorter = one.len().min(other.len());
    for k in 0..shorter {
        if one[k] != other[k] {
            return k;
        }
    }
    shorter
}
