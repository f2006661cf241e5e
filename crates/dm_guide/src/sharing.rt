//! A tree that several searchers expand in rounds.

use crate::found::Found;
use crate::growing::{Change, Grown, Leaf, Tree};
use crate::parts::{Leaves, Part, Placed};
use crate::rounds::{Round, Work, play};
use crate::searchers::{Searcher, go_back};
use dm_base::Cost;
use dm_scout::{NOWHERE, Place, Scout};
use dm_task::Guide;
use dm_tree::Node;
use std::alloc::{AllocError, Global};
use std::mem::replace;

/// How many nodes are expanded best first before the rounds, and how few are left for the last round.
const FIRST: u64 = 16;

/// A round of fewer leaves than this is the first searcher's alone.
const ALONE: usize = 64;

/// What others than the first searcher are told of the tree.
pub struct Known {
    /// What has become of the leaves that were expanded since they were told last, and the nodes that have come since.
    expanded: Vec<Placed>,
    added: Vec<Grown>,

    /// The gains that have come since then.
    changes: Vec<Change>,
    best: Cost,
}

impl Drop for Known {
    fn drop(self) {
        let Known {
            expanded: _,
            added: _,
            changes: _,
            best: _,
        } = self;
    }
}

impl Known {
    fn nothing(alloc: Global) -> Known {
        Known {
            expanded: Vec::new(alloc),
            added: Vec::new(alloc),
            changes: Vec::new(alloc),
            best: 0,
        }
    }
}

/// The tree of at most `budget` nodes that grows from the nodes of a tree in preorder, and the best choices that it meets. The
/// first searcher stands at the root.
pub fn grow<'t, F: Fn(&Round, &mut Searcher<'t>, &mut [Searcher<'t>])>(
    first: &mut Searcher<'t>,
    others: &mut [Searcher<'t>],
    run: &F,
    nodes: &[Node],
    best: Found,
    budget: u64,
) -> Result<Guide, AllocError>
    requires { F.IsAlwaysCallable run.now }
{
    first.tree.begin(&mut first.scout, nodes, best)?;
    let many = FIRST.min(first.tree.left(budget));
    first.tree.expand_first(&mut first.scout, many)?;
    first.tree.note_gains()?;
    go_on(first, others, run, budget)?;
    first.tree.told(&first.scout)
}

/// Expands the rest in rounds, each down to a limit of costs.
fn go_on<'t, F: Fn(&Round, &mut Searcher<'t>, &mut [Searcher<'t>])>(
    first: &mut Searcher<'t>,
    others: &mut [Searcher<'t>],
    run: &F,
    budget: u64,
) -> Result<(), AllocError>
    requires { F.IsAlwaysCallable run.now }
{
    for _ in 0..budget {
        let open = first.tree.open_leaves()?;
        let left = first.tree.left(budget);
        if left == 0 || open.is_empty() {
            return Ok(());
        }
        let many = if left <= FIRST {
            left
        } else {
            many_of(first.tree.expanded(), left)
        };
        let round = round_of(first, others, &open, many, left)?;
        play(first, others, run, &round)?;
        merge(first, others)?;
    }
    Ok(())
}

/// How many leaves a round before the last expands, where so many nodes were expanded and so many may still be.
fn many_of(expanded: u64, left: u64) -> u64 {
    (left / 2).min(expanded.saturating_add(1) / 2)
}

/// A round that expands so many leaves, where so many nodes may still be expanded. In the last round nothing below them is.
fn round_of(
    first: &mut Searcher<'_>,
    others: &[Searcher<'_>],
    open: &[Leaf],
    many: u64,
    left: u64,
) -> Result<Round, AllocError> {
    let chosen = cheapest(first.alloc, open, many.max(1))?;
    let limit = if many < left { chosen.limit } else { 0 };
    let parts = if chosen.nodes.len() < ALONE {
        1
    } else {
        others.len().saturating_add(1)
    };
    let known = first.tree.known(&chosen.nodes, parts > 1)?;
    let work = Work::Leaves(Leaves::new(chosen.nodes, limit, left, known));
    Ok(Round { parts, work })
}

/// Has the first searcher take in what all have expanded, one part after the other.
fn merge<'t>(first: &mut Searcher<'t>, others: &mut [Searcher<'t>]) -> Result<(), AllocError> {
    let before = first.tree.nodes.len();
    let parts = all_parts(first, others)?;
    for number in 0..parts.len() {
        take_in(first, &parts, number, before)?;
    }
    Ok(())
}

/// The parts that the searchers have expanded.
fn all_parts<'t>(
    first: &mut Searcher<'t>,
    others: &mut [Searcher<'t>],
) -> Result<Vec<Part>, AllocError> {
    let mut all = replace(&mut first.parts, Vec::new(first.alloc));
    for k in 0..others.len() {
        let other = &mut others[k];
        let parts = replace(&mut other.parts, Vec::new(other.alloc));
        for part in parts {
            all.push(part)?;
        }
    }
    Ok(all)
}

/// Has the first searcher take in the part of a number.
fn take_in(
    first: &mut Searcher<'_>,
    parts: &[Part],
    number: usize,
    before: usize,
) -> Result<(), AllocError> {
    for part in parts {
        if part.number == number {
            first.tree.take_in(&first.scout, part, before)?;
        }
    }
    Ok(())
}

impl Tree {
    /// Has the gains of all choices told, where others are to know them.
    fn note_gains(&mut self) -> Result<(), AllocError> {
        if self.tells {
            self.changes.clear();
            for number in 0..self.tried_gains.len() {
                if let Some(gains) = self.tried_gains.get(number) {
                    self.changes.push(Change {
                        number,
                        gains,
                        before: gains,
                    })?;
                }
            }
        }
        Ok(())
    }

    /// What others are to know of the tree when a round begins in which these leaves are expanded.
    fn known(&mut self, chosen: &[usize], is_told: bool) -> Result<Known, AllocError> {
        let known = if is_told {
            self.news()?
        } else {
            Known::nothing(self.alloc)
        };
        if is_told || !self.tells {
            self.told = self.nodes.len();
            self.fresh.clear();
            self.changes.clear();
        }
        for node in chosen {
            self.fresh.push(*node)?;
        }
        Ok(known)
    }

    /// What has come since others were told last.
    fn news(&self) -> Result<Known, AllocError> {
        Ok(Known {
            expanded: self.placed(&self.fresh)?,
            added: self.nodes_from(self.told)?,
            changes: Vec::from_slice(self.alloc, &self.changes)?,
            best: self.best.cost,
        })
    }

    /// Comes to know the tree as it is when a round begins.
    pub fn follow(&mut self, scout: &mut Scout<'_>, known: &Known) -> Result<(), AllocError> {
        if self.nodes.is_empty() {
            go_back(scout)?;
            scout.note_violated()?;
        }
        self.place(&known.expanded);
        for node in &known.added {
            self.nodes.push(*node)?;
        }
        self.best.cost = known.best;
        self.learn_all(scout, &known.changes)?;
        self.changes.clear();
        Ok(())
    }

    /// Comes to know the gains that another searcher has told.
    pub fn learn_of(&mut self, scout: &Scout<'_>, other: &Tree) -> Result<(), AllocError> {
        self.learn_all(scout, &other.changes)
    }
}

impl Grown {
    /// The same where the nodes from a place on stand further behind.
    pub fn shifted(&self, before: usize, shift: usize) -> Grown {
        let mut grown = *self;
        grown.parent = Place::of(shifted(grown.parent.index(), before, shift));
        grown.below = match grown.below.get() {
            Some(below) => Place::of(shifted(below, before, shift)),
            None => NOWHERE,
        };
        grown
    }
}

/// A node's number where those from a place on stand further behind.
fn shifted(node: usize, before: usize, shift: usize) -> usize {
    if node < before {
        node
    } else {
        node.saturating_add(shift)
    }
}

/// Leaves in preorder, and what the dearest of them costs.
#[derive(Drop)]
struct Chosen {
    nodes: Vec<usize>,
    limit: Cost,
}

/// So many of these leaves that cost least, of those that cost the same the first.
fn cheapest(alloc: Global, leaves: &[Leaf], many: u64) -> Result<Chosen, AllocError> {
    let mut costs = Vec::new(alloc);
    for leaf in leaves {
        costs.push(leaf.cost)?;
    }
    let many = many.min(costs.len() as u64) as usize;
    let limit = nth_least(&mut costs, many.saturating_sub(1));
    let mut ties = many;
    for leaf in leaves {
        if leaf.cost < limit {
            ties = ties.saturating_sub(1);
        }
    }
    at_most(alloc, leaves, limit, ties)
}

/// The cost that as many others are not above, or 0 where there are not so many.
fn nth_least(costs: &mut [Cost], many: usize) -> Cost {
    if many >= costs.len() {
        return 0;
    }
    let (_below, nth, _above) = costs.select_nth_unstable(many);
    *nth
}

/// The leaves that cost less than a limit, and the first so many of those that cost just that.
fn at_most(alloc: Global, leaves: &[Leaf], limit: Cost, ties: usize) -> Result<Chosen, AllocError> {
    let mut nodes = Vec::new(alloc);
    let mut left = ties;
    for leaf in leaves {
        if leaf.cost < limit {
            nodes.push(leaf.node)?;
        } else if leaf.cost == limit && left > 0 {
            left = left.saturating_sub(1);
            nodes.push(leaf.node)?;
        }
    }
    Ok(Chosen { nodes, limit })
}
