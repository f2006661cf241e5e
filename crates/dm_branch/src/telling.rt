//! What a part's tree says, over the terms that it moves.

use crate::growing::Tree;
use dm_base::{Cost, Secs};
use dm_probe::{Arrival, Connection, Mover, Share};
use dm_rows::Choice;
use std::alloc::AllocError;

/// A node of a part's tree.
#[derive(Clone, Copy)]
pub enum TreeNode {
    /// It branches on a choice.
    Inner(Choice),

    /// Its path makes a cycle.
    Cycle,

    /// What the share costs there.
    Leaf(Cost),
}

/// The terms that some leaf moves, in ascending order of places, and the tree in preorder with what they cost at its leaves.
pub struct PartTree {
    pub share: Share,
    pub nodes: Vec<TreeNode>,

    /// What the share costs at the root, and the least that it costs at a leaf.
    pub root: Cost,
    pub bound: Cost,
}

impl Drop for PartTree {
    fn drop(self) {
        let PartTree {
            share: _,
            nodes: _,
            root: _,
            bound: _,
        } = self;
    }
}

/// Which terms of a share some leaf moves, with their times at the root.
struct Moved {
    times: Vec<Secs>,
    arrivals: Vec<bool>,
    earliest: Vec<Secs>,
    connections: Vec<bool>,
}

impl Drop for Moved {
    fn drop(self) {
        let Moved {
            times: _,
            arrivals: _,
            earliest: _,
            connections: _,
        } = self;
    }
}

impl Tree {
    /// The tree over all these terms, where it has more than one node. The mover stands at the root, with no share loaded, before
    /// and after.
    pub fn tell(
        &mut self,
        all: &Share,
        mover: &mut Mover<'_>,
    ) -> Result<Option<PartTree>, AllocError> {
        if self.size() == 0 {
            return Ok(None);
        }
        let order = self.preorder()?;
        let share = self.moved_share(all, mover, &order)?;
        mover.load(&share)?;
        let mut tree = PartTree {
            share,
            nodes: Vec::new(self.alloc),
            root: mover.share_cost(),
            bound: Cost::MAX,
        };
        for node in &order {
            self.tell_node(mover, *node, &mut tree)?;
        }
        self.leave(mover);
        mover.unload(&tree.share);
        Ok(Some(tree))
    }

    fn tell_node(
        &mut self,
        mover: &mut Mover<'_>,
        node: usize,
        tree: &mut PartTree,
    ) -> Result<(), AllocError> {
        let grown = self.nodes.get(node).copied();
        let number = grown.and_then(|grown| grown.choice);
        if let Some(free) = number.and_then(|i| mover.choices().get(i)) {
            tree.nodes.push(TreeNode::Inner(free.choice))?;
        } else if !self.go_to(mover, node)? {
            tree.nodes.push(TreeNode::Cycle)?;
        } else {
            let cost = mover.share_cost();
            tree.bound = tree.bound.min(cost);
            tree.nodes.push(TreeNode::Leaf(cost))?;
        }
        Ok(())
    }

    /// The terms that some leaf moves.
    fn moved_share(
        &mut self,
        all: &Share,
        mover: &mut Mover<'_>,
        order: &[usize],
    ) -> Result<Share, AllocError> {
        mover.settle();
        let mut moved = self.at_root(all, mover)?;
        for node in order {
            if self.is_leaf(*node) && self.go_to(mover, *node)? {
                mover.settle();
                note_arrivals(all, mover, &mut moved);
                note_connections(all, mover, &mut moved);
            }
        }
        self.leave(mover);
        self.note_branched(all, &mut moved);
        let mut share = Share::new(self.alloc);
        add_arrivals(&all.arrivals, &moved, &mut share)?;
        add_connections(&all.connections, &moved, &mut share)?;
        share.arrivals.sort_unstable_by_key(|arrival| arrival.event);
        share
            .connections
            .sort_unstable_by_key(|connection| connection.act);
        Ok(share)
    }

    /// Whether a node is a leaf whose path makes no cycle.
    fn is_leaf(&self, node: usize) -> bool {
        match self.nodes.get(node) {
            Some(grown) => grown.choice.is_none() && !grown.is_cycle,
            None => false,
        }
    }

    /// Nothing has moved: the times at the root.
    fn at_root(&self, all: &Share, mover: &Mover<'_>) -> Result<Moved, AllocError> {
        let mut times = Vec::new(self.alloc);
        for arrival in &all.arrivals {
            times.push(mover.time(arrival.event).max(arrival.due))?;
        }
        let mut earliest = Vec::new(self.alloc);
        for connection in &all.connections {
            earliest.push(mover.earliest(connection.act))?;
        }
        Ok(Moved {
            arrivals: vec![in self.alloc; false; times.len()]?,
            times,
            connections: vec![in self.alloc; false; earliest.len()]?,
            earliest,
        })
    }

    /// Notes the changes on which the tree branches.
    fn note_branched(&self, all: &Share, moved: &mut Moved) {
        for (k, connection) in all.connections.iter().enumerate() {
            if connection.number.is_some() && self.branches_on(connection.number) {
                note(&mut moved.connections, k);
            }
        }
    }

    fn branches_on(&self, number: Option<usize>) -> bool {
        self.nodes.iter().any(|grown| grown.choice == number)
    }
}

/// Notes the arrivals that are later where the mover stands.
fn note_arrivals(all: &Share, mover: &Mover<'_>, moved: &mut Moved) {
    for (k, arrival) in all.arrivals.iter().enumerate() {
        let before = moved.times.get(k).copied().unwrap_or(0);
        if mover.time(arrival.event) > before {
            note(&mut moved.arrivals, k);
        }
    }
}

/// Notes the changes that may be missed and whose tail is later where the mover stands.
fn note_connections(all: &Share, mover: &Mover<'_>, moved: &mut Moved) {
    for (k, connection) in all.connections.iter().enumerate() {
        let before = moved.earliest.get(k).copied().unwrap_or(0);
        if connection.number.is_none() && mover.earliest(connection.act) > before {
            note(&mut moved.connections, k);
        }
    }
}

fn note(flags: &mut [bool], k: usize) {
    if let Some(flag) = flags.get_mut(k) {
        *flag = true;
    }
}

fn add_arrivals(arrivals: &[Arrival], moved: &Moved, share: &mut Share) -> Result<(), AllocError> {
    for (arrival, is_moved) in arrivals.iter().zip(moved.arrivals.iter()) {
        if *is_moved {
            share.arrivals.push(*arrival)?;
        }
    }
    Ok(())
}

fn add_connections(
    connections: &[Connection],
    moved: &Moved,
    share: &mut Share,
) -> Result<(), AllocError> {
    for (connection, is_moved) in connections.iter().zip(moved.connections.iter()) {
        if *is_moved {
            share.connections.push(*connection)?;
        }
    }
    Ok(())
}
