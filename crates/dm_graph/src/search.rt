//! The search for an order or a cycle.

ghost use Rattle.std.specs.Prelude.{◌≡◌, ◌<◌, ◌≤◌, [], length, IfOk, OnOk, OnErr};
ghost use Rattle.dm_graph.specs.Arcs.{Arcs, IsOrder, IsCycle};
ghost use Rattle.dm_graph.specs.Arrays.{AreArcRows, AreEnds, AreArraysOf, AreRanks};

use crate::walk::{ArcsByHead, Walk};
use std::alloc::{AllocError, Global};
use std::marker::Model;

/// The arcs that are held to have a cycle.
#[derive(Clone, Copy, Debug, PartialEq, Eq)]
pub struct Cyclic;

/// The arrays that a search works on, with what it found last.
pub struct Search {
    walk: Walk,
    cycle: Vec<usize>,
    closed: usize,
}

impl Drop for Search {
    fn drop(self) {
        let Search {
            walk: _,
            cycle: _,
            closed: _,
        } = self;
    }
}

impl Model for Search {
    ghost use Rattle.std.specs.Prelude.{length, take, ◌≡◌, ◌≤◌};
    ghost use Rattle.dm_graph.specs.Findings.{Findings};

    ghost Value = { Findings };

    ghost use Rattle.dm_graph.specs.Inside.Walk.{HasEvenLists};

    ghost view = { λ s. record { order = s.walk.order.items; ranks = s.walk.rank.items; cycle = take s.closed s.cycle.items } };

    ghost invariant = { λ s.
        HasEvenLists s.walk × (length s.cycle.items ≡ length s.walk.order.items) × (s.closed ≤ length s.cycle.items) };
}

impl Search {
    /// Room to search graphs of so many events.
    pub fn new(alloc: Global, events: usize) -> Result<Self, AllocError>
        ensures { IfOk result (λ s. length s.order ≡ events) }
    {
        let walk = Walk::new(alloc, events)?;
        let cycle = vec![in alloc; 0; events]?;
        Ok(Search {
            walk,
            cycle,
            closed: 0,
        })
    }

    /// How many events there is room for.
    pub fn events(&self) -> usize
        ensures { result ≡ length self.now.order }
    {
        self.walk.order.len()
    }

    /// Searches for an order of all events in which each arc that is held to goes forward, or for a cycle of such arcs.
    /// `tails` and `held` go by arc; the arcs into an event stand in `places`, from the event's offset up to the next one's.
    /// It takes no memory, and its time is linear in events and arcs.
    pub fn search(
        &mut self,
        tails: &[usize],
        offsets: &[usize],
        places: &[usize],
        held: &[bool],
    ) -> Result<(), Cyclic>
        requires rows { AreArcRows (length self.old.order) (length tails.now) offsets.now places.now }
        requires ends { AreEnds (length self.old.order) (length tails.now) tails.now held.now }
        ensures room { length self.new.order ≡ length self.old.order }

        // The arrays do not have the heads: what is found holds for any arcs that they give.
        ensures order { OnOk result ((g : Arcs) → AreArraysOf g tails.now offsets.now places.now held.now → IsOrder g self.new.order) }
        ensures ranks { OnOk result (AreRanks (length self.new.order) self.new.order self.new.ranks) }
        ensures none { OnOk result (self.new.cycle ≡ []) }
        ensures cycle { OnErr result ((g : Arcs) → AreArraysOf g tails.now offsets.now places.now held.now → IsCycle g self.new.cycle) }
    {
        self.closed = 0;
        let by_head = ArcsByHead {
            tails,
            offsets,
            places,
            held,
        };
        match self.walk.place_all(&by_head) {
            Ok(()) => Ok(()),
            Err(last) => {
                self.closed = self.walk.write_arcs(last, places, &mut self.cycle);
                Err(Cyclic)
            }
        }
    }

    /// The order that the last search found.
    pub fn order(&self) -> &[usize]
        ensures { result.now ≡ self.now.order }
    {
        &self.walk.order
    }

    /// The place of each event in that order.
    pub fn ranks(&self) -> &[usize]
        ensures { result.now ≡ self.now.ranks }
    {
        &self.walk.rank
    }

    /// The arcs of the cycle that the last search found.
    pub fn cycle(&self) -> &[usize]
        ensures { result.now ≡ self.now.cycle }
    {
        &self.cycle[..self.closed]
    }
}
