//! The cycle that a new activity closes.
ghost use Rattle.std.specs.Prelude.{◌≡◌, ◌+◌, ◌∷◌, ◌<◌, ◌≤◌, true, drop, length, slice_index, IsTrue, IfOk};
ghost use Rattle.dm_graph.specs.Arrays.{AreRanks};
ghost use Rattle.dm_network.specs.Net.{activity_at};
ghost use Rattle.dm_network.specs.Held.{is_held, IsCycleOf};
ghost use Rattle.dm_order.specs.Inside.Reaching.{HasReached, is_reached};

use dm_network::Network;
use std::alloc::{AllocError, Global};

/// Activities, each head the next tail: those in `arcs` from `start` on.
#[derive(Drop)]
pub struct Way {
    pub arcs: Vec<usize>,
    pub start: usize,
}

impl Way {
    /// Room for as many activities as there are events, and none yet.
    pub fn new(alloc: Global, events: usize) -> Result<Way, AllocError>
        ensures room { IfOk result (λ way. length way.arcs.items ≡ events) }
        ensures start { IfOk result (λ way. way.start ≤ length way.arcs.items) }
    {
        let arcs = vec![in alloc; 0; events]?;
        Ok(Way { arcs, start: 0 })
    }

    /// Writes the cycle of an activity and the way back from its head to its tail, which was reached.
    pub fn close(
        &mut self,
        net: &Network,
        held: &[bool],
        order: &[usize],
        ranks: &[usize],
        causes: &[Option<usize>],
        first: usize,
    )
        requires ranked { AreRanks (length net.now.events) order.now ranks.now }
        requires room { length self.old.arcs.items ≡ length net.now.events }
        requires is_activity { first < length net.now.activities }
        requires holds { IsTrue (is_held held.now first) }
        requires backward { slice_index ranks.now (activity_at net.now first).head ≤ slice_index ranks.now
            (activity_at net.now first).tail }
        requires reached { HasReached net.now held.now ranks.now (slice_index ranks.now (activity_at net.now first).head)
            (slice_index ranks.now (activity_at net.now first).tail) (slice_index ranks.now (activity_at net.now first).tail) causes.now }
        requires tail_reached { is_reached causes.now (slice_index ranks.now (activity_at net.now first).tail) ≡ true }
        ensures cycle { IsCycleOf net.now (is_held held.now) (drop self.new.start self.new.arcs.items) }
        ensures as_many { length self.new.arcs.items ≡ length self.old.arcs.items }
        ensures within { self.new.start ≤ length self.new.arcs.items }
    {
        net.reveal();
        self.start = self.arcs.len();
        let low = ranks[net.activity(first).head];
        let mut event = net.activity(first).tail;
        while low < ranks[event] {
            let Some(a) = causes[ranks[event]] else {
                unreachable!();
            };
            self.put(a);
            event = net.activity(a).tail;
        }
        self.put(first);
    }

    /// Puts an activity in front.
    fn put(&mut self, a: usize)
        requires some { 0 < self.old.start }
        requires within { self.old.start ≤ length self.old.arcs.items }
        ensures start { self.new.start + 1 ≡ self.old.start }
        ensures arcs { drop self.new.start self.new.arcs.items ≡ a ∷ drop self.old.start self.old.arcs.items }
        ensures as_many { length self.new.arcs.items ≡ length self.old.arcs.items }
    {
        self.start -= 1;
        self.arcs[self.start] = a;
    }
}
