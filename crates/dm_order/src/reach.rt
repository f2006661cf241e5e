//! Which events in an interval of places the held activities lead to.
ghost use Rattle.std.specs.Prelude.{◌≡◌, ◌<◌, ◌≤◌, length, slice_index, IfOk};
ghost use Rattle.dm_graph.specs.Arrays.{AreRanks};
ghost use Rattle.dm_network.specs.Net.{places_out_of};
ghost use Rattle.dm_order.specs.Inside.Reaching.{followed, followed_all, HasReached, IsCleared};

use dm_base::Steps;
use dm_network::Network;
use std::alloc::{AllocError, Global};
use std::marker::Brand;
use std::sync::ledger::{Blank, Ledger};

/// The events in an order, and the place of each.
#[derive(Clone, Copy)]
pub struct Ranked<'o> {
    pub order: &'o [usize],
    pub ranks: &'o [usize],
}

/// By which activity the event at each place was reached, or `None`.
#[derive(Drop)]
pub struct Reach {
    pub causes: Vec<Option<usize>>,
}

impl Reach {
    /// Room for the causes of so many events.
    pub fn new(alloc: Global, events: usize) -> Result<Reach, AllocError>
        ensures { IfOk result (λ reach. length reach.causes.items ≡ events) }
    {
        let causes = vec![in alloc; None; events]?;
        Ok(Reach { causes })
    }

    /// Reaches, from the event at a low place on, every event up to a high place that held activities lead to by later and
    /// later places. Places outside are left as they are.
    pub fn reach(
        &mut self,
        net: &Network,
        held: &[bool],
        ranked: &Ranked<'_>,
        low: usize,
        high: usize,
        first: usize,
    )
        requires flags { length held.now ≡ length net.now.activities }
        requires ranked { AreRanks (length net.now.events) ranked.now.order.now ranked.now.ranks.now }
        requires room { length self.old.causes.items ≡ length net.now.events }
        requires interval { low ≤ high }
        requires within { high < length net.now.events }
        ensures { HasReached net.now held.now ranked.now.ranks.now low high high self.new.causes.items }
    {
        net.reveal();
        self.clear(low, high, first);
        for place in low..high {
            if self.causes[place].is_some() {
                self.follow_all::<Brand>(net, held, ranked, place, high, Blank::new(1));
            }
        }
    }

    /// Forgets the events from a low place up to a high one, but the one at the low place, reached by this activity.
    fn clear(&mut self, low: usize, high: usize, first: usize)
        requires interval { low ≤ high }
        requires within { high < length self.old.causes.items }
        ensures { IsCleared low high first self.old.causes.items self.new.causes.items }
    {
        for place in low..high {
            self.causes[place + 1] = None;
        }
        self.causes[low] = Some(first);
    }

    /// Reaches what the held activities out of the event at a place lead to, up to a high place, for a ledger that nothing reads.
    fn follow_all<L: Ledger>(
        &mut self,
        net: &Network,
        held: &[bool],
        ranked: &Ranked<'_>,
        at: usize,
        high: usize,
        blank: Blank,
    )
        requires name { blank.name ≡ L.name }
        requires parts { blank.parts ≡ L.parts }
        requires has_a_part { 0 < blank.parts }
        requires flags { length held.now ≡ length net.now.activities }
        requires ranked { AreRanks (length net.now.events) ranked.now.order.now ranked.now.ranks.now }
        requires within { high < length self.old.causes.items }
        requires is_place { at < length net.now.events }
        ensures causes { self.new.causes.items ≡ followed_all net.now held.now ranked.now.ranks.now at high self.old.causes.items
            (places_out_of net.now (slice_index ranked.now.order.now at)) }
        ensures as_many { length self.new.causes.items ≡ length self.old.causes.items }
    {
        let mut steps = Steps::<L>::new(blank);
        net.reveal();
        for a in net.out_row(ranked.order[at], &mut steps) {
            self.follow(net, held, ranked.ranks, at, high, *a);
        }
    }

    /// Reaches the head of an activity, if it is held and leads to a later place up to the high one.
    fn follow(
        &mut self,
        net: &Network,
        held: &[bool],
        ranks: &[usize],
        at: usize,
        high: usize,
        a: usize,
    )
        requires flags { length held.now ≡ length net.now.activities }
        requires ranks { length ranks.now ≡ length net.now.events }
        requires within { high < length self.old.causes.items }
        requires is_activity { a < length net.now.activities }
        ensures causes { self.new.causes.items ≡ followed net.now held.now ranks.now at high self.old.causes.items a }
        ensures as_many { length self.new.causes.items ≡ length self.old.causes.items }
    {
        net.reveal();
        let place = ranks[net.activity(a).head];
        if held[a] && at < place && place <= high {
            self.causes[place] = Some(a);
        }
    }
}
