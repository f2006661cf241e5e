//! The list of the events, and how it is moved.
ghost use Rattle.std.specs.Prelude.{◌≡◌, ◌<◌, ◌≤◌, length, All, IsTrue, ◌↔◌, IfOk, IfErr, IfNone, IfSome, OnOk, OnErr};
ghost use Rattle.dm_network.specs.Held.{is_held, IsCycleOf};
ghost use Rattle.dm_order.specs.Orders.{GoesForward, GoForward};
ghost use Rattle.dm_order.specs.Inside.Placing.{AreLists, IsBehind, IsForwardOrAlike, HasSameEnds, GoForwardOrAlike, GoForwardBut, cycle_in, RefusesLists};

use crate::faults::OrderFault;
use crate::reach::{Ranked, Reach};
use crate::shift::Places;
use crate::way::Way;
use dm_graph::search::{Cyclic, Search};
use dm_network::Network;
use std::alloc::Global;

/// The events in their order, and the room in which they are moved.
pub struct Lists {
    pub places: Places,
    pub reach: Reach,
    pub way: Way,
    pub search: Search,

    /// Whether the search, and not the way, has the cycle that was found last.
    pub by_search: bool,
}

impl Drop for Lists {
    fn drop(self) {
        let Lists {
            places: _,
            reach: _,
            way: _,
            search: _,
            by_search: _,
        } = self;
    }
}

impl Lists {
    /// The events in an order of the held activities.
    pub fn ordered(alloc: Global, net: &Network, held: &[bool]) -> Result<Lists, OrderFault>
        requires { length held.now ≡ length net.now.activities }
        ensures lists { IfOk result (AreLists net.now) }
        ensures forward { IfOk result (λ lists. GoForward net.now held.now lists.places.ranks.items) }
        ensures refused { IfErr result (RefusesLists net.now held.now) }
    {
        net.reveal();
        let mut search = Search::new(alloc, net.events())?;
        let reach = Reach::new(alloc, net.events())?;
        let way = Way::new(alloc, net.events())?;
        match net.search(held, &mut search) {
            Ok(()) => {
                let places = Places::copied(alloc, search.order(), search.ranks())?;
                Ok(Lists {
                    places,
                    reach,
                    way,
                    search,
                    by_search: true,
                })
            }
            Err(Cyclic) => Err(OrderFault::Cyclic),
        }
    }

    /// Moves the events so that each held activity goes forward; those besides `arcs` do already. A cycle of held
    /// activities is the error, and leaves the events where they are.
    pub fn move_for(&mut self, net: &Network, held: &[bool], arcs: &[usize]) -> Result<(), Cyclic>
        requires flags { length held.now ≡ length net.now.activities }
        requires lists { AreLists net.now self.old }
        requires are_activities { All (λ a. a < length net.now.activities) arcs.now }
        requires are_held { All (λ a. IsTrue (is_held held.now a)) arcs.now }
        requires others { GoForwardBut net.now held.now arcs.now self.old.places.ranks.items }
        ensures lists { AreLists net.now self.new }
        ensures forward { OnOk result (GoForward net.now held.now self.new.places.ranks.items) }
        ensures same_order { OnErr result (self.new.places.order.items ≡ self.old.places.order.items) }
        ensures same_ranks { OnErr result (self.new.places.ranks.items ≡ self.old.places.ranks.items) }
        ensures cycle { OnErr result (IsCycleOf net.now (is_held held.now) (cycle_in self.new)) }
        ensures cycle_stays { OnOk result (length arcs.now ≤ 1 → cycle_in self.new ≡ cycle_in self.old) }
    {
        match self.first_behind(net, arcs) {
            None => Ok(()),
            Some(first) => {
                if self.are_alike(net, arcs, first) {
                    self.sweep(net, held, first)
                } else {
                    self.search_anew(net, held)
                }
            }
        }
    }

    /// The first of these activities that does not go forward.
    fn first_behind(&self, net: &Network, arcs: &[usize]) -> Option<usize>
        requires lists { AreLists net.now self.now }
        requires are_activities { All (λ a. a < length net.now.activities) arcs.now }
        ensures none { IfNone result (All (GoesForward net.now self.now.places.ranks.items) arcs.now) }
        ensures some { IfSome result (IsBehind net.now self.now.places.ranks.items arcs.now) }
    {
        for a in arcs {
            if !self.goes_forward(net, *a) {
                return Some(*a);
            }
        }
        None
    }

    /// Whether each of these activities goes forward, or joins the same events as one that does not.
    fn are_alike(&self, net: &Network, arcs: &[usize], first: usize) -> bool
        requires lists { AreLists net.now self.now }
        requires are_activities { All (λ a. a < length net.now.activities) arcs.now }
        requires is_activity { first < length net.now.activities }
        ensures { IsTrue result ↔ All (IsForwardOrAlike net.now self.now.places.ranks.items first) arcs.now }
    {
        for a in arcs {
            if !self.goes_forward(net, *a) && !has_same_ends(net, *a, first) {
                return false;
            }
        }
        true
    }

    /// Whether the tail of an activity stands before its head.
    fn goes_forward(&self, net: &Network, a: usize) -> bool
        requires lists { AreLists net.now self.now }
        requires is_activity { a < length net.now.activities }
        ensures { IsTrue result ↔ GoesForward net.now self.now.places.ranks.items a }
    {
        net.reveal();
        let activity = net.activity(a);
        self.places.ranks[activity.tail] < self.places.ranks[activity.head]
    }

    /// Moves what a held activity leads to behind its tail: the events between its head and its tail that held activities
    /// lead to from its head. Where they lead to its tail, there is a cycle. All other held activities go forward, or join
    /// the same events.
    fn sweep(&mut self, net: &Network, held: &[bool], first: usize) -> Result<(), Cyclic>
        requires flags { length held.now ≡ length net.now.activities }
        requires lists { AreLists net.now self.old }
        requires is_activity { first < length net.now.activities }
        requires holds { IsTrue (is_held held.now first) }
        requires behind { GoesForward net.now self.old.places.ranks.items first → ⊥ }
        requires others { GoForwardOrAlike net.now held.now first self.old.places.ranks.items }
        ensures lists { AreLists net.now self.new }
        ensures forward { OnOk result (GoForward net.now held.now self.new.places.ranks.items) }
        ensures same_order { OnErr result (self.new.places.order.items ≡ self.old.places.order.items) }
        ensures same_ranks { OnErr result (self.new.places.ranks.items ≡ self.old.places.ranks.items) }
        ensures cycle { OnErr result (IsCycleOf net.now (is_held held.now) (cycle_in self.new)) }
        ensures cycle_stays { OnOk result (cycle_in self.new ≡ cycle_in self.old) }
    {
        net.reveal();
        let _few = net.events();
        let low = self.places.ranks[net.activity(first).head];
        let high = self.places.ranks[net.activity(first).tail];
        let ranked = Ranked {
            order: &self.places.order,
            ranks: &self.places.ranks,
        };
        self.reach.reach(net, held, &ranked, low, high, first);
        if self.reach.causes[high].is_some() {
            self.way.close(
                net,
                held,
                &self.places.order,
                &self.places.ranks,
                &self.reach.causes,
                first,
            );
            self.by_search = false;
            return Err(Cyclic);
        }
        self.places.shift(&self.reach.causes, low, high + 1 - low);
        Ok(())
    }

    /// Puts the events into an order of the held activities by a search over all of them. A cycle is the error.
    fn search_anew(&mut self, net: &Network, held: &[bool]) -> Result<(), Cyclic>
        requires flags { length held.now ≡ length net.now.activities }
        requires lists { AreLists net.now self.old }
        ensures lists { AreLists net.now self.new }
        ensures forward { OnOk result (GoForward net.now held.now self.new.places.ranks.items) }
        ensures same_order { OnErr result (self.new.places.order.items ≡ self.old.places.order.items) }
        ensures same_ranks { OnErr result (self.new.places.ranks.items ≡ self.old.places.ranks.items) }
        ensures cycle { OnErr result (IsCycleOf net.now (is_held held.now) (cycle_in self.new)) }
    {
        net.reveal();
        self.by_search = true;
        match net.search(held, &mut self.search) {
            Ok(()) => {
                self.places.order.copy_from_slice(self.search.order());
                self.places.ranks.copy_from_slice(self.search.ranks());
                Ok(())
            }
            Err(Cyclic) => Err(Cyclic),
        }
    }

    /// The cycle that was found last.
    pub fn cycle(&self) -> &[usize]
        requires { self.now.way.start ≤ length self.now.way.arcs.items }
        ensures { result.now ≡ cycle_in self.now }
    {
        if self.by_search {
            self.search.cycle()
        } else {
            &self.way.arcs[self.way.start..]
        }
    }
}

/// Whether two activities join the same two events.
fn has_same_ends(net: &Network, a: usize, b: usize) -> bool
    requires first { a < length net.now.activities }
    requires second { b < length net.now.activities }
    ensures { IsTrue result ↔ HasSameEnds net.now a b }
{
    let one = net.activity(a);
    let other = net.activity(b);
    one.tail == other.tail && one.head == other.head
}
