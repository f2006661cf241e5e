//! An order of all events in which the held activities go forward.
ghost use Rattle.std.specs.Prelude.{ℕ, ◌≡◌, ◌<◌, ◌≤◌, length, map, All, IfOk, IfErr, OnOk, OnErr};
ghost use Rattle.std.specs.List.{range_with_len};
ghost use Rattle.dm_network.specs.Net.{Net};
ghost use Rattle.dm_network.specs.Held.{is_held, IsCycleOf, HasNoCycleOf};
ghost use Rattle.dm_rows.specs.Rows.{IsSized};
ghost use Rattle.dm_rows.specs.Active.{HasNoCycle};
ghost use Rattle.dm_order.specs.Orders.{IsOrderOf, is_ordered, held_with, held_without};
ghost use Rattle.dm_order.specs.Refuse.{RefusesOrder};

use crate::faults::OrderFault;
use crate::flags::Flags;
use crate::lists::Lists;
use dm_graph::search::Cyclic;
use dm_network::Network;
use dm_rows::{Rows, is_active};
use std::alloc::{AllocError, Global};
use std::marker::Model;

/// A list of all events of one network, and a set of held activities, each of which goes forward in the list.
///
/// Events and activities go by place. Its calls take the network with which it was made, of which contracts say that it
/// is an order: [`Order::new`] ensures it, and [`Order::add`] and [`Order::remove`] keep it.
pub struct Order {
    flags: Flags,
    lists: Lists,
}

impl Drop for Order {
    fn drop(self) {
        let Order { flags: _, lists: _ } = self;
    }
}

impl Model for Order {
    ghost use Rattle.dm_order.specs.Value.{OrderValue};

    ghost Value = { OrderValue };

    ghost use Rattle.dm_order.specs.Inside.Placing.{cycle_in, IsKept};

    ghost view = { λ o. record {
      order = o.lists.places.order.items;
      ranks = o.lists.places.ranks.items;
      held = o.flags.held.items;
      cycle = cycle_in o.lists;
    } };

    ghost invariant = { λ o. IsKept o.flags o.lists };
}

impl Order {
    /// An order that holds the active activities between events that have not passed. The room in which activities are
    /// added is made here. Where the rows have a cycle there is no order, and nothing is said of the cycle. Its time is
    /// linear in events and activities.
    pub fn new(alloc: Global, net: &Network, rows: &Rows) -> Result<Order, OrderFault>
        requires { IsSized net.now rows.now }
        ensures order { IfOk result (IsOrderOf net.now) }
        ensures held { IfOk result (λ order. (a : ℕ) → a < length net.now.activities
            → is_held order.held a ≡ is_ordered net.now rows.now a) }
        ensures no_cycle { OnOk result (HasNoCycle net.now rows.now) }
        ensures refused { IfErr result (RefusesOrder net.now rows.now) }
    {
        let held = ordered_activities(alloc, net, rows)?;
        let lists = match Lists::ordered(alloc, net, &held) {
            Ok(lists) => lists,
            Err(fault) => return Err(fault),
        };
        let tried = Vec::from_slice(alloc, &held)?;
        Ok(Order {
            flags: Flags { held, tried },
            lists,
        })
    }

    /// Holds activities besides. Where these and the held ones have a cycle, it holds no more than before, the list is as
    /// before, and [`Order::last_cycle`] is such a cycle. It takes no memory.
    ///
    /// Activities that go forward already cost a look each. Where one does not, or several between the same two events, the
    /// places between these are looked over; where several between different events do not, one search over the whole
    /// network makes the list anew. So who adds few adds them one at a time. One that is not refused leaves the cycle.
    pub fn add(&mut self, net: &Network, arcs: &[usize]) -> Result<(), Cyclic>
        requires network { IsOrderOf net.now self.old }
        requires are_activities { All (λ a. a < length net.now.activities) arcs.now }
        ensures order { IsOrderOf net.now self.new }
        ensures held { OnOk result ((a : ℕ) → is_held self.new.held a ≡ held_with self.old.held arcs.now a) }
        ensures no_cycle { OnOk result (HasNoCycleOf net.now (held_with self.old.held arcs.now)) }
        ensures unchanged { OnErr result (self.new ≡ record self.old { cycle = self.new.cycle }) }
        ensures cycle { OnErr result (IsCycleOf net.now (held_with self.old.held arcs.now) self.new.cycle) }
        ensures cycle_stays { OnOk result (length arcs.now ≤ 1 → self.new.cycle ≡ self.old.cycle) }
    {
        self.flags.try_with(arcs);
        match self.lists.move_for(net, &self.flags.tried, arcs) {
            Ok(()) => {
                self.flags.keep(arcs);
                Ok(())
            }
            Err(Cyclic) => {
                self.flags.take_back(arcs);
                Err(Cyclic)
            }
        }
    }

    /// Lets activities go. It takes no memory.
    pub fn remove(&mut self, arcs: &[usize])
        requires { All (λ a. a < length self.old.held) arcs.now }
        ensures held { (a : ℕ) → is_held self.new.held a ≡ held_without self.old.held arcs.now a }
        ensures as_many { length self.new.held ≡ length self.old.held }
        ensures unchanged { self.new ≡ record self.old { held = self.new.held } }
        ensures order { (net : Net) → IsOrderOf net self.old → IsOrderOf net self.new }
    {
        self.flags.release(arcs);
    }

    /// The events in their order.
    pub fn order(&self) -> &[usize]
        ensures { result.now ≡ self.now.order }
    {
        &self.lists.places.order
    }

    /// The place of each event in the order.
    pub fn ranks(&self) -> &[usize]
        ensures { result.now ≡ self.now.ranks }
    {
        &self.lists.places.ranks
    }

    /// Whether the activity at a place is held.
    pub fn is_held(&self, a: usize) -> bool
        requires { a < length self.now.held }
        ensures { result ≡ is_held self.now.held a }
    {
        self.flags.held[a]
    }

    /// The activities of the cycle for which the last addition was refused, each head the next tail. After an addition
    /// of several that was not refused it says nothing.
    pub fn last_cycle(&self) -> &[usize]
        ensures { result.now ≡ self.now.cycle }
    {
        self.lists.cycle()
    }
}

/// Of each activity whether it is active between events that have not passed.
fn ordered_activities(alloc: Global, net: &Network, rows: &Rows) -> Result<Vec<bool>, AllocError>
    requires { IsSized net.now rows.now }
    ensures { IfOk result (λ held. held.items ≡ map (is_ordered net.now rows.now) (range_with_len 0 (length net.now.activities))) }
{
    let mut held = Vec::with_capacity(alloc, net.activities())?;
    for a in 0..net.activities() {
        held.push(is_ordered(net, rows, a))?;
    }
    Ok(held)
}

/// Whether an activity is active and its tail has not passed.
fn is_ordered(net: &Network, rows: &Rows, a: usize) -> bool
    requires sized { IsSized net.now rows.now }
    requires is_activity { a < length net.now.activities }
    ensures { result ≡ is_ordered net.now rows.now a }
{
    net.reveal();
    if rows.passed(net.activity(a).tail).is_some() {
        return false;
    }
    is_active(net, rows, a)
}
