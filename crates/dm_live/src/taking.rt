//! Activities that an order takes up in addition to those that it holds.
ghost use Rattle.std.specs.Prelude.{ℕ, ◌≡◌, ◌<◌, true, [], ◌∷◌, ◌==◌, length, if◌then◌else◌, OnOk, OnErr};
ghost use Rattle.dm_network.specs.Net.{activity_at, places_out_of};
ghost use Rattle.dm_network.specs.Held.{is_held, IsCycleOf, HasNoCycleOf};
ghost use Rattle.dm_order.specs.Orders.{IsOrderOf, held_with};
ghost use Rattle.dm_settle.specs.Constraints.{IsSizedFor};

use dm_graph::search::Cyclic;
use dm_network::Network;
use dm_order::Order;
use dm_settle::Constraints;

/// Holds an activity besides, unless its tail is fixed: then it needs no place in the order, and no row is read for it.
pub fn add_unless_fixed(
    order: &mut Order,
    net: &Network,
    a: usize,
    fixed: bool,
) -> Result<(), Cyclic>
    requires ordered { IsOrderOf net.now order.old }
    requires is_activity { a < length net.now.activities }
    ensures ordered { IsOrderOf net.now order.new }
    ensures held { OnOk result ((b : ℕ) → is_held order.new.held
        b ≡ (if fixed then is_held order.old.held b else held_with order.old.held (a ∷ []) b)) }
    ensures cycle_stays { OnOk result (order.new.cycle ≡ order.old.cycle) }
    ensures unchanged { OnErr result (order.new ≡ record order.old { cycle = order.new.cycle }) }
    ensures cycle { OnErr result (IsCycleOf net.now (held_with order.old.held (a ∷ [])) order.new.cycle) }
{
    if fixed {
        return Ok(());
    }
    match order.add(net, &[a]) {
        Ok(()) => Ok(()),
        Err(Cyclic) => Err(Cyclic),
    }
}

/// Holds besides what constraints hold out of an event, whose row this is. What they hold has no cycle, and the order holds
/// nothing else: so none is refused.
pub fn add_out_of(
    order: &mut Order,
    net: &Network,
    constraints: &Constraints,
    event: usize,
    out_of: &[usize],
)
    requires sized { IsSizedFor net.now constraints.now }
    requires ordered { IsOrderOf net.now order.old }
    requires fewer { (b : ℕ) → b < length net.now.activities → is_held order.old.held b ≡ true → is_held constraints.now.held b ≡ true }
    requires no_cycle { HasNoCycleOf net.now (is_held constraints.now.held) }
    requires out_of { out_of.now ≡ places_out_of net.now event }
    ensures ordered { IsOrderOf net.now order.new }
    ensures held { (b : ℕ) → b < length net.now.activities
        → is_held order.new.held b ≡ (if (activity_at net.now b).tail == event then is_held constraints.now.held b else is_held
        order.old.held b) }
    ensures cycle_stays { order.new.cycle ≡ order.old.cycle }
{
    let _event = event;
    for a in out_of {
        if constraints.is_held(*a) {
            let Ok(()) = order.add(net, &[*a]) else {
                unreachable!();
            };
        }
    }
}
