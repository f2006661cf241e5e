//! An order that is changed until it holds what constraints hold.
ghost use Rattle.std.specs.Prelude.{length, OnOk, OnErr};
ghost use Rattle.dm_order.specs.Orders.{IsOrderOf};
ghost use Rattle.dm_settle.specs.Constraints.{IsSizedFor};
ghost use Rattle.dm_live.specs.Live.{HasHeldCycle};
ghost use Rattle.dm_live.specs.Inside.Aligning.{HoldAlike, HoldsNoOthersBefore};

use dm_graph::search::Cyclic;
use dm_network::Network;
use dm_order::Order;
use dm_settle::Constraints;

/// Brings an order to hold the activities that the constraints hold. A cycle of these is the error. It goes by what differs: an
/// activity that both hold, or neither, costs a look.
pub fn align(order: &mut Order, net: &Network, constraints: &Constraints) -> Result<(), Cyclic>
    requires sized { IsSizedFor net.now constraints.now }
    requires ordered { IsOrderOf net.now order.old }
    ensures ordered { OnOk result (IsOrderOf net.now order.new) }
    ensures alike { OnOk result (HoldAlike net.now order.new constraints.now) }
    ensures refused { OnErr result (HasHeldCycle net.now constraints.now) }
{
    release_others(order, net, constraints);
    add_missing(order, net, constraints)
}

/// Lets the activities go that the constraints do not hold.
#[tactic(auto, using(crate::proofs::Alike::no_others_first, crate::proofs::Alike::no_others_without, crate::proofs::Alike::no_others_with))]
fn release_others(order: &mut Order, net: &Network, constraints: &Constraints)
    requires sized { IsSizedFor net.now constraints.now }
    requires ordered { IsOrderOf net.now order.old }
    ensures { HoldsNoOthersBefore net.now order.new constraints.now (length net.now.activities) }
{
    for a in 0..net.activities() {
        if order.is_held(a) && !constraints.is_held(a) {
            order.remove(&[a]);
        }
    }
}

/// Adds the activities that the constraints hold to an order that holds no others.
#[tactic(auto, using(crate::proofs::Alike::alike_first, crate::proofs::Alike::alike_with, crate::proofs::Alike::alike_without, crate::proofs::Alike::cycle_is_held))]
fn add_missing(order: &mut Order, net: &Network, constraints: &Constraints) -> Result<(), Cyclic>
    requires sized { IsSizedFor net.now constraints.now }
    requires no_others { HoldsNoOthersBefore net.now order.old constraints.now (length net.now.activities) }
    ensures ordered { OnOk result (IsOrderOf net.now order.new) }
    ensures alike { OnOk result (HoldAlike net.now order.new constraints.now) }
    ensures refused { OnErr result (HasHeldCycle net.now constraints.now) }
{
    for a in 0..net.activities() {
        if constraints.is_held(a) && !order.is_held(a) {
            match order.add(net, &[a]) {
                Ok(()) => {}
                Err(Cyclic) => return Err(Cyclic),
            }
        }
    }
    Ok(())
}
