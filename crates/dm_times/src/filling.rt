//! What the rows hold the events of a network to.
ghost use Rattle.std.specs.Prelude.{◌≡◌, length, IfOk};
ghost use Rattle.dm_rows.specs.Rows.{IsSized};
ghost use Rattle.dm_times.specs.Constraints.{AreConstraintsHolding};
ghost use Rattle.dm_times.specs.Inside.Filling.{ActivitiesTo, FloorsTo};

use crate::holding::Holding;
use dm_network::Network;
use dm_rows::{Rows, floor_of, span_of};
use dm_settle::Constraints;
use std::alloc::{AllocError, Global};

/// These activities held, each with its lower bound and delay, and each event held to its passed time, or to the later of its
/// planned time and the clock.
pub fn constraints_holding<H: Holding>(
    alloc: Global,
    net: &Network,
    rows: &Rows,
    holding: &H,
) -> Result<Constraints, AllocError>
    requires sized { IsSized net.now rows.now }
    requires places { H.places holding.now ≡ length net.now.activities }
    ensures { IfOk result (AreConstraintsHolding net.now rows.now (H.held holding.now)) }
{
    let mut constraints = Constraints::new(alloc, net)?;
    set_activities(net, rows, holding, &mut constraints);
    set_floors(net, rows, &mut constraints);
    Ok(constraints)
}

/// Holds these activities, and sets the span of each.
fn set_activities<H: Holding>(
    net: &Network,
    rows: &Rows,
    holding: &H,
    constraints: &mut Constraints,
)
    requires sized { IsSized net.now rows.now }
    requires places { H.places holding.now ≡ length net.now.activities }
    requires flags { length constraints.old.held ≡ length net.now.activities }
    requires spans { length constraints.old.spans ≡ length net.now.activities }
    ensures { ActivitiesTo net.now rows.now (H.held holding.now) (length net.now.activities) constraints.old constraints.new }
{
    for a in 0..net.activities() {
        constraints.set_held(a, holding.is_held(a));
        constraints.set_span(a, span_of(net, rows, a));
    }
}

/// Sets the floor of each event.
fn set_floors(net: &Network, rows: &Rows, constraints: &mut Constraints)
    requires sized { IsSized net.now rows.now }
    requires size { length constraints.old.floors ≡ length net.now.events }
    ensures { FloorsTo net.now rows.now (length net.now.events) constraints.old constraints.new }
{
    for i in 0..net.events() {
        constraints.set_floor(i, floor_of(net, rows, i));
    }
}
