//! The timetable of an engine at first.
ghost use Rattle.std.specs.Prelude.{◌≡◌, ◌<◌, IfOk, IfErr};
ghost use Rattle.dm_live.specs.Live.{IsLive, NoneFixed};
ghost use Rattle.dm_order.specs.Refuse.{RefusesOrder, HasCycle};
ghost use Rattle.dm_rows.specs.Rows.{IsSized};
ghost use Rattle.dm_times.specs.Faults.{RefusesTimes};
ghost use Rattle.dm_propagate.specs.Engine.{FollowsRows};
ghost use Rattle.dm_priced.specs.Priced.{IsPriced};
ghost use Rattle.dm_propagate.specs.Inside.Beginning.{IsAtRestFor, IsSettledFor, NoneFlagged};
ghost use Rattle.dm_propagate.specs.Inside.Flags.{flags_of, AreFlagsOf, FixesPassed};

use crate::day::Day;
use crate::first_flags::{cancel_cancelled, charge_lost, fix_passed, pass_passed};
use dm_base::Steps;
use dm_live::LiveTimetable;
use dm_network::Network;
use dm_order::{Order, OrderFault};
use dm_priced::PricedTimetable;
use dm_rows::Rows;
use dm_settle::{NoTimes, Unwatched};
use dm_times::{AsRowsSay, constraints_holding, least};
use std::alloc::Global;
use std::marker::Brand;
use std::sync::ledger::{Blank, Ledger};

/// The settled timetable of rows, or a cycle exactly where they have one.
pub fn priced_for(alloc: Global, net: &Network, rows: &Rows) -> Result<PricedTimetable, NoTimes>
    requires { IsSized net.now rows.now }
    ensures priced { IfOk result (IsAtRestFor net.now rows.now) }
    ensures refused { IfErr result (RefusesTimes net.now rows.now) }
{
    match live_for(alloc, net, rows) {
        Ok(live) => {
            let mut priced = PricedTimetable::new(alloc, net, live)?;
            // Nothing reads the ledger.
            flag::<Brand>(&mut priced, &Day { net, rows }, Blank::new(1));
            Ok(priced)
        }
        Err(OrderFault::Cyclic) => Err(cycle_of(alloc, net, rows)),
        Err(OrderFault::OutOfMemory) => Err(NoTimes::OutOfMemory),
    }
}

/// The settled timetable of rows, without its price.
fn live_for(alloc: Global, net: &Network, rows: &Rows) -> Result<LiveTimetable, OrderFault>
    requires { IsSized net.now rows.now }
    ensures live { IfOk result (IsSettledFor net.now rows.now) }
    ensures refused { IfErr result (RefusesOrder net.now rows.now) }
{
    match held_for(alloc, net, rows) {
        Ok(mut live) => {
            // Nothing reads the ledger.
            settle::<Brand>(&mut live, &Day { net, rows }, Blank::new(1));
            Ok(live)
        }
        Err(fault) => Err(fault),
    }
}

/// A timetable that is held to the rows. No event is fixed, and it is not settled.
fn held_for(alloc: Global, net: &Network, rows: &Rows) -> Result<LiveTimetable, OrderFault>
    requires { IsSized net.now rows.now }
    ensures live { IfOk result (IsLive net.now) }
    ensures follows { IfOk result (λ live. FollowsRows net.now rows.now live.given) }
    ensures none_fixed { IfOk result (λ live. NoneFixed live.fixed) }
    ensures refused { IfErr result (RefusesOrder net.now rows.now) }
{
    let order = match Order::new(alloc, net, rows) {
        Ok(order) => order,
        Err(fault) => return Err(fault),
    };
    let constraints = constraints_holding(alloc, net, rows, &AsRowsSay { net, rows })?;
    match LiveTimetable::new(alloc, net, constraints, order) {
        Ok(live) => Ok(live),
        Err(fault) => Err(fault),
    }
}

/// Fixes the events that have passed, of which none is fixed before, and settles a timetable that is held to rows.
fn settle<L: Ledger>(live: &mut LiveTimetable, day: &Day<'_>, blank: Blank)
    requires live { IsLive day.now.net.now live.old }
    requires follows { FollowsRows day.now.net.now day.now.rows.now live.old.given }
    requires none_fixed { NoneFixed live.old.fixed }
    requires name { blank.name ≡ L.name }
    requires parts { blank.parts ≡ L.parts }
    requires has_a_part { 0 < blank.parts }
    ensures { IsSettledFor day.now.net.now day.now.rows.now live.new }
{
    let mut steps = Steps::<L>::new(blank);
    fix_passed(live, day, &mut steps);
    live.settle_watched(day.net, &mut Unwatched, &mut Unwatched, &mut steps);
}

/// Sets the flags of a timetable, of which none is set, to what rows say.
fn flag<L: Ledger>(priced: &mut PricedTimetable, day: &Day<'_>, blank: Blank)
    requires priced { IsPriced day.now.net.now priced.old }
    requires fixed { FixesPassed day.now.rows.now priced.old.live.fixed }
    requires none_passed { NoneFlagged priced.old.passed }
    requires none_cancelled { NoneFlagged priced.old.cancelled }
    requires none_charged { NoneFlagged priced.old.charged }
    requires name { blank.name ≡ L.name }
    requires parts { blank.parts ≡ L.parts }
    requires has_a_part { 0 < blank.parts }
    ensures priced { IsPriced day.now.net.now priced.new }
    ensures live { priced.new.live ≡ priced.old.live }
    ensures flags { AreFlagsOf day.now.net.now day.now.rows.now (flags_of priced.new) }
{
    let mut steps = Steps::<L>::new(blank);
    pass_passed(priced, day, &mut steps);
    cancel_cancelled(priced, day, &mut steps);
    charge_lost(priced, day);
}

fn cycle_of(alloc: Global, net: &Network, rows: &Rows) -> NoTimes
    requires sized { IsSized net.now rows.now }
    requires cyclic { HasCycle net.now rows.now }
    ensures { RefusesTimes net.now rows.now result }
{
    match least(alloc, net, rows) {
        Ok(_) => unreachable!(),
        Err(no_times) => no_times,
    }
}
