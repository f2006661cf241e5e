//! The timetable of the relaxed problem where nothing is decided.
ghost use Rattle.std.specs.Prelude.{ℕ, ◌≡◌, ◌<◌, false, [], length, IfOk, IfErr};
ghost use Rattle.dm_live.specs.Live.{IsAtRest};
ghost use Rattle.dm_order.specs.Orders.{IsOrderOf};
ghost use Rattle.dm_priced.specs.Priced.{IsPriced, is_flagged};
ghost use Rattle.dm_rows.specs.Relax.{is_relaxed_active, is_relaxed_lost};
ghost use Rattle.dm_rows.specs.Rows.{IsSized};
ghost use Rattle.dm_times.specs.Faults.{RefusesHolding};
ghost use Rattle.dm_evaluate.specs.Inside.Starting.{IsHeldToRoot, HasRootCycle, IsRoot, HasPassedTo, HasCancelledTo, ChargesLostTo};

use dm_base::Steps;
use dm_live::LiveTimetable;
use dm_network::Network;
use dm_order::{Order, OrderFault};
use dm_paths::binds;
use dm_priced::PricedTimetable;
use dm_rows::{Rows, is_free_change, is_lost_change, start_rows};
use dm_settle::{NoTimes, least_times};
use dm_times::{Holding, constraints_holding};
use std::alloc::{AllocError, Global};
use std::marker::Brand;
use std::sync::ledger::{Blank, Ledger};

/// The settled timetable, or a cycle exactly where what binds has one.
pub fn root_timetable(alloc: Global, net: &Network, rows: &Rows) -> Result<PricedTimetable, NoTimes>
    requires { IsSized net.now rows.now }
    ensures root { IfOk result (IsRoot net.now rows.now) }
    ensures refused { IfErr result (RefusesHolding net.now (is_relaxed_active net.now rows.now [])) }
{
    let live = match live_for(alloc, net, rows) {
        Ok(live) => live,
        Err(no_times) => return Err(no_times),
    };
    let mut priced = PricedTimetable::new(alloc, net, live)?;
    // Nothing reads the ledger.
    settle::<Brand>(&mut priced, net, rows, Blank::new(1));
    Ok(priced)
}

/// A timetable that is held to what binds, and not settled, or a cycle of that.
fn live_for(alloc: Global, net: &Network, rows: &Rows) -> Result<LiveTimetable, NoTimes>
    requires { IsSized net.now rows.now }
    ensures live { IfOk result (IsHeldToRoot net.now rows.now) }
    ensures refused { IfErr result (RefusesHolding net.now (is_relaxed_active net.now rows.now [])) }
{
    let constraints = constraints_holding(alloc, net, rows, &RootActivities { net, rows })?;
    let order = start_order(alloc, net)?;
    match LiveTimetable::new(alloc, net, constraints, order) {
        Ok(live) => Ok(live),
        Err(OrderFault::Cyclic) => Err(root_cycle(alloc, net, rows)),
        Err(OrderFault::OutOfMemory) => Err(NoTimes::OutOfMemory),
    }
}

/// An order of what binds at the start of a day, which has no cycle.
fn start_order(alloc: Global, net: &Network) -> Result<Order, AllocError>
    ensures { IfOk result (IsOrderOf net.now) }
{
    net.reveal();
    // No delays are refused for want of memory alone.
    let Ok(rows) = start_rows(alloc, net, &[], &[]) else {
        return Err(AllocError);
    };
    match Order::new(alloc, net, &rows) {
        Ok(order) => Ok(order),
        Err(OrderFault::Cyclic) => unreachable!(),
        Err(OrderFault::OutOfMemory) => Err(AllocError),
    }
}

/// The cycle of what binds, where it has one.
fn root_cycle(alloc: Global, net: &Network, rows: &Rows) -> NoTimes
    requires sized { IsSized net.now rows.now }
    requires cyclic { HasRootCycle net.now rows.now }
    ensures { RefusesHolding net.now (is_relaxed_active net.now rows.now []) result }
{
    let Ok(constraints) = constraints_holding(alloc, net, rows, &RootActivities { net, rows })
    else {
        return NoTimes::OutOfMemory;
    };
    match least_times(alloc, net, &constraints) {
        Ok(_) => unreachable!(),
        Err(no_times) => no_times,
    }
}

/// Takes the events as passed that have and as cancelled that are, charges for what is lost though nothing is decided, and settles
/// a timetable.
fn settle<L: Ledger>(priced: &mut PricedTimetable, net: &Network, rows: &Rows, blank: Blank)
    requires priced { IsPriced net.now priced.old }
    requires sized { IsSized net.now rows.now }
    requires none { (i : ℕ) → is_flagged priced.old.passed i ≡ false }
    requires none_cancelled { (i : ℕ) → is_flagged priced.old.cancelled i ≡ false }
    requires none_charged { (a : ℕ) → is_flagged priced.old.charged a ≡ false }
    requires name { blank.name ≡ L.name }
    requires parts { blank.parts ≡ L.parts }
    requires has_a_part { 0 < blank.parts }
    ensures priced { IsPriced net.now priced.new }
    ensures at_rest { IsAtRest priced.new.live }
    ensures given { priced.new.live.given ≡ priced.old.live.given }
    ensures fixed { priced.new.live.fixed ≡ priced.old.live.fixed }
    ensures passed { HasPassedTo rows.now (length net.now.events) priced.new.passed }
    ensures cancelled { HasCancelledTo rows.now (length net.now.events) priced.new.cancelled }
    ensures charged { ChargesLostTo net.now rows.now (length net.now.activities) priced.new.charged }
{
    let mut steps = Steps::<L>::new(blank);
    set_passed(priced, net, rows, &mut steps);
    set_cancelled(priced, net, rows, &mut steps);
    charge_lost(priced, net, rows);
    priced.settle(net, &mut steps);
}

/// Takes each event as cancelled that is, where none is taken so before.
#[tactic(auto, using(crate::proofs::Rooted::none_flagged, crate::proofs::Rooted::unflagged_next, crate::proofs::Rooted::flagged_next))]
fn set_cancelled<L: Ledger>(
    priced: &mut PricedTimetable,
    net: &Network,
    rows: &Rows,
    steps: &mut Steps<L>,
)
    requires priced { IsPriced net.now priced.old }
    requires sized { IsSized net.now rows.now }
    requires none { (i : ℕ) → is_flagged priced.old.cancelled i ≡ false }
    ensures priced { IsPriced net.now priced.new }
    ensures live { priced.new.live ≡ priced.old.live }
    ensures passed { priced.new.passed ≡ priced.old.passed }
    ensures cancelled { HasCancelledTo rows.now (length net.now.events) priced.new.cancelled }
    ensures charged { priced.new.charged ≡ priced.old.charged }
{
    for i in 0..net.events() {
        if !rows.cancelled(i) {
            continue;
        }
        let out = net.out_row(i, steps);
        priced.cancel(net, i, true, out);
    }
}

/// Charges for the changes that are lost and not free: they are locked, or have a cancelled end.
#[tactic(auto, using(crate::proofs::Rooted::none_flagged, crate::proofs::Rooted::unflagged_next, crate::proofs::Rooted::flagged_next))]
fn charge_lost(priced: &mut PricedTimetable, net: &Network, rows: &Rows)
    requires priced { IsPriced net.now priced.old }
    requires sized { IsSized net.now rows.now }
    requires none { (a : ℕ) → is_flagged priced.old.charged a ≡ false }
    ensures priced { IsPriced net.now priced.new }
    ensures live { priced.new.live ≡ priced.old.live }
    ensures passed { priced.new.passed ≡ priced.old.passed }
    ensures cancelled { priced.new.cancelled ≡ priced.old.cancelled }
    ensures charged { ChargesLostTo net.now rows.now (length net.now.activities) priced.new.charged }
{
    for a in 0..net.activities() {
        if is_lost_for_good(net, rows, a) {
            priced.charge(net, a, true);
        }
    }
}

/// Whether an activity is a lost change that no path may decide: it is not free.
#[tactic(auto, using(crate::proofs::Rooted::root_lost))]
fn is_lost_for_good(net: &Network, rows: &Rows, a: usize) -> bool
    requires sized { IsSized net.now rows.now }
    requires is_activity { a < length net.now.activities }
    ensures { result ≡ is_relaxed_lost net.now rows.now [] a }
{
    is_lost_change(net, rows, a) && !is_free_change(net, rows, a)
}

/// Takes each event as passed that has, where none is taken so before.
#[tactic(auto, using(crate::proofs::Rooted::none_flagged, crate::proofs::Rooted::unflagged_next, crate::proofs::Rooted::flagged_next))]
fn set_passed<L: Ledger>(
    priced: &mut PricedTimetable,
    net: &Network,
    rows: &Rows,
    steps: &mut Steps<L>,
)
    requires priced { IsPriced net.now priced.old }
    requires sized { IsSized net.now rows.now }
    requires none { (i : ℕ) → is_flagged priced.old.passed i ≡ false }
    ensures priced { IsPriced net.now priced.new }
    ensures live { priced.new.live ≡ priced.old.live }
    ensures passed { HasPassedTo rows.now (length net.now.events) priced.new.passed }
    ensures cancelled { priced.new.cancelled ≡ priced.old.cancelled }
    ensures charged { priced.new.charged ≡ priced.old.charged }
{
    for i in 0..net.events() {
        if rows.passed(i).is_none() {
            continue;
        }
        let into = net.in_row(i, steps);
        priced.pass(net, i, into);
    }
}

/// The activities that bind where every free choice is undecided.
#[derive(Clone, Copy)]
struct RootActivities<'a> {
    net: &'a Network,
    rows: &'a Rows,
    ghost sized: { IsSized net.now rows.now },
}

impl Holding for RootActivities<'_> {
    ghost use Rattle.std.specs.Prelude.{[], length};
    ghost use Rattle.dm_rows.specs.Relax.{is_relaxed_active};

    ghost places = { λ h. length h.net.now.activities };

    ghost held = { λ h. is_relaxed_active h.net.now h.rows.now [] };

    fn is_held(&self, a: usize) -> bool {
        binds(self.net, self.rows, a)
    }
}
