//! The first flags of a timetable that has none set, by a look at every event and every activity.
ghost use Rattle.std.specs.Prelude.{◌≡◌, ◌+◌, ◌<◌, length};
ghost use Rattle.dm_live.specs.Live.{IsLive, NoneFixed};
ghost use Rattle.dm_priced.specs.Priced.{IsPriced};
ghost use Rattle.dm_rows.specs.Active.{has_passed};
ghost use Rattle.dm_rows.specs.Rows.{is_cancelled};
ghost use Rattle.dm_rows.specs.Cost.{is_lost_change};
ghost use Rattle.dm_propagate.specs.Engine.{FollowsRows};
ghost use Rattle.dm_propagate.specs.Inside.Beginning.{AreFlaggedBefore, IsFixedBefore, NoneFlagged};

use crate::day::Day;
use dm_base::Steps;
use dm_live::LiveTimetable;
use dm_priced::PricedTimetable;
use dm_rows::is_lost_change;
use std::sync::ledger::Ledger;

/// Fixes the events that have passed, in a timetable that is held to the rows.
#[tactic(auto, using(crate::proofs::Beginning::none_fixed))]
pub fn fix_passed<L: Ledger>(live: &mut LiveTimetable, day: &Day<'_>, steps: &mut Steps<L>)
    requires live { IsLive day.now.net.now live.old }
    requires follows { FollowsRows day.now.net.now day.now.rows.now live.old.given }
    requires none_fixed { NoneFixed live.old.fixed }
    ensures { IsFixedBefore day.now.net.now day.now.rows.now (length day.now.net.now.events) live.new }
{
    for i in 0..day.net.events() {
        fix_if_passed(live, day, i, steps);
    }
}

/// Fixes an event at its time if it has passed.
#[tactic(auto, using(crate::proofs::Beginning::fixed_not))]
fn fix_if_passed<L: Ledger>(live: &mut LiveTimetable, day: &Day<'_>, i: usize, steps: &mut Steps<L>)
    requires is_event { i < length day.now.net.now.events }
    requires before { IsFixedBefore day.now.net.now day.now.rows.now i live.old }
    ensures { IsFixedBefore day.now.net.now day.now.rows.now (i + 1) live.new }
{
    if let Some(time) = day.rows.passed(i) {
        let out = day.net.out_row(i, steps);
        live.fix(day.net, i, time, out, steps);
    }
}

/// Takes the events as passed that have passed.
#[tactic(auto, using(crate::proofs::Beginning::none_flagged, crate::proofs::Beginning::flagged_one, crate::proofs::Beginning::flagged_not))]
pub fn pass_passed<L: Ledger>(priced: &mut PricedTimetable, day: &Day<'_>, steps: &mut Steps<L>)
    requires priced { IsPriced day.now.net.now priced.old }
    requires none { NoneFlagged priced.old.passed }
    ensures priced { IsPriced day.now.net.now priced.new }
    ensures live { priced.new.live ≡ priced.old.live }
    ensures cancelled { priced.new.cancelled ≡ priced.old.cancelled }
    ensures charged { priced.new.charged ≡ priced.old.charged }
    ensures passed { AreFlaggedBefore (has_passed day.now.rows.now) (length day.now.net.now.events) priced.new.passed }
{
    for i in 0..day.net.events() {
        if day.rows.passed(i).is_some() {
            let into = day.net.in_row(i, steps);
            priced.pass(day.net, i, into);
        }
    }
}

/// Takes the events as cancelled that are.
#[tactic(auto, using(crate::proofs::Beginning::none_flagged, crate::proofs::Beginning::flagged_one, crate::proofs::Beginning::flagged_not))]
pub fn cancel_cancelled<L: Ledger>(
    priced: &mut PricedTimetable,
    day: &Day<'_>,
    steps: &mut Steps<L>,
)
    requires priced { IsPriced day.now.net.now priced.old }
    requires none { NoneFlagged priced.old.cancelled }
    ensures priced { IsPriced day.now.net.now priced.new }
    ensures live { priced.new.live ≡ priced.old.live }
    ensures passed { priced.new.passed ≡ priced.old.passed }
    ensures charged { priced.new.charged ≡ priced.old.charged }
    ensures cancelled { AreFlaggedBefore (is_cancelled day.now.rows.now) (length day.now.net.now.events) priced.new.cancelled }
{
    for i in 0..day.net.events() {
        if day.rows.cancelled(i) {
            let out = day.net.out_row(i, steps);
            priced.cancel(day.net, i, true, out);
        }
    }
}

/// Charges for the changes whose heads have not passed and that are dropped or have a cancelled end.
#[tactic(auto, using(crate::proofs::Beginning::none_flagged, crate::proofs::Beginning::flagged_one, crate::proofs::Beginning::flagged_not))]
pub fn charge_lost(priced: &mut PricedTimetable, day: &Day<'_>)
    requires priced { IsPriced day.now.net.now priced.old }
    requires none { NoneFlagged priced.old.charged }
    ensures priced { IsPriced day.now.net.now priced.new }
    ensures live { priced.new.live ≡ priced.old.live }
    ensures passed { priced.new.passed ≡ priced.old.passed }
    ensures cancelled { priced.new.cancelled ≡ priced.old.cancelled }
    ensures charged { AreFlaggedBefore (is_lost_change day.now.net.now day.now.rows.now) (length day.now.net.now.activities)
        priced.new.charged }
{
    for a in 0..day.net.activities() {
        if is_lost_change(day.net, day.rows, a) {
            priced.charge(day.net, a, true);
        }
    }
}
