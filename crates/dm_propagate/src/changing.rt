//! A change of the rows, made to the timetable that is held to them.
ghost use Rattle.std.specs.Prelude.{ℕ, ◌≡◌, ◌<◌, true, Some, None, length, slice_set, All, OnOk, OnErr};
ghost use Rattle.dm_rows.specs.Rows.{passed_at, is_cancelled};
ghost use Rattle.dm_rows.specs.Active.{has_passed, IsCycle};
ghost use Rattle.dm_rows.specs.Reach.{Reaches, ReachesFlip};
ghost use Rattle.dm_rows.specs.Timetable.{floor_of};
ghost use Rattle.dm_priced.specs.Priced.{IsPriced};
ghost use Rattle.dm_propagate.specs.Engine.{FollowsRows};
ghost use Rattle.dm_propagate.specs.Inside.Concern.{FollowsBut, LeadsAt, IsDecidedBefore};
ghost use Rattle.dm_propagate.specs.Inside.Flags.{flags_of, AreFlagsOf, AreFlagsBut, FixesNoOther, FixesNoOtherBut, MovesPass, SetsFlagsAt, SetsFlagsBy};
ghost use Rattle.dm_schedule.specs.Schedule.{IsScheduleOf};
ghost use Rattle.dm_propagate.specs.Inside.Changing.{FollowsAt, Turns, IsTurnRefused, HasPassed, IsTakenOut, MarksFor};
ghost use Rattle.dm_propagate.specs.Inside.Noting.{KeepsTimesBut};

use crate::charging::{charge_by_flips, set_flags_at};
use crate::clock::move_clock;
use crate::day::Day;
use crate::turning::{let_go_around, let_go_by_flips, set_place, take_up_around, take_up_by_flips};
use dm_base::{Secs, Steps};
use dm_graph::search::Cyclic;
use dm_priced::PricedTimetable;
use dm_rows::{Change, Flip, floor_of, span_of};
use dm_schedule::Scheduled;
use std::sync::ledger::Ledger;

/// Brings a timetable to follow rows at an event that has passed, is recalled, cancelled or restored. An activity that would make
/// a cycle is refused.
#[tactic(auto, using(crate::proofs::Turned::enters_none, crate::proofs::Turned::nothing_enters))]
fn turn_event<L: Ledger>(
    priced: &mut PricedTimetable,
    day: &Day<'_>,
    event: usize,
    steps: &mut Steps<L>,
) -> Result<(), Cyclic>
    requires priced { IsPriced day.now.net.now priced.old }
    requires is_event { event < length day.now.net.now.events }
    requires open { FixesNoOtherBut day.now.rows.now event priced.old.live.fixed }
    ensures priced { IsPriced day.now.net.now priced.new }
    ensures turned { OnOk result (Turns day.now.net.now day.now.rows.now (LeadsAt day.now.net.now event) priced.old.live priced.new.live) }
    ensures refused { OnErr result (IsTurnRefused day.now.net.now day.now.rows.now (LeadsAt day.now.net.now event) priced.old.live
        priced.new.live) }
    ensures flags { SetsFlagsAt day.now.net.now day.now.rows.now event (flags_of priced.old) (flags_of priced.new) }
    ensures fixed { priced.new.live.fixed ≡ slice_set priced.old.live.fixed event (has_passed day.now.rows.now event) }
    ensures floors { priced.new.live.given.floors ≡ slice_set priced.old.live.given.floors event (floor_of day.now.net.now
        day.now.rows.now event) }
    ensures times { OnOk result (KeepsTimesBut (λ e. e ≡ event) priced.old.live.times priced.new.live.times) }
    ensures passed { OnOk result ((t : ℕ) → passed_at day.now.rows.now event ≡ Some t
        → HasPassed day.now.net.now day.now.rows.now event t priced.old.live priced.new.live steps.old steps.new) }
    ensures cancelled { OnOk result (passed_at day.now.rows.now event ≡ None → is_cancelled day.now.rows.now event ≡ true
        → IsTakenOut day.now.net.now day.now.rows.now event priced.old.live priced.new.live steps.old steps.new) }
{
    let into = day.net.in_row(event, steps);
    let out = day.net.out_row(event, steps);
    set_flags_at(priced, day, event, into, out);
    let_go_around(priced, day, event, into, out);
    set_place(priced, day, event, into, out, steps);
    take_up_around(priced, day, event, into, out)
}

/// Brings a timetable to follow rows at the activities that flips decide about. One that would make a cycle is refused.
fn turn_by_flips<L: Ledger>(
    priced: &mut PricedTimetable,
    day: &Day<'_>,
    flips: &[Flip],
    steps: &mut Steps<L>,
) -> Result<(), Cyclic>
    requires priced { IsPriced day.now.net.now priced.old }
    requires reaches { All (ReachesFlip day.now.rows.now) flips.now }
    requires open { FixesNoOther day.now.rows.now priced.old.live.fixed }
    ensures priced { IsPriced day.now.net.now priced.new }
    ensures turned { OnOk result (Turns day.now.net.now day.now.rows.now (IsDecidedBefore day.now.net.now flips.now (length flips.now))
        priced.old.live
        priced.new.live) }
    ensures refused { OnErr result (IsTurnRefused day.now.net.now day.now.rows.now (IsDecidedBefore day.now.net.now flips.now (length
        flips.now)) priced.old.live
        priced.new.live) }
    ensures flags { SetsFlagsBy day.now.net.now day.now.rows.now flips.now (flags_of priced.old) (flags_of priced.new) }
    ensures floors { priced.new.live.given.floors ≡ priced.old.live.given.floors }
    ensures times { OnOk result (priced.new.live.times ≡ priced.old.live.times) }
{
    charge_by_flips(priced, day, flips);
    let_go_by_flips(priced, day, flips, steps);
    take_up_by_flips(priced, day, flips, steps)
}

/// Brings a timetable that follows rows, but for what decisions adopted as one concern, to follow them altogether, as
/// [`turn`].
pub fn turn_adopted<L: Ledger>(
    priced: &mut PricedTimetable,
    day: &Day<'_>,
    flips: &[Flip],
    steps: &mut Steps<L>,
) -> Result<(), Cyclic>
    requires priced { IsPriced day.now.net.now priced.old }
    requires reaches { All (ReachesFlip day.now.rows.now) flips.now }
    requires follows { FollowsBut day.now.net.now day.now.rows.now (Change.Adopted flips.now) priced.old.live.given }
    requires flags { AreFlagsBut day.now.net.now day.now.rows.now (Change.Adopted flips.now) (flags_of priced.old) }
    ensures priced { IsPriced day.now.net.now priced.new }
    ensures follows { OnOk result (FollowsRows day.now.net.now day.now.rows.now priced.new.live.given) }
    ensures flags { AreFlagsOf day.now.net.now day.now.rows.now (flags_of priced.new) }
    ensures cycle_stays { OnOk result (priced.new.live.order.cycle ≡ priced.old.live.order.cycle) }
    ensures followed { OnErr result (FollowsBut day.now.net.now day.now.rows.now (Change.Adopted flips.now) priced.new.live.given) }
    ensures cycle { OnErr result (IsCycle day.now.net.now day.now.rows.now priced.new.live.order.cycle) }
    ensures times { OnOk result (priced.new.live.times ≡ priced.old.live.times) }
{
    turn_by_flips(priced, day, flips, steps)
}

/// Brings a timetable that follows rows, but for what a change concerns, to follow them altogether. Where the rows have a
/// cycle, it follows them still but for that, and such a cycle is its last. The clock that it follows is the earlier one.
pub fn turn<L: Ledger>(
    priced: &mut PricedTimetable,
    day: &Day<'_>,
    change: &Change,
    schedule: &[Scheduled],
    earlier: Secs,
    steps: &mut Steps<L>,
) -> Result<(), Cyclic>
    requires priced { IsPriced day.now.net.now priced.old }
    requires reaches { Reaches day.now.rows.now change.now }
    requires follows { FollowsBut day.now.net.now day.now.rows.now change.now priced.old.live.given }
    requires flags { AreFlagsBut day.now.net.now day.now.rows.now change.now (flags_of priced.old) }
    requires schedule { IsScheduleOf day.now.net.now schedule.now }
    requires clock { FollowsAt day.now.net.now day.now.rows.now change.now earlier priced.old.live.given }
    ensures priced { IsPriced day.now.net.now priced.new }
    ensures follows { OnOk result (FollowsRows day.now.net.now day.now.rows.now priced.new.live.given) }
    ensures flags { AreFlagsOf day.now.net.now day.now.rows.now (flags_of priced.new) }
    ensures cycle_stays { OnOk result (priced.new.live.order.cycle ≡ priced.old.live.order.cycle) }
    ensures followed { OnErr result (FollowsBut day.now.net.now day.now.rows.now change.now priced.new.live.given) }
    ensures cycle { OnErr result (IsCycle day.now.net.now day.now.rows.now priced.new.live.order.cycle) }
    ensures clock { FollowsAt day.now.net.now day.now.rows.now change.now day.now.rows.now.clock priced.new.live.given }
    ensures marks { OnOk result (MarksFor day.now.net.now day.now.rows.now change.now priced.old.live priced.new.live steps.old steps.new) }
    ensures times { OnOk result (KeepsTimesBut (MovesPass change.now) priced.old.live.times priced.new.live.times) }
{
    match change {
        Change::EventDelay { event, .. } => {
            priced.set_floor(day.net, *event, floor_of(day.net, day.rows, *event));
            Ok(())
        }
        Change::ActDelay { act, .. } => {
            priced.set_span(day.net, *act, span_of(day.net, day.rows, *act));
            Ok(())
        }
        Change::Passed { event, .. } => turn_event(priced, day, *event, steps),
        Change::Recalled { event } => turn_event(priced, day, *event, steps),
        Change::Cancelled { event } => turn_event(priced, day, *event, steps),
        Change::Restored { event } => turn_event(priced, day, *event, steps),
        Change::Locked(_) => Ok(()),
        Change::Unlocked(_) => Ok(()),
        Change::Flipped(flip) => turn_by_flips(priced, day, &[*flip], steps),
        Change::Adopted(flips) => turn_adopted(priced, day, flips.as_slice(), steps),
        Change::Clock { .. } => {
            move_clock(priced, day, schedule, earlier);
            Ok(())
        }
    }
}
