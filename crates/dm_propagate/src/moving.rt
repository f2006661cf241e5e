//! A timetable that is moved from rows to those after a change, or only tried on them.
ghost use Rattle.std.specs.Prelude.{◌≡◌, length, OnOk, OnErr};
ghost use Rattle.dm_live.specs.Live.{IsAtRest};
ghost use Rattle.dm_network.specs.Net.{Net};
ghost use Rattle.dm_priced.specs.Priced.{IsPriced};
ghost use Rattle.dm_rows.specs.Rows.{IsSized};
ghost use Rattle.dm_rows.specs.Active.{IsCycle, HasNoCycle};
ghost use Rattle.dm_rows.specs.Reach.{Reaches};
ghost use Rattle.dm_rows.specs.Resolve.{after_change};
ghost use Rattle.dm_rows.specs.Timetable.{IsLeast};
ghost use Rattle.dm_rows.specs.Touch.{TellsTouched};
ghost use Rattle.dm_propagate.specs.Engine.{FollowsRows};
ghost use Rattle.dm_schedule.specs.Schedule.{IsScheduleOf};
ghost use Rattle.dm_propagate.specs.Moved.{TakesInMoved, TakesInCancelled};
ghost use Rattle.dm_propagate.specs.Reading.{KeepsClock, ReadsFew};
ghost use Rattle.dm_propagate.specs.Inside.Concern.{FollowsBut};
ghost use Rattle.dm_propagate.specs.Inside.Altering.{change_in};
ghost use Rattle.dm_propagate.specs.Inside.Flags.{flags_of, AreFlagsOf, AreFlagsBut, MovesPass};
ghost use Rattle.dm_propagate.specs.Inside.Changing.{FollowsAt, MarksFor};
ghost use Rattle.dm_propagate.specs.Inside.Noting.{KeepsTimesBut};

use crate::changing::{turn, turn_adopted};
use crate::day::Day;
use crate::noting::{note_passed, settle_noted};
use crate::setting::set_flips;
use dm_base::{Secs, Steps};
use dm_graph::search::Cyclic;
use dm_marks::PlaceSet;
use dm_priced::PricedTimetable;
use dm_rows::{Change, Flip, Rows};
use dm_schedule::Scheduled;
use std::sync::ledger::Ledger;

/// A change, or a list of decisions that are adopted as one.
#[derive(Clone, Copy)]
pub enum Alteration<'a> {
    Change(&'a Change),
    Adoption(&'a [Flip]),
}

impl Alteration<'_> {
    /// Makes it to rows.
    pub fn make(&self, rows: &mut Rows)
        requires { Reaches rows.old (change_in self.now) }
        ensures made { rows.new ≡ after_change rows.old (change_in self.now) }
        ensures sizes { (net : Net) → IsSized net rows.old → IsSized net rows.new }
    {
        match self {
            Alteration::Change(change) => rows.apply(change),
            Alteration::Adoption(flips) => set_flips(rows, flips),
        }
    }
}

/// Brings a timetable that follows the rows of a day to follow the others, which are those after a change, and settles it. Where
/// the others have a cycle, it follows the rows that it followed before, its times are the same, and such a cycle is its last.
/// The events whose times move are noted.
pub fn move_to<L: Ledger>(
    priced: &mut PricedTimetable,
    day: &Day<'_>,
    other: &Rows,
    what: &Alteration<'_>,
    schedule: &[Scheduled],
    moved: &mut PlaceSet,
    steps: &mut Steps<L>,
) -> Result<(), Cyclic>
    requires other_sized { IsSized day.now.net.now other.now }
    requires reaches { Reaches day.now.rows.now (change_in what.now) }
    requires other { other.now ≡ after_change day.now.rows.now (change_in what.now) }
    requires priced { IsPriced day.now.net.now priced.old }
    requires at_rest { IsAtRest priced.old.live }
    requires follows { FollowsRows day.now.net.now day.now.rows.now priced.old.live.given }
    requires flags { AreFlagsOf day.now.net.now day.now.rows.now (flags_of priced.old) }
    requires schedule { IsScheduleOf day.now.net.now schedule.now }
    requires noted { length moved.old.flags ≡ length day.now.net.now.events }
    ensures priced { IsPriced day.now.net.now priced.new }
    ensures at_rest { IsAtRest priced.new.live }
    ensures follows { OnOk result (FollowsRows day.now.net.now other.now priced.new.live.given) }
    ensures followed { OnErr result (FollowsRows day.now.net.now day.now.rows.now priced.new.live.given) }
    ensures flags { OnOk result (AreFlagsOf day.now.net.now other.now (flags_of priced.new)) }
    ensures flags_back { OnErr result (AreFlagsOf day.now.net.now day.now.rows.now (flags_of priced.new)) }
    ensures times { OnErr result (priced.new.live.times ≡ priced.old.live.times) }
    ensures cycle { OnErr result (IsCycle day.now.net.now other.now priced.new.live.order.cycle) }
    ensures few_reads { TellsTouched (change_in what.now) → KeepsClock day.now.rows.now (change_in what.now)
        → ReadsFew day.now.net.now other.now (change_in what.now) priced.old.live.times priced.new.live.times steps.old steps.new }
    ensures moved { TakesInMoved moved.old.flags moved.new.flags priced.old.live.times priced.new.live.times }
    ensures cancelled { OnOk result (TakesInCancelled moved.new.flags day.now.rows.now other.now) }
{
    day.net.reveal();
    let next = Day {
        net: day.net,
        rows: other,
    };
    match turn_to(priced, &next, what, schedule, day.rows.clock(), steps) {
        Ok(()) => {
            note_passed(moved, what);
            settle_noted(priced, day.net, moved, steps);
            Ok(())
        }
        Err(Cyclic) => {
            come_back(priced, day, what, schedule, other.clock(), steps);
            Err(Cyclic)
        }
    }
}

/// Whether the other rows, which are those after a change, have no cycle: a timetable that follows rows is brought to follow
/// the others, and back. Where they have one, such a cycle is its last.
pub fn try_rows<L: Ledger>(
    priced: &mut PricedTimetable,
    day: &Day<'_>,
    other: &Rows,
    what: &Alteration<'_>,
    schedule: &[Scheduled],
    steps: &mut Steps<L>,
) -> Result<(), Cyclic>
    requires other_sized { IsSized day.now.net.now other.now }
    requires reaches { Reaches day.now.rows.now (change_in what.now) }
    requires other { other.now ≡ after_change day.now.rows.now (change_in what.now) }
    requires priced { IsPriced day.now.net.now priced.old }
    requires at_rest { IsAtRest priced.old.live }
    requires follows { FollowsRows day.now.net.now day.now.rows.now priced.old.live.given }
    requires flags { AreFlagsOf day.now.net.now day.now.rows.now (flags_of priced.old) }
    requires schedule { IsScheduleOf day.now.net.now schedule.now }
    ensures priced { IsPriced day.now.net.now priced.new }
    ensures at_rest { IsAtRest priced.new.live }
    ensures followed { FollowsRows day.now.net.now day.now.rows.now priced.new.live.given }
    ensures flags { AreFlagsOf day.now.net.now day.now.rows.now (flags_of priced.new) }
    ensures times { priced.new.live.times ≡ priced.old.live.times }
    ensures no_cycle { OnOk result (HasNoCycle day.now.net.now other.now) }
    ensures cycle { OnErr result (IsCycle day.now.net.now other.now priced.new.live.order.cycle) }
{
    day.net.reveal();
    let next = Day {
        net: day.net,
        rows: other,
    };
    let outcome = turn_to(priced, &next, what, schedule, day.rows.clock(), steps);
    come_back(priced, day, what, schedule, other.clock(), steps);
    outcome
}

/// Brings a timetable, which follows rows without a cycle but for what a change concerns, to follow them, and settles it. The
/// clock that it follows is the earlier one.
fn come_back<L: Ledger>(
    priced: &mut PricedTimetable,
    day: &Day<'_>,
    what: &Alteration<'_>,
    schedule: &[Scheduled],
    earlier: Secs,
    steps: &mut Steps<L>,
)
    requires reaches { Reaches day.now.rows.now (change_in what.now) }
    requires priced { IsPriced day.now.net.now priced.old }
    requires follows { FollowsBut day.now.net.now day.now.rows.now (change_in what.now) priced.old.live.given }
    requires no_cycle { HasNoCycle day.now.net.now day.now.rows.now }
    requires flags { AreFlagsBut day.now.net.now day.now.rows.now (change_in what.now) (flags_of priced.old) }
    requires clock { FollowsAt day.now.net.now day.now.rows.now (change_in what.now) earlier priced.old.live.given }
    requires schedule { IsScheduleOf day.now.net.now schedule.now }
    ensures priced { IsPriced day.now.net.now priced.new }
    ensures at_rest { IsAtRest priced.new.live }
    ensures follows { FollowsRows day.now.net.now day.now.rows.now priced.new.live.given }
    ensures flags { AreFlagsOf day.now.net.now day.now.rows.now (flags_of priced.new) }
    ensures least { IsLeast day.now.net.now day.now.rows.now priced.new.live.times }
    ensures cycle_stays { priced.new.live.order.cycle ≡ priced.old.live.order.cycle }
{
    day.net.reveal();
    let Ok(()) = turn_to(priced, day, what, schedule, earlier, steps) else {
        unreachable!();
    };
    priced.settle(day.net, steps);
}

/// Brings a timetable that follows rows, but for what a change concerns, to follow them altogether. Where the rows have a
/// cycle, it follows them still but for that, and such a cycle is its last. The clock that it follows is the earlier one.
fn turn_to<L: Ledger>(
    priced: &mut PricedTimetable,
    day: &Day<'_>,
    what: &Alteration<'_>,
    schedule: &[Scheduled],
    earlier: Secs,
    steps: &mut Steps<L>,
) -> Result<(), Cyclic>
    requires priced { IsPriced day.now.net.now priced.old }
    requires reaches { Reaches day.now.rows.now (change_in what.now) }
    requires follows { FollowsBut day.now.net.now day.now.rows.now (change_in what.now) priced.old.live.given }
    requires flags { AreFlagsBut day.now.net.now day.now.rows.now (change_in what.now) (flags_of priced.old) }
    requires clock { FollowsAt day.now.net.now day.now.rows.now (change_in what.now) earlier priced.old.live.given }
    requires schedule { IsScheduleOf day.now.net.now schedule.now }
    ensures priced { IsPriced day.now.net.now priced.new }
    ensures follows { OnOk result (FollowsRows day.now.net.now day.now.rows.now priced.new.live.given) }
    ensures flags { AreFlagsOf day.now.net.now day.now.rows.now (flags_of priced.new) }
    ensures cycle_stays { OnOk result (priced.new.live.order.cycle ≡ priced.old.live.order.cycle) }
    ensures followed { FollowsBut day.now.net.now day.now.rows.now (change_in what.now) priced.new.live.given }
    ensures cycle { OnErr result (IsCycle day.now.net.now day.now.rows.now priced.new.live.order.cycle) }
    ensures clock { FollowsAt day.now.net.now day.now.rows.now (change_in what.now) day.now.rows.now.clock priced.new.live.given }
    ensures marks { OnOk result (MarksFor day.now.net.now day.now.rows.now (change_in what.now) priced.old.live priced.new.live steps.old
        steps.new) }
    ensures times { OnOk result (KeepsTimesBut (MovesPass (change_in what.now)) priced.old.live.times priced.new.live.times) }
{
    let outcome = match what {
        Alteration::Change(change) => turn(priced, day, change, schedule, earlier, steps),
        Alteration::Adoption(flips) => turn_adopted(priced, day, flips, steps),
    };
    match outcome {
        Ok(()) => Ok(()),
        Err(Cyclic) => Err(Cyclic),
    }
}
