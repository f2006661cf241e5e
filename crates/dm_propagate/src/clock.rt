//! A timetable that is brought to follow rows at another clock.
ghost use Rattle.std.specs.Prelude.{ℕ, ◌≡◌, ◌+◌, ◌<◌, All, List, true, length, slice_index, slice_index_or};
ghost use Rattle.dm_rows.specs.Timetable.{floor_of};
ghost use Rattle.dm_live.specs.Live.{LiveValue, is_fixed};
ghost use Rattle.dm_priced.specs.Priced.{IsPriced};
ghost use Rattle.dm_propagate.specs.Inside.Flags.{flags_of, FixesPassed};
ghost use Rattle.dm_propagate.specs.Inside.Changing.{AreFloorsAt, HaveFloorsFrom, HasFloors, FloorsStay};
ghost use Rattle.dm_propagate.specs.Inside.Raising.{HaveFloorsBut, RaisesFloors};
ghost use Rattle.dm_schedule.specs.Schedule.{IsScheduleOf};

use crate::day::Day;
use dm_base::Secs;
use dm_priced::PricedTimetable;
use dm_rows::floor_of;
use dm_schedule::{Scheduled, scheduled_before};

/// Gives each event its floor by the rows, where each had it by the same rows at an earlier clock. Unless the clock is taken
/// back, an event that is scheduled at it or later has its floor already: a look at each other one finds those to change.
pub fn move_clock(
    priced: &mut PricedTimetable,
    day: &Day<'_>,
    schedule: &[Scheduled],
    earlier: Secs,
)
    requires priced { IsPriced day.now.net.now priced.old }
    requires schedule { IsScheduleOf day.now.net.now schedule.now }
    requires floors { AreFloorsAt day.now.net.now day.now.rows.now earlier priced.old.live.given }
    requires fixed { FixesPassed day.now.rows.now priced.old.live.fixed }
    ensures priced { IsPriced day.now.net.now priced.new }
    ensures flags { flags_of priced.new ≡ flags_of priced.old }
    ensures floors { HasFloors day.now.net.now day.now.rows.now (length day.now.net.now.events) priced.old.live priced.new.live }
{
    let clock = day.rows.clock();
    if clock < earlier {
        set_floors(priced, day);
    } else {
        let due = scheduled_before(schedule, clock);
        raise_floors(priced, day, clock, due);
    }
}

/// Gives each event its floor by the rows.
#[tactic(auto, using(crate::proofs::Flagging::flags_stay))]
fn set_floors(priced: &mut PricedTimetable, day: &Day<'_>)
    requires priced { IsPriced day.now.net.now priced.old }
    requires stay { FloorsStay day.now.net.now day.now.rows.now priced.old.live.given priced.old.live.fixed }
    ensures priced { IsPriced day.now.net.now priced.new }
    ensures flags { flags_of priced.new ≡ flags_of priced.old }
    ensures floors { HasFloors day.now.net.now day.now.rows.now (length day.now.net.now.events) priced.old.live priced.new.live }
{
    for i in 0..day.net.events() {
        priced.set_floor(day.net, i, floor_of(day.net, day.rows, i));
    }
}

/// Gives each event its floor by the rows, where each that is not due has it already, and so has each that has one from a
/// clock on.
#[tactic(auto, using(crate::proofs::Raising::none_raised, crate::proofs::Raising::all_raised))]
fn raise_floors(priced: &mut PricedTimetable, day: &Day<'_>, clock: Secs, due: &[Scheduled])
    requires priced { IsPriced day.now.net.now priced.old }
    requires are_events { All (λ s. s.event < length day.now.net.now.events) due.now }
    requires stand { HaveFloorsFrom day.now.net.now day.now.rows.now clock priced.old.live.given }
    requires others { HaveFloorsBut day.now.net.now day.now.rows.now due.now priced.old.live.given }
    requires stay { FloorsStay day.now.net.now day.now.rows.now priced.old.live.given priced.old.live.fixed }
    ensures priced { IsPriced day.now.net.now priced.new }
    ensures flags { flags_of priced.new ≡ flags_of priced.old }
    ensures floors { HasFloors day.now.net.now day.now.rows.now (length day.now.net.now.events) priced.old.live priced.new.live }
{
    for scheduled in due {
        if clock <= priced.live().floor(scheduled.event) {
            continue;
        }
        renew_floor(priced, day, scheduled.event);
    }
}

/// Gives one event its floor by the rows.
#[tactic(auto, using(crate::proofs::Flagging::flags_stay))]
fn renew_floor(priced: &mut PricedTimetable, day: &Day<'_>, i: usize)
    requires priced { IsPriced day.now.net.now priced.old }
    requires is_event { i < length day.now.net.now.events }
    requires stays { is_fixed priced.old.live.fixed i ≡ true →
        slice_index priced.old.live.given.floors i ≡ floor_of day.now.net.now day.now.rows.now i }
    ensures priced { IsPriced day.now.net.now priced.new }
    ensures flags { flags_of priced.new ≡ flags_of priced.old }
    ensures next { (before : LiveValue) (due : List Scheduled) (n : ℕ) → ((d : Scheduled) → (slice_index_or due n d).event ≡ i) →
        RaisesFloors day.now.net.now day.now.rows.now due n before priced.old.live →
        RaisesFloors day.now.net.now day.now.rows.now due (n + 1) before priced.new.live }
{
    priced.set_floor(day.net, i, floor_of(day.net, day.rows, i));
}
