//! A timetable kept with rows as they change.
ghost use Rattle.std.specs.Prelude.{ℕ, ◌≡◌, ◌<◌, All, Bool, true, length, slice_index};
ghost use Rattle.dm_rows.specs.Rows.{RowsValue, IsSized};
ghost use Rattle.dm_rows.specs.Resolve.{after_change};
ghost use Rattle.dm_rows.specs.declared.messages.Flip.TheVariants.{First};
ghost use Rattle.dm_schedule.specs.Schedule.{IsScheduleOf};
ghost use Rattle.dm_check_times.specs.Timetables.{IsTimetableOf, AgreesWith, ChangesNet, FlipsNet};
ghost use Rattle.dm_check_times.specs.Inside.Agreeing.{is_adopted, RenewsFor, Renews, MovesAt, MovesAmong, MovesClock, Nowhere, Here, Below, IsMoved, InRow, LeadsAt, IsDecided};

use crate::kept_timetable::KeptTimetable;
use crate::row::{row_into, row_out_of};
use dm_network::Network;
use dm_rows::{Change, Flip, Rows};
use dm_schedule::{Scheduled, scheduled_before};

/// Keeps a timetable with rows that have just changed so, and answers yes; or answers no, for an adopted list, which is not
/// followed. It takes no memory. It looks at what is around the change, and where the clock goes on at the events that are
/// scheduled before it.
pub fn keep_up(
    timetable: &mut KeptTimetable,
    net: &Network,
    schedule: &[Scheduled],
    rows: &Rows,
    change: &Change,
) -> bool
    requires sized { IsSized net.now rows.now }
    requires schedule { IsScheduleOf net.now schedule.now }
    requires timetable { IsTimetableOf net.now timetable.old }
    requires within { ChangesNet net.now change.now }
    ensures timetable { IsTimetableOf net.now timetable.new }
    ensures agrees { result ≡ true → (before : RowsValue) → rows.now ≡ after_change before change.now
        → AgreesWith net.now before timetable.old → AgreesWith net.now rows.now timetable.new }
    ensures times { timetable.new.times ≡ timetable.old.times }
{
    net.reveal();
    if is_adopted(change) {
        return false;
    }
    renew_for(timetable, net, schedule, rows, change);
    true
}

/// Whether the change is of an adopted list.
fn is_adopted(change: &Change) -> bool
    ensures { result ≡ is_adopted change.now }
{
    matches!(change, Change::Adopted(_))
}

/// Renews what a change is about, and nothing for an adopted list.
fn renew_for(
    timetable: &mut KeptTimetable,
    net: &Network,
    schedule: &[Scheduled],
    rows: &Rows,
    change: &Change,
)
    requires sized { IsSized net.now rows.now }
    requires schedule { IsScheduleOf net.now schedule.now }
    requires timetable { IsTimetableOf net.now timetable.old }
    requires within { ChangesNet net.now change.now }
    ensures timetable { IsTimetableOf net.now timetable.new }
    ensures renews { RenewsFor net.now rows.now change.now timetable.old timetable.new }
{
    match change {
        Change::EventDelay { event, .. } => timetable.renew_event(net, rows, *event),
        Change::ActDelay { act, .. } => timetable.renew_activity(net, rows, *act),
        Change::Passed { event, .. } => renew_around(timetable, net, rows, *event),
        Change::Recalled { event } => renew_around(timetable, net, rows, *event),
        Change::Cancelled { event } => renew_around(timetable, net, rows, *event),
        Change::Restored { event } => renew_around(timetable, net, rows, *event),
        Change::Locked(_) | Change::Unlocked(_) => {}
        Change::Flipped(flip) => renew_flipped(timetable, net, rows, *flip),
        Change::Adopted(_) => {}
        Change::Clock { .. } => renew_clock(timetable, net, schedule, rows),
    }
}

/// Renews an event, and the activities into it and out of it.
fn renew_around(timetable: &mut KeptTimetable, net: &Network, rows: &Rows, event: usize)
    requires sized { IsSized net.now rows.now }
    requires timetable { IsTimetableOf net.now timetable.old }
    requires is_event { event < length net.now.events }
    ensures timetable { IsTimetableOf net.now timetable.new }
    ensures renews { Renews net.now rows.now (Here event) (LeadsAt net.now event) timetable.old timetable.new }
{
    timetable.renew_event(net, rows, event);
    renew_row(timetable, net, rows, row_into(net, event));
    renew_row(timetable, net, rows, row_out_of(net, event));
}

/// Renews what a decision is about.
fn renew_flipped(timetable: &mut KeptTimetable, net: &Network, rows: &Rows, flip: Flip)
    requires sized { IsSized net.now rows.now }
    requires timetable { IsTimetableOf net.now timetable.old }
    requires within { FlipsNet net.now flip }
    ensures timetable { IsTimetableOf net.now timetable.new }
    ensures renews { Renews net.now rows.now Nowhere (IsDecided net.now flip) timetable.old timetable.new }
{
    match flip {
        Flip::Keep { act } => timetable.renew_activity(net, rows, act),
        Flip::Drop { act } => timetable.renew_activity(net, rows, act),
        Flip::First { pair, .. } => renew_pair(timetable, net, rows, pair),
    }
}

/// Renews the activities out of the two events of a pair.
fn renew_pair(timetable: &mut KeptTimetable, net: &Network, rows: &Rows, pair: usize)
    requires sized { IsSized net.now rows.now }
    requires timetable { IsTimetableOf net.now timetable.old }
    requires is_pair { pair < length net.now.pairs }
    ensures timetable { IsTimetableOf net.now timetable.new }
    ensures renews { (small : Bool) → Renews net.now rows.now Nowhere (IsDecided net.now (First pair small)) timetable.old timetable.new }
{
    net.reveal();
    let pair = net.pair(pair);
    let (small, large) = (pair.small, pair.large);
    renew_row(timetable, net, rows, row_out_of(net, small));
    renew_row(timetable, net, rows, row_out_of(net, large));
}

/// Renews some activities.
fn renew_row(timetable: &mut KeptTimetable, net: &Network, rows: &Rows, row: &[usize])
    requires sized { IsSized net.now rows.now }
    requires timetable { IsTimetableOf net.now timetable.old }
    requires row { (k : ℕ) → k < length row.now → slice_index row.now k < length net.now.activities }
    ensures timetable { IsTimetableOf net.now timetable.new }
    ensures renews { Renews net.now rows.now Nowhere (InRow row.now (length row.now)) timetable.old timetable.new }
{
    for a in row {
        timetable.renew_activity(net, rows, *a);
    }
}

/// Renews what a clock may move, and the clock.
fn renew_clock(timetable: &mut KeptTimetable, net: &Network, schedule: &[Scheduled], rows: &Rows)
    requires sized { IsSized net.now rows.now }
    requires schedule { IsScheduleOf net.now schedule.now }
    requires timetable { IsTimetableOf net.now timetable.old }
    ensures timetable { IsTimetableOf net.now timetable.new }
    ensures moves { MovesClock net.now rows.now timetable.old timetable.new }
{
    renew_moved(timetable, net, schedule, rows);
    timetable.take_clock(net, rows);
}

/// Renews the events that the clock may move: those that are scheduled before it, or all where it has gone back.
fn renew_moved(timetable: &mut KeptTimetable, net: &Network, schedule: &[Scheduled], rows: &Rows)
    requires sized { IsSized net.now rows.now }
    requires schedule { IsScheduleOf net.now schedule.now }
    requires timetable { IsTimetableOf net.now timetable.old }
    ensures timetable { IsTimetableOf net.now timetable.new }
    ensures renews { Renews net.now rows.now (IsMoved net.now timetable.old rows.now.clock) Nowhere timetable.old timetable.new }
{
    let clock = rows.clock();
    if clock < timetable.clock() {
        renew_all(timetable, net, rows);
    } else {
        renew_due(timetable, net, scheduled_before(schedule, clock), rows);
    }
}

/// Renews every event.
fn renew_all(timetable: &mut KeptTimetable, net: &Network, rows: &Rows)
    requires sized { IsSized net.now rows.now }
    requires timetable { IsTimetableOf net.now timetable.old }
    ensures timetable { IsTimetableOf net.now timetable.new }
    ensures renews { Renews net.now rows.now (Below (length net.now.events)) Nowhere timetable.old timetable.new }
{
    for event in 0..net.events() {
        timetable.renew_event(net, rows, event);
    }
}

/// Renews those of some events whose floors are before the clock.
fn renew_due(timetable: &mut KeptTimetable, net: &Network, due: &[Scheduled], rows: &Rows)
    requires sized { IsSized net.now rows.now }
    requires are_events { All (λ s. s.event < length net.now.events) due.now }
    requires timetable { IsTimetableOf net.now timetable.old }
    ensures timetable { IsTimetableOf net.now timetable.new }
    ensures moves { MovesAmong net.now rows.now due.now (length due.now) timetable.old timetable.new }
{
    for scheduled in due {
        renew_if_moved(timetable, net, rows, scheduled.event);
    }
}

/// Renews an event if its floor is before the clock.
fn renew_if_moved(timetable: &mut KeptTimetable, net: &Network, rows: &Rows, event: usize)
    requires sized { IsSized net.now rows.now }
    requires timetable { IsTimetableOf net.now timetable.old }
    requires is_event { event < length net.now.events }
    ensures timetable { IsTimetableOf net.now timetable.new }
    ensures moves { MovesAt net.now rows.now event timetable.old timetable.new }
{
    if rows.clock() <= timetable.floor(event) {
        return;
    }
    timetable.renew_event(net, rows, event);
}
