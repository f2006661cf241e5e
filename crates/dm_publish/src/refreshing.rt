//! One board.
ghost use Rattle.std.specs.Prelude.{◌≡◌, ◌≤◌, ℕ, List, [], length, vec_capacity, All, IsOk, OnOk};
ghost use Rattle.dm_publish.specs.Value.{Published};
ghost use Rattle.dm_publish.specs.Inside.Changes.{ListsChanges};
ghost use Rattle.dm_publish.specs.Inside.Grouping.{AreGrouped};
ghost use Rattle.dm_publish.specs.Inside.Refreshing.{AreAtStop, Gathers, GathersFlags, NeedsFlag, NeedsTime, Refreshes, TakesValues, TellsTime, TellsFlag, published_by};

use crate::changes::Listed;
use crate::grouping::part_at;
use dm_base::{Secs, StopId};
use dm_network::Network;
use dm_outside::{Board, Failed};
use dm_times::Times;

/// What is published: the time of each event, and whether it is cancelled, by place.
#[derive(Clone, Copy)]
pub(crate) struct Publication<'a> {
    pub timetable: &'a Times,
    pub cancelled: &'a [bool],
}

/// Room for what a board is shown, for one of each event.
pub(crate) struct Changes {
    pub flags: Vec<(u32, bool)>,
    pub times: Vec<(u32, Secs)>,
}

impl Drop for Changes {
    fn drop(self) {
        let Changes { flags: _, times: _ } = self;
    }
}

/// Tells a board which of the listed events of its stop are cancelled, but for those that it shows so, and then shows it their
/// times, but for those of which it tells that it shows them and that do not run again by this call. It does nothing to the board
/// where there are none. The changes are written to lists that have room for one of each event.
pub(crate) fn refresh(
    net: &Network,
    shown: Publication<'_>,
    listed: &[Listed],
    board: &mut Box<dyn Board>,
    changes: &mut Changes,
) -> Result<(), Failed>
    requires size { length shown.timetable.now ≡ length net.now.events }
    requires flags { length shown.cancelled.now ≡ length net.now.events }
    requires grouped { AreGrouped net.now listed.now }
    requires room_for_flags { length net.now.events ≤ vec_capacity changes.old.flags }
    requires room_for_times { length net.now.events ≤ vec_capacity changes.old.times }
    ensures refreshed { (last : Published) → ListsChanges last (published_by shown.entry) listed.now
        → Refreshes place times flags faults is_sound net.now last (published_by shown.entry) board.old
        board.new result }
    ensures flags_room { vec_capacity changes.old.flags ≤ vec_capacity changes.new.flags }
    ensures times_room { vec_capacity changes.old.times ≤ vec_capacity changes.new.times }
{
    net.reveal();
    changes.flags.clear();
    changes.times.clear();
    let part = part_at(listed, stop_of(board));
    gather_flags(net, shown, part, board, &mut changes.flags);
    gather(net, shown, part, board, &mut changes.times);
    match cancel_on(board, &changes.flags) {
        Ok(()) => show_on(board, &changes.times),
        Err(Failed) => Err(Failed),
    }
}

/// Tells a board which events are cancelled and which run, unless there are none.
fn cancel_on(board: &mut Box<dyn Board>, changes: &[(u32, bool)]) -> Result<(), Failed>
    ensures { TakesValues place flags times faults is_sound board.old board.new changes.now result }
{
    if changes.is_empty() {
        return Ok(());
    }
    board.cancel(changes)
}

/// Shows times on a board, unless there are none.
fn show_on(board: &mut Box<dyn Board>, changes: &[(u32, Secs)]) -> Result<(), Failed>
    ensures { TakesValues place times flags faults is_sound board.old board.new changes.now result }
{
    if changes.is_empty() {
        return Ok(());
    }
    board.show(changes)
}

/// Gathers events at the stop of a board that it shows otherwise: as cancelled where they are not, or not so where they are.
fn gather_flags(
    net: &Network,
    shown: Publication<'_>,
    part: &[Listed],
    board: &Box<dyn Board>,
    changes: &mut Vec<(u32, bool)>,
)
    requires size { length shown.cancelled.now ≡ length net.now.events }
    requires at_stop { AreAtStop net.now (place board.now) part.now }
    requires few { length part.now ≤ length net.now.events }
    requires empty { changes.old.items ≡ [] }
    requires room { length net.now.events ≤ vec_capacity changes.old }
    ensures gathered { GathersFlags net.now shown.entry.cancelled.now (place board.now) (flags board.now) part.now (length part.now)
        changes.new.items }
    ensures room { vec_capacity changes.old ≤ vec_capacity changes.new }
{
    net.reveal();
    for listed in part {
        let id = net.event(listed.place).id.0;
        let cancelled = shown.cancelled[listed.place];
        if needs_flag(board, id, cancelled) {
            changes.push_reserved((id, cancelled));
        }
    }
}

/// Gathers events at the stop of a board of which it does not tell that it shows their times, or which it shows as cancelled and
/// that run again.
fn gather(
    net: &Network,
    shown: Publication<'_>,
    part: &[Listed],
    board: &Box<dyn Board>,
    changes: &mut Vec<(u32, Secs)>,
)
    requires size { length shown.timetable.now ≡ length net.now.events }
    requires flags { length shown.cancelled.now ≡ length net.now.events }
    requires at_stop { AreAtStop net.now (place board.now) part.now }
    requires few { length part.now ≤ length net.now.events }
    requires empty { changes.old.items ≡ [] }
    requires room { length net.now.events ≤ vec_capacity changes.old }
    ensures gathered { Gathers net.now (published_by shown.entry) (place board.now) (times board.now)
        (flags board.now) part.now (length part.now) changes.new.items }
    ensures room { vec_capacity changes.old ≤ vec_capacity changes.new }
{
    net.reveal();
    for listed in part {
        let id = net.event(listed.place).id.0;
        let time = shown.timetable.time(listed.place);
        if needs_time(board, id, time, shown.cancelled[listed.place]) {
            changes.push_reserved((id, time));
        }
    }
}

/// Whether a board shows an event as cancelled where it is not, or not so where it is.
fn needs_flag(board: &Box<dyn Board>, event: u32, cancelled: bool) -> bool
    ensures { NeedsFlag (flags board.now) event cancelled result }
{
    is_marked(board, event) != cancelled
}

/// Whether a board does not show this time of an event, or shows it as cancelled where it is not.
fn needs_time(board: &Box<dyn Board>, event: u32, time: Secs, cancelled: bool) -> bool
    ensures { NeedsTime (times board.now) (flags board.now) event time cancelled result }
{
    if !cancelled && is_marked(board, event) {
        return true;
    }
    !shows(board, event, time)
}

/// The stop whose events a board shows.
pub(crate) fn stop_of(board: &Box<dyn Board>) -> StopId
    ensures stop { result ≡ record { 0 = place board.now } }
    ensures fits { place board.now ≤ 4294967295 }
{
    StopId(board.stop())
}

/// Whether a board shows an event as cancelled.
fn is_marked(board: &Box<dyn Board>, event: u32) -> bool
    ensures { TellsFlag (flags board.now) event result }
{
    board.cancelled(event) == Some(true)
}

fn shows(board: &Box<dyn Board>, event: u32, time: Secs) -> bool
    ensures { TellsTime (times board.now) event time result }
{
    board.shown(event) == Some(time)
}
