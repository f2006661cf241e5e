//! What follows the logs: the notes of boards, the times and the cost.
ghost use Rattle.std.specs.Prelude.{◌≡◌, ◌<◌, List, length};
ghost use Rattle.dm_rows.specs.Active.{HasNoCycle};
ghost use Rattle.dm_rows.specs.Timetable.{IsLeast};
ghost use Rattle.dm_check_times.specs.Binding.{AreBelowLimit};
ghost use Rattle.dm_cert.specs.Answers.{rows_after};
ghost use Rattle.dm_cert.specs.declared.notes.Note.{Note};
ghost use Rattle.dm_cert.specs.declared.replies.FeedLog.{FeedLog};
ghost use Rattle.dm_cert.specs.Logs.{all_items};
ghost use Rattle.dm_check_rows.specs.Claims.{AreCheckedRowsOf, times_of};
ghost use Rattle.dm_check_answers.specs.Judging.{IsRunSetting, setting_of, history_of};
ghost use Rattle.dm_check.specs.Judged.{AreFlagged, EndingOn, RestOn};

use crate::faults::{Fault, Stop};
use crate::named::boards_told;
use crate::told_lines::time_told;
use crate::told_notes::all_notes;
use crate::told_records::{cost_told, end_told, heading_told, timetable_told};
use crate::verdicts::BadKind;
use dm_check_answers::Journal;
use dm_check_rows::CheckedRows;
use dm_check_times::HeldCycle;
use dm_rows::Rows;
use dm_text::Lines;

/// The times, the cost and the last line, where the times are the least ones.
fn priced_told(lines: &mut Lines, journal: &Journal<'_>, checked: &CheckedRows) -> Result<(), Stop>
    requires setting { IsRunSetting journal.now.setting }
    requires stands { AreCheckedRowsOf journal.now.setting.net.now checked.now }
    requires least { IsLeast journal.now.setting.net.now checked.now.rows (times_of checked.now) }
    requires early { AreBelowLimit (times_of checked.now) }
    ensures { (logs : List FeedLog) (notes : List Note)
        → EndingOn (setting_of journal.now.setting) (history_of journal.now) logs notes checked.now.rows lines.old lines.new result }
{
    match timetable_told(lines, &journal.setting, checked) {
        Ok(()) => (),
        Err(fault) => return Err(Stop::Fault(fault)),
    }
    match cost_told(lines, &journal.setting, checked) {
        Ok(_cost) => (),
        Err(fault) => return Err(Stop::Fault(fault)),
    }
    match end_told(lines) {
        Ok(()) => Ok(()),
        Err(fault) => Err(Stop::Fault(fault)),
    }
}

/// The first time, which is not true where the rows have a cycle.
fn untimed_told(lines: &mut Lines, journal: &Journal<'_>, rows: &Rows) -> Result<(), Stop>
    requires cyclic { HasNoCycle journal.now.setting.net.now rows.now → ⊥ }
    ensures { (logs : List FeedLog) (notes : List Note)
        → EndingOn (setting_of journal.now.setting) (history_of journal.now) logs notes rows.now lines.old lines.new result }
{
    journal.setting.net.reveal();
    let line = lines.line();
    match time_told(lines) {
        Ok(_said) => Err(Stop::Fault(Fault {
            line,
            kind: BadKind::Time,
        })),
        Err(fault) => Err(Stop::Fault(fault)),
    }
}

/// The times of the rows, their cost and the last line.
fn ending_told(
    lines: &mut Lines,
    journal: &Journal<'_>,
    checked: &mut CheckedRows,
) -> Result<(), Stop>
    requires setting { IsRunSetting journal.now.setting }
    requires stands { AreCheckedRowsOf journal.now.setting.net.now checked.old }
    ensures { (logs : List FeedLog) (notes : List Note)
        → EndingOn (setting_of journal.now.setting) (history_of journal.now) logs notes checked.old.rows lines.old lines.new result }
{
    match checked.settle(journal.setting.net) {
        Ok(()) => priced_told(lines, journal, checked),
        Err(HeldCycle) => untimed_told(lines, journal, checked.rows()),
    }
}

/// What stands behind the logs, where the rows are those after all entries.
pub(crate) fn rest_told(
    lines: &mut Lines,
    journal: &Journal<'_>,
    checked: &mut CheckedRows,
    named: &[bool],
    entries: u32,
) -> Result<(), Stop>
    requires setting { IsRunSetting journal.now.setting }
    requires stands { AreCheckedRowsOf journal.now.setting.net.now checked.old }
    requires rows_are { checked.old.rows ≡ rows_after (setting_of journal.now.setting) (history_of journal.now)
        (length (history_of journal.now)) }
    requires each { length named.now ≡ length (history_of journal.now) }
    requires counted { length (history_of journal.now) ≡ entries }
    ensures { (logs : List FeedLog) → AreFlagged (all_items logs) named.now
        → RestOn (setting_of journal.now.setting) (history_of journal.now) logs lines.old lines.new result }
{
    let notes = match boards_told(lines, named) {
        Ok(notes) => notes,
        Err(fault) => return Err(Stop::Fault(fault)),
    };
    match all_notes(journal.setting.alloc, lines, entries as usize, notes) {
        Ok(()) => (),
        Err(stop) => return Err(stop),
    }
    match heading_told(lines, entries) {
        Ok(_entries) => (),
        Err(fault) => return Err(Stop::Fault(fault)),
    }
    ending_told(lines, journal, checked)
}
