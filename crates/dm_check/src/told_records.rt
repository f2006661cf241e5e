//! Records of one line, each with its rule.
ghost use Rattle.std.specs.Prelude.{ℕ, ◌≡◌, ◌<◌, ◌≤◌, List, length, codes};
ghost use Rattle.dm_base.specs.declared.limits.TheConstants.{FEEDS, ENTRIES};
ghost use Rattle.dm_rows.specs.Timetable.{IsLeast};
ghost use Rattle.dm_check_times.specs.Binding.{AreBelowLimit};
ghost use Rattle.dm_cert.specs.RunTexts.{Run};
ghost use Rattle.dm_check_rows.specs.Claims.{AreCheckedRowsOf, times_of};
ghost use Rattle.dm_check_answers.specs.Judging.{IsRunSetting};
ghost use Rattle.dm_check.specs.FalseRecords.{TellsNumber, TellsTime, TellsCost, TellsEnd};
ghost use Rattle.dm_check.specs.Judged.{Judges, TellsTimetable};

use crate::faults::Fault;
use crate::told_lines::{number_told, time_told, word_told};
use crate::verdicts::BadKind;
use dm_base::Cost;
use dm_base::limits::{ENTRIES, FEEDS};
use dm_check_answers::RunSetting;
use dm_check_rows::CheckedRows;
use dm_text::Lines;

/// The penalty, which is the command's.
pub(crate) fn penalty_told(lines: &mut Lines, penalty: u64) -> Result<u128, Fault>
    ensures { Judges (TellsNumber (codes "penalty ") (λ n. n ≡ penalty)) (λ n. n) lines.old lines.new result }
{
    this_number_told(lines, "penalty ", penalty as u128)
}

pub(crate) fn feeds_told(lines: &mut Lines) -> Result<usize, Fault>
    ensures { Judges (TellsNumber (codes "feeds ") (λ n. (1 ≤ n) × (n ≤ FEEDS))) (λ n. n) lines.old lines.new result }
{
    let line = lines.line();
    let number = match number_told(lines, "feeds ") {
        Ok(number) => number,
        Err(fault) => return Err(fault),
    };
    if 1 <= number && number <= FEEDS as u128 {
        Ok(number as usize)
    } else {
        Err(Fault {
            line,
            kind: BadKind::Form,
        })
    }
}

pub(crate) fn entries_told(lines: &mut Lines) -> Result<u32, Fault>
    ensures { Judges (TellsNumber (codes "entries ") (λ n. n ≤ ENTRIES)) (λ n. n) lines.old lines.new result }
{
    let line = lines.line();
    let number = match number_told(lines, "entries ") {
        Ok(number) => number,
        Err(fault) => return Err(fault),
    };
    if number <= ENTRIES as u128 {
        Ok(number as u32)
    } else {
        Err(Fault {
            line,
            kind: BadKind::Form,
        })
    }
}

/// The heading of the times, after all entries.
pub(crate) fn heading_told(lines: &mut Lines, entries: u32) -> Result<u128, Fault>
    ensures { Judges (TellsNumber (codes "times ") (λ n. n ≡ entries)) (λ n. n) lines.old lines.new result }
{
    this_number_told(lines, "times ", entries as u128)
}

/// The number behind the words, which must be this one.
fn this_number_told(lines: &mut Lines, words: &str, expected: u128) -> Result<u128, Fault>
    ensures { Judges (TellsNumber words.now (λ n. n ≡ expected)) (λ n. n) lines.old lines.new result }
{
    let line = lines.line();
    let number = match number_told(lines, words) {
        Ok(number) => number,
        Err(fault) => return Err(fault),
    };
    if number == expected {
        Ok(number)
    } else {
        Err(Fault {
            line,
            kind: BadKind::Form,
        })
    }
}

/// The time of the event at this place, where the times are the least ones.
pub(crate) fn event_told(
    lines: &mut Lines,
    setting: &RunSetting<'_>,
    checked: &CheckedRows,
    i: usize,
) -> Result<u128, Fault>
    requires stands { AreCheckedRowsOf setting.now.net.now checked.now }
    requires least { IsLeast setting.now.net.now checked.now.rows (times_of checked.now) }
    requires is_event { i < length setting.now.net.now.events }
    ensures { (before : List ℕ) → length before ≡ i
        → Judges (TellsTime setting.now.net.now checked.now.rows before) (λ t. t) lines.old lines.new result }
{
    let line = lines.line();
    let said = match time_told(lines) {
        Ok(said) => said,
        Err(fault) => return Err(fault),
    };
    if said.event == setting.net.event(i).id.0 && checked.is_time(i, said.time) {
        Ok(said.time)
    } else {
        Err(Fault {
            line,
            kind: BadKind::Time,
        })
    }
}

/// The final cost, where the times are the least ones.
pub(crate) fn cost_told(
    lines: &mut Lines,
    setting: &RunSetting<'_>,
    checked: &CheckedRows,
) -> Result<Cost, Fault>
    requires stands { AreCheckedRowsOf setting.now.net.now checked.now }
    requires least { IsLeast setting.now.net.now checked.now.rows (times_of checked.now) }
    requires early { AreBelowLimit (times_of checked.now) }
    requires setting { IsRunSetting setting.now }
    ensures { Judges (TellsCost setting.now.net.now checked.now.rows setting.now.penalty) (λ c. c) lines.old lines.new result }
{
    let line = lines.line();
    let number = match number_told(lines, "cost ") {
        Ok(number) => number,
        Err(fault) => return Err(fault),
    };
    if checked.is_cost(setting.net, setting.penalty, number) {
        Ok(number)
    } else {
        Err(Fault {
            line,
            kind: BadKind::Cost,
        })
    }
}

/// The last line, with nothing behind it.
pub(crate) fn end_told(lines: &mut Lines) -> Result<(), Fault>
    ensures { (run : Run) → Judges (TellsEnd run) (λ said. run) lines.old lines.new result }
{
    match word_told(lines, "done") {
        Ok(()) => (),
        Err(fault) => return Err(fault),
    }
    match lines.left() {
        [] => Ok(()),
        [_, ..] => Err(Fault {
            line: lines.line(),
            kind: BadKind::Form,
        }),
    }
}

/// The times of all events, where the times are the least ones.
pub(crate) fn timetable_told(
    lines: &mut Lines,
    setting: &RunSetting<'_>,
    checked: &CheckedRows,
) -> Result<(), Fault>
    requires stands { AreCheckedRowsOf setting.now.net.now checked.now }
    requires least { IsLeast setting.now.net.now checked.now.rows (times_of checked.now) }
    ensures { TellsTimetable setting.now.net.now checked.now.rows lines.old lines.new result }
{
    for i in 0..setting.net.events() {
        match event_told(lines, setting, checked, i) {
            Ok(_time) => (),
            Err(fault) => return Err(fault),
        }
    }
    Ok(())
}
