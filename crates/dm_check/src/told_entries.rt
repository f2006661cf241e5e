//! The entries of a text. Each must be accepted by the rows after those before it.
ghost use Rattle.std.specs.Prelude.{◌≡◌, ◌+◌, ◌<◌, ◌≤◌, List};
ghost use Rattle.dm_base.specs.declared.limits.TheConstants.{ENTRIES, FEEDS};
ghost use Rattle.dm_rows.specs.declared.messages.Entry.{Entry as EntryValue};
ghost use Rattle.dm_cert.specs.Answers.{Setting};
ghost use Rattle.dm_check_rows.specs.Claims.{AreCheckedRowsOf, Tells};
ghost use Rattle.dm_records.specs.Readings.{numbered};
ghost use Rattle.dm_check.specs.Judged.{IsAfter, IsInTurn, TellsNextEntry, TellsEntries};

use crate::faults::{Fault, Stop};
use crate::told_lines::entry_told;
use crate::verdicts::BadKind;
use dm_check_rows::CheckedRows;
use dm_network::Network;
use dm_records::EntryLine;
use dm_rows::Entry;
use dm_text::Lines;
use std::alloc::{AllocError, Global};

/// The next entry, behind so many. The rows are then those after it.
pub(crate) fn next_entry(
    alloc: Global,
    lines: &mut Lines,
    net: &Network,
    checked: &mut CheckedRows,
    feeds: usize,
    entries: usize,
) -> Result<Entry, Stop>
    requires stands { AreCheckedRowsOf net.now checked.old }
    requires few { entries < ENTRIES }
    requires few_feeds { feeds ≤ FEEDS }
    ensures tells { (s : Setting) (before : List EntryValue) → IsAfter s net.now before entries checked.old.rows
        → TellsNextEntry s feeds before entries lines.old lines.new checked.new.rows result }
    ensures stands { AreCheckedRowsOf net.now checked.new }
{
    let line = lines.line();
    let said = match entry_told(alloc, lines) {
        Ok(said) => said,
        Err(stop) => return Err(stop),
    };
    if !is_in_turn(&said, feeds, entries) {
        return Err(Stop::Fault(Fault {
            line,
            kind: BadKind::Entry,
        }));
    }
    match checked.accept(alloc, net, entries, &said.message) {
        Ok(true) => Ok(said.into_entry()),
        Ok(false) => Err(Stop::Fault(Fault {
            line,
            kind: BadKind::Entry,
        })),
        Err(AllocError) => Err(Stop::OutOfMemory),
    }
}

/// Whether the number is the next, the feed is one of so many, and the line is one.
fn is_in_turn(said: &EntryLine, feeds: usize, entries: usize) -> bool
    requires { entries < ENTRIES }
    ensures { Tells (IsInTurn feeds entries (numbered said.now)) result }
{
    said.number as usize == entries + 1 && said.feed <= feeds as u128 && 1 <= said.line
}

/// As many entries as the header says. The list grows as lines are found. The rows are then those after all of them.
pub(crate) fn all_entries(
    alloc: Global,
    lines: &mut Lines,
    net: &Network,
    checked: &mut CheckedRows,
    feeds: usize,
    count: u32,
) -> Result<Vec<Entry>, Stop>
    requires stands { AreCheckedRowsOf net.now checked.old }
    requires few { count ≤ ENTRIES }
    requires few_feeds { feeds ≤ FEEDS }
    ensures tells { (s : Setting) → s.net ≡ net.now → checked.old.rows ≡ s.start
        → TellsEntries (λ v. v.items) s feeds count lines.old lines.new checked.new.rows result }
    ensures stands { AreCheckedRowsOf net.now checked.new }
{
    let mut entries = Vec::new(alloc);
    while entries.len() < count as usize {
        let place = entries.len();
        let entry = match next_entry(alloc, lines, net, checked, feeds, place) {
            Ok(entry) => entry,
            Err(stop) => return Err(stop),
        };
        let Ok(()) = entries.push(entry) else {
            return Err(Stop::OutOfMemory);
        };
    }
    Ok(entries)
}
