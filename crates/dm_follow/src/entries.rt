//! Lines that are read one after the other. Each entry is entered in a table as its line is read.
ghost use Rattle.std.specs.Prelude.{◌≡◌, ◌≤◌, ◌<◌, ◌↔◌, ℕ, List, length, IsTrue, IfOk, OnErr};
ghost use Rattle.dm_base.specs.declared.limits.TheConstants.{ENTRIES as MOST, PENALTY as LARGEST};
ghost use Rattle.dm_records.specs.RunLines.{IsEntryLine};
ghost use Rattle.dm_records.specs.Readings.{IsRead, numbered};
ghost use Rattle.dm_table.specs.Value.{HasRoomFor};
ghost use Rattle.dm_follow.specs.Inside.Moving.{IsLive};
ghost use Rattle.dm_follow.specs.Inside.Reading.{Advances, AdvancesHeader, AnswersPost, Enters, IsInHeader, IsInTurn, KeepsEntries, Posts, stage_after};

use crate::faults::FollowKind;
use crate::headers::{header_behind, header_line};
use crate::stages::Stage;
use dm_base::Steps;
use dm_records::{EntryLine, entry_line};
use dm_rows::{Entry, Refusal};
use dm_table::Table;
use std::alloc::{AllocError, Global};
use std::marker::Brand;
use std::sync::ledger::{Blank, Ledger};

/// The number of the line of the first entry.
const FIRST: u32 = 5;

/// What comes behind a line. An entry is entered in the table; where there is not enough memory, none is.
pub fn stage_behind(
    alloc: Global,
    table: &mut Table<'_>,
    stage: Stage,
    line: &[u8],
) -> Result<Stage, AllocError>
    requires { IsLive stage }
    ensures advances { IfOk result (Advances table.old table.new stage line.now) }
    ensures kept { OnErr result (KeepsEntries table.old table.new) }
{
    table.reveal();
    match stage {
        Stage::Journal { feeds, entries } => journal_behind(alloc, table, feeds, entries, line),
        _ => Ok(header_stage(stage, table.penalty(), line)),
    }
}

/// What comes behind a line of the header.
fn header_stage(stage: Stage, penalty: u64, line: &[u8]) -> Stage
    requires is_in_header { IsInHeader stage }
    requires low { penalty ≤ LARGEST }
    ensures { AdvancesHeader penalty stage line.now result }
{
    match header_behind(stage, penalty, line) {
        Some(next) => next,
        None => Stage::Failed {
            line: header_line(stage),
            kind: FollowKind::Form,
        },
    }
}

/// What comes behind a line behind the header: it is passed over where all entries were read.
fn journal_behind(
    alloc: Global,
    table: &mut Table<'_>,
    feeds: u32,
    entries: u32,
    line: &[u8],
) -> Result<Stage, AllocError>
    ensures advances { IfOk result (Advances table.old table.new (Stage.Journal feeds entries) line.now) }
    ensures kept { OnErr result (KeepsEntries table.old table.new) }
{
    if table.len() >= entries {
        return Ok(Stage::Journal { feeds, entries });
    }
    match entry_line(alloc, line) {
        Ok(said) => entry_behind(table, feeds, entries, said),
        Err(AllocError) => Err(AllocError),
    }
}

/// What comes behind the line of an entry, as it was read.
fn entry_behind(
    table: &mut Table<'_>,
    feeds: u32,
    entries: u32,
    said: Option<EntryLine>,
) -> Result<Stage, AllocError>
    requires { length table.old.history < entries }
    ensures advances { (line : List ℕ) → IsRead IsEntryLine numbered line said
        → IfOk result (Advances table.old table.new (Stage.Journal feeds entries) line) }
    ensures kept { OnErr result (KeepsEntries table.old table.new) }
{
    table.reveal();
    let entered = table.len();
    let said = match said {
        Some(said) => said,
        None => {
            return Ok(Stage::Failed {
                line: entered + FIRST,
                kind: FollowKind::Form,
            });
        }
    };
    match enter(table, feeds, said) {
        Ok(is_next) => Ok(stage_after(feeds, entries, entered, is_next)),
        Err(AllocError) => Err(AllocError),
    }
}

/// What comes behind the line of an entry, of which it is known whether it was the next.
fn stage_after(feeds: u32, entries: u32, entered: u32, is_next: bool) -> Stage
    requires { entered ≤ MOST }
    ensures { result ≡ stage_after feeds entries entered is_next }
{
    if is_next {
        Stage::Journal { feeds, entries }
    } else {
        Stage::Failed {
            line: entered + FIRST,
            kind: FollowKind::Entry,
        }
    }
}

/// Enters the entry of a line, where it is the next in turn and nothing refuses it.
fn enter(table: &mut Table<'_>, feeds: u32, said: EntryLine) -> Result<bool, AllocError>
    ensures enters { IfOk result (Enters table.old table.new feeds (numbered said)) }
    ensures kept { OnErr result (KeepsEntries table.old table.new) }
{
    if !is_in_turn(&said, feeds, table.len()) {
        return Ok(false);
    }
    enter_next(table, feeds, said)
}

/// Enters the entry of a line that is the next in turn, where nothing refuses it.
fn enter_next(table: &mut Table<'_>, feeds: u32, said: EntryLine) -> Result<bool, AllocError>
    requires { IsInTurn feeds (length table.old.history) (numbered said) }
    ensures enters { IfOk result (Enters table.old table.new feeds (numbered said)) }
    ensures kept { OnErr result (KeepsEntries table.old table.new) }
{
    let Ok(()) = table.reserve(&said.message) else {
        return Err(AllocError);
    };
    post_with::<Brand>(table, said.into_entry(), Blank::new(1))
}

/// Whether the number is the next, the feed is one of so many, and the line is one.
fn is_in_turn(said: &EntryLine, feeds: u32, entered: u32) -> bool
    requires { entered ≤ MOST }
    ensures { IsTrue result ↔ IsInTurn feeds entered (numbered said.now) }
{
    said.number == entered + 1 && said.feed <= feeds as u128 && 1 <= said.line
}

/// Enters an entry, for which there is room, for a ledger that nothing reads. It answers whether it was accepted.
fn post_with<L: Ledger>(
    table: &mut Table<'_>,
    entry: Entry,
    blank: Blank,
) -> Result<bool, AllocError>
    requires room { HasRoomFor table.old entry.message }
    requires name { blank.name ≡ L.name }
    requires parts { blank.parts ≡ L.parts }
    requires has_a_part { 0 < blank.parts }
    ensures posts { IfOk result (Posts table.old table.new entry) }
    ensures kept { OnErr result (KeepsEntries table.old table.new) }
{
    table.reveal();
    let mut steps = Steps::<L>::new(blank);
    let posted = table.post(entry, &mut steps);
    is_entered(posted)
}

/// Whether a message was entered, or refused for a cause. `Err` is want of memory alone.
fn is_entered(posted: Result<u32, Refusal>) -> Result<bool, AllocError>
    ensures { AnswersPost posted result }
{
    match posted {
        Ok(_number) => Ok(true),
        Err(Refusal::OutOfMemory) => Err(AllocError),
        Err(_refusal) => Ok(false),
    }
}
