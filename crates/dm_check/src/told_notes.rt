//! Boards that were dropped, each noted once.
ghost use Rattle.std.specs.Prelude.{◌≡◌, [], ◌<◌, List, length, All};
ghost use Rattle.dm_base.specs.declared.limits.TheConstants.{BOARDS};
ghost use Rattle.dm_rows.specs.declared.messages.Entry.{Entry as EntryValue};
ghost use Rattle.dm_cert.specs.declared.notes.Note.{Note};
ghost use Rattle.dm_check_rows.specs.Claims.{Tells};
ghost use Rattle.dm_records.specs.Readings.{note};
ghost use Rattle.dm_check.specs.FalseRecords.{IsNextNote};
ghost use Rattle.dm_check.specs.Judged.{AreBefore, NotesOn, TellsNotes};

use crate::faults::{Fault, Stop};
use crate::told_lines::note_told;
use crate::verdicts::BadKind;
use dm_base::limits::BOARDS;
use dm_records::NoteLine;
use dm_text::Lines;
use std::alloc::Global;

/// The largest id of a stop.
const LARGEST_STOP: u128 = 4_294_967_295;

/// The boards of the notes so far, and the entry of the last, or 0. A list of at most 64 boards is looked through whole.
#[derive(Drop)]
pub(crate) struct Notes {
    boards: Vec<u128>,
    entry: u32,
}

/// No note stands before.
fn no_notes(alloc: Global) -> Notes
    ensures { AreBefore [] result }
{
    Notes {
        boards: Vec::new(alloc),
        entry: 0,
    }
}

/// Whether the board is none of these.
fn is_free(boards: &[u128], board: u128) -> bool
    ensures { Tells (All (λ used. used ≡ board → ⊥) boards.now) result }
{
    boards.iter().all(|used| *used != board)
}

/// Whether the note is true at so many entries, and in order behind those before it.
fn is_next_note(notes: &Notes, entries: usize, said: &NoteLine) -> bool
    ensures { (history : List EntryValue) (before : List Note) → length history ≡ entries → AreBefore before notes.now
        → Tells (IsNextNote history before (note said.now)) result }
{
    if said.board < 1 || said.board > BOARDS as u128 || said.stop > LARGEST_STOP {
        return false;
    }
    if said.entry < notes.entry || said.entry as usize > entries {
        return false;
    }
    is_free(&notes.boards, said.board)
}

fn next_note(lines: &mut Lines, notes: &mut Notes, entries: usize) -> Result<(), Stop>
    ensures { (history : List EntryValue) (before : List Note) → length history ≡ entries → AreBefore before notes.old
        → NotesOn history before lines.old lines.new notes.new result }
{
    let line = lines.line();
    let said = match note_told(lines) {
        Ok(said) => said,
        Err(fault) => return Err(Stop::Fault(fault)),
    };
    if !is_next_note(notes, entries, &said) {
        return Err(Stop::Fault(Fault {
            line,
            kind: BadKind::Board,
        }));
    }
    let Ok(()) = notes.boards.push(said.board) else {
        return Err(Stop::OutOfMemory);
    };
    notes.entry = said.entry;
    Ok(())
}

pub(crate) fn all_notes(
    alloc: Global,
    lines: &mut Lines,
    entries: usize,
    count: u128,
) -> Result<(), Stop>
    ensures { (history : List EntryValue) → length history ≡ entries → TellsNotes history count lines.old lines.new result }
{
    let mut notes = no_notes(alloc);
    for _note in 0..count {
        match next_note(lines, &mut notes, entries) {
            Ok(()) => (),
            Err(stop) => return Err(stop),
        }
    }
    Ok(())
}
