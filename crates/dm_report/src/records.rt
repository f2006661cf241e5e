//! The records of a run besides its logs, in print.
ghost use Rattle.std.specs.Prelude.{◌≡◌, ◌<◌, length};
ghost use Rattle.dm_report.specs.Printed.{mark_text, cancelled_text};
ghost use Rattle.dm_rows.specs.Rows.{IsSized};
ghost use Rattle.std.specs.List.{flat_map};
ghost use Rattle.dm_outside.specs.Printing.{Prints};
ghost use Rattle.dm_cert.specs.RunTexts.{entry_text, entries_text, note_text, time_text, timetable_text, header_text, boards_text, heading_text, ending_text};

use crate::words::{put_labelled, put_number};
use dm_base::Cost;
use dm_cert::Note;
use dm_feed::put_message;
use dm_network::Network;
use dm_outside::{Page, Sink, WriteFault};
use dm_rows::{Entry, Rows};
use dm_times::Times;

/// Prints the version, the penalty, and how many feeds and entries there are.
#[tactic(auto, unfolding(dm_cert::specs::RunTexts::header_text))]
pub fn put_header<K: Sink>(
    sink: &mut K,
    page: &mut Page,
    penalty: u64,
    feeds: usize,
    entries: usize,
) -> Result<(), WriteFault>
    ensures { Prints K.taken K.faults sink.old sink.new page.old page.new result (header_text 2 penalty feeds entries) }
{
    let numbers = [
        ("dm-run ", 2),
        ("\npenalty ", penalty as u128),
        ("\nfeeds ", feeds as u128),
        ("\nentries ", entries as u128),
    ];
    put_labelled(sink, page, &numbers, "\n")
}

fn put_entry<K: Sink>(
    sink: &mut K,
    page: &mut Page,
    number: usize,
    entry: &Entry,
) -> Result<(), WriteFault>
    ensures { Prints K.taken K.faults sink.old sink.new page.old page.new result (entry_text number entry.now) }
{
    let numbers = [
        ("entry ", number as u128),
        (" feed ", entry.feed as u128),
        (" line ", entry.line as u128),
    ];
    let Ok(()) = put_labelled(sink, page, &numbers, " ") else {
        return Err(WriteFault);
    };
    let Ok(()) = put_message(sink, page, &entry.message) else {
        return Err(WriteFault);
    };
    page.put_bytes(sink, b"\n")
}

/// Prints all entries.
pub fn put_entries<K: Sink>(
    sink: &mut K,
    page: &mut Page,
    entries: &[Entry],
) -> Result<(), WriteFault>
    ensures { Prints K.taken K.faults sink.old sink.new page.old page.new result (entries_text 1 entries.now) }
{
    for (i, entry) in entries.iter().enumerate() {
        let Ok(()) = put_entry(sink, page, i + 1, entry) else {
            return Err(WriteFault);
        };
    }
    Ok(())
}

/// Prints a dropped board.
#[tactic(auto, unfolding(dm_cert::specs::RunTexts::note_text))]
fn put_note<K: Sink>(sink: &mut K, page: &mut Page, note: Note) -> Result<(), WriteFault>
    ensures { Prints K.taken K.faults sink.old sink.new page.old page.new result (note_text note) }
{
    let numbers = [
        ("board ", note.board as u128),
        (" stop ", note.stop as u128),
        (" dropped ", note.entry as u128),
    ];
    put_labelled(sink, page, &numbers, "\n")
}

/// Prints the dropped boards.
pub fn put_notes<K: Sink>(sink: &mut K, page: &mut Page, notes: &[Note]) -> Result<(), WriteFault>
    ensures { Prints K.taken K.faults sink.old sink.new page.old page.new result (flat_map note_text notes.now) }
{
    for note in notes {
        let Ok(()) = put_note(sink, page, *note) else {
            return Err(WriteFault);
        };
    }
    Ok(())
}

/// Prints how many boards were dropped.
#[tactic(auto, unfolding(dm_cert::specs::RunTexts::boards_text))]
pub fn put_boards<K: Sink>(sink: &mut K, page: &mut Page, notes: usize) -> Result<(), WriteFault>
    ensures { Prints K.taken K.faults sink.old sink.new page.old page.new result (boards_text notes) }
{
    put_number(sink, page, "boards ", notes as u128, "\n")
}

/// Prints after how many entries the times are.
#[tactic(auto, unfolding(dm_cert::specs::RunTexts::heading_text))]
pub fn put_heading<K: Sink>(sink: &mut K, page: &mut Page, entries: usize) -> Result<(), WriteFault>
    ensures { Prints K.taken K.faults sink.old sink.new page.old page.new result (heading_text entries) }
{
    put_number(sink, page, "times ", entries as u128, "\n")
}

/// Prints the id and the time of an event.
#[tactic(auto, unfolding(dm_cert::specs::RunTexts::time_text))]
fn put_time<K: Sink>(
    sink: &mut K,
    page: &mut Page,
    net: &Network,
    times: &Times,
    i: usize,
) -> Result<(), WriteFault>
    requires is_event { i < length net.now.events }
    requires has_time { i < length times.now }
    ensures { Prints K.taken K.faults sink.old sink.new page.old page.new result (time_text net.now times.now i) }
{
    let numbers = [
        ("", net.event(i).id.0 as u128),
        ("; ", times.time(i) as u128),
    ];
    put_labelled(sink, page, &numbers, "\n")
}

/// Prints the times of all events.
pub fn put_times<K: Sink>(
    sink: &mut K,
    page: &mut Page,
    net: &Network,
    times: &Times,
) -> Result<(), WriteFault>
    requires { length times.now ≡ length net.now.events }
    ensures { Prints K.taken K.faults sink.old sink.new page.old page.new result (timetable_text net.now times.now) }
{
    for i in 0..net.events() {
        let Ok(()) = put_time(sink, page, net, times, i) else {
            return Err(WriteFault);
        };
    }
    Ok(())
}

/// Prints the line of an event that is cancelled, and nothing for another.
#[tactic(auto, unfolding(crate::specs::Printed::mark_text))]
fn put_mark<K: Sink>(
    sink: &mut K,
    page: &mut Page,
    net: &Network,
    rows: &Rows,
    i: usize,
) -> Result<(), WriteFault>
    requires sized { IsSized net.now rows.now }
    requires is_event { i < length net.now.events }
    ensures { Prints K.taken K.faults sink.old sink.new page.old page.new result (mark_text net.now rows.now i) }
{
    if rows.cancelled(i) {
        put_number(sink, page, "cancelled ", net.event(i).id.0 as u128, "\n")
    } else {
        page.put_bytes(sink, b"")
    }
}

/// Prints the lines of all events that are cancelled.
pub fn put_cancelled<K: Sink>(
    sink: &mut K,
    page: &mut Page,
    net: &Network,
    rows: &Rows,
) -> Result<(), WriteFault>
    requires { IsSized net.now rows.now }
    ensures { Prints K.taken K.faults sink.old sink.new page.old page.new result (cancelled_text net.now rows.now) }
{
    for i in 0..net.events() {
        let Ok(()) = put_mark(sink, page, net, rows, i) else {
            return Err(WriteFault);
        };
    }
    Ok(())
}

/// Prints the cost and the last line.
#[tactic(auto, unfolding(dm_cert::specs::RunTexts::ending_text))]
pub fn put_ending<K: Sink>(sink: &mut K, page: &mut Page, cost: Cost) -> Result<(), WriteFault>
    ensures { Prints K.taken K.faults sink.old sink.new page.old page.new result (ending_text cost) }
{
    put_number(sink, page, "cost ", cost, "\ndone\n")
}
