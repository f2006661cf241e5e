//! Why events and activities make no network.
use crate::files::{ReadFile, read_again};
use crate::records::number_of_record;
use crate::saying::{say, say_at, say_text};
use dm_base::{ActId, ActRow, EventRow};
use dm_input::File as InputFile;
use dm_lintim::{read_activities, read_events};
use dm_network::NetFault;
use dm_outside::Piece;
use dm_words::FileWords;
use std::fs::File;
use std::io;
use std::rt::Files;

/// How many activities of a cycle are told.
const TOLD: usize = 20;

/// Says why events and activities make no network.
pub fn tell_network<R: Eprint + Files<File = File> + AllocGlobal>(
    rt: &R,
    files: &FileWords<'_>,
    fault: &NetFault,
) -> io::Result<()> {
    match fault {
        NetFault::TooMany => say_text(
            rt,
            "a network has at most 100000 events and 500000 activities",
        ),
        NetFault::DoubleEvent(id) => tell_double_event(rt, files, id.0),
        NetFault::DoubleActivity(id) => tell_double_activity(rt, files, *id),
        NetFault::UnknownEvent(id) => {
            let what = "an activity runs from or to an event that the events file has not:";
            tell_with(rt, files, what, &[*id])
        }
        NetFault::ZeroHeadway(id) => {
            let what = "the lower bound of a headway is at least 1:";
            tell_with(rt, files, what, &[*id])
        }
        NetFault::Cycle(ids) => {
            let what = "each of these waits for the one before it, and the first for the last:";
            tell_with(rt, files, what, ids.as_slice())
        }
        NetFault::OutOfMemory => Ok(()),
    }
}

/// Says what is wrong with activities, and which they are.
fn tell_with<R: Eprint + Files<File = File> + AllocGlobal>(
    rt: &R,
    files: &FileWords<'_>,
    what: &str,
    ids: &[ActId],
) -> io::Result<()> {
    say_text(rt, what)?;
    tell_activities(rt, files, ids)
}

/// Says which activities have one id.
fn tell_double_activity<R: Eprint + Files<File = File> + AllocGlobal>(
    rt: &R,
    files: &FileWords<'_>,
    id: ActId,
) -> io::Result<()> {
    let number = id.0;
    say(
        rt,
        &[
            Piece::Text("two or more activities have the id "),
            Piece::Number(number as u128),
            Piece::Text(":"),
        ],
    )?;
    tell_activities(rt, files, &[id])
}

/// Says where an id stands that two events have.
fn tell_double_event<R: Eprint + Files<File = File> + AllocGlobal>(
    rt: &R,
    files: &FileWords<'_>,
    id: u32,
) -> io::Result<()> {
    let Some(file) = read_again(rt, files, InputFile::Events) else {
        return Ok(());
    };
    match read_events(rt.alloc(), file.bytes(), &files.columns) {
        Ok(rows) => tell_events(rt, &file, rows.as_slice(), id),
        Err(_) => Ok(()),
    }
}

/// Says the line of each event of an id.
fn tell_events<R: Eprint>(rt: &R, file: &ReadFile, rows: &[EventRow], id: u32) -> io::Result<()> {
    for (place, row) in rows.iter().enumerate() {
        if row.id.0 == id {
            let line = number_of_record(file.bytes(), place.saturating_add(1));
            let pieces = [
                Piece::Text("an event has the id "),
                Piece::Number(id as u128),
            ];
            say_at(rt, file.path(), line, &pieces)?;
        }
    }
    Ok(())
}

/// Says the events and the bound of activities, with the lines where they stand.
fn tell_activities<R: Eprint + Files<File = File> + AllocGlobal>(
    rt: &R,
    files: &FileWords<'_>,
    ids: &[ActId],
) -> io::Result<()> {
    let Some(file) = read_again(rt, files, InputFile::Activities) else {
        return Ok(());
    };
    match read_activities(rt.alloc(), file.bytes(), &files.columns) {
        Ok(rows) => tell_each(rt, &file, rows.as_slice(), ids),
        Err(_) => Ok(()),
    }
}

/// Says the activities of the first ids.
fn tell_each<R: Eprint>(rt: &R, file: &ReadFile, rows: &[ActRow], ids: &[ActId]) -> io::Result<()> {
    for id in ids.iter().take(TOLD) {
        tell_activity(rt, file.path(), file.bytes(), rows, *id)?;
    }
    Ok(())
}

/// Says the events and the bound of each activity of an id.
fn tell_activity<R: Eprint>(
    rt: &R,
    path: &str,
    bytes: &[u8],
    rows: &[ActRow],
    id: ActId,
) -> io::Result<()> {
    for (place, row) in rows.iter().enumerate() {
        if row.id == id {
            let line = number_of_record(bytes, place.saturating_add(1));
            let (number, tail, head, lower) = (id.0, row.tail.0, row.head.0, row.lower);
            say_at(
                rt,
                path,
                line,
                &[
                    Piece::Text("activity "),
                    Piece::Number(number as u128),
                    Piece::Text(" from event "),
                    Piece::Number(tail as u128),
                    Piece::Text(" to event "),
                    Piece::Number(head as u128),
                    Piece::Text(", at least "),
                    Piece::Number(lower as u128),
                    Piece::Text(" seconds"),
                ],
            )?;
        }
    }
    Ok(())
}
