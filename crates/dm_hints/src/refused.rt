//! Why the files of a folder make no network with start rows.
use crate::cycles::tell_network;
use crate::files::{columns_of, path_of, read_again, size_of_file, tell_reason};
use crate::records::{FileLine, field_under, fields, line_of_record};
use crate::saying::{say, say_at};
use crate::text::shown;
use dm_base::limits::FILE;
use dm_input::{File as InputFile, FileFlaw, InputFlaw, InputStop, read_opening, take_name};
use dm_lintim::{Column, FileFault, FileKind, read_delays};
use dm_outside::{FolderShelf, Piece};
use dm_rows::StartFault;
use dm_words::FileWords;
use std::fs::File;
use std::io;
use std::rt::Files;

/// Reads the files again, and says why they make no network with start rows, where they make none.
pub fn tell_opening<R: Eprint + Files<File = File> + AllocGlobal>(
    rt: &R,
    words: &[String],
    files: &FileWords<'_>,
) -> io::Result<()> {
    let mut shelf = FolderShelf::new(rt);
    match read_opening(rt.alloc(), &mut shelf, files) {
        Ok(_) | Err(InputStop::NoMemory) => Ok(()),
        Err(InputStop::ReadFault(file)) => tell_unread(rt, files, file),
        Err(InputStop::Refused(flaw)) => tell_flaw(rt, words, files, &flaw),
    }
}

/// Says why a file of the folder could not be read.
fn tell_unread<R: Eprint + Files<File = File> + AllocGlobal>(
    rt: &R,
    files: &FileWords<'_>,
    file: InputFile,
) -> io::Result<()> {
    match path_of(rt.alloc(), files, file) {
        Some(path) => tell_reason(rt, path.as_str()),
        None => Ok(()),
    }
}

/// Says what is refused, and why.
fn tell_flaw<R: Eprint + Files<File = File> + AllocGlobal>(
    rt: &R,
    words: &[String],
    files: &FileWords<'_>,
    flaw: &InputFlaw,
) -> io::Result<()> {
    match flaw {
        InputFlaw::InFile(file, why) => tell_file(rt, words, files, *file, *why),
        InputFlaw::Network(fault) => tell_network(rt, files, fault),
        InputFlaw::Start(fault) => tell_start(rt, files, fault),
    }
}

/// Says why a file is refused.
fn tell_file<R: Eprint + Files<File = File> + AllocGlobal>(
    rt: &R,
    words: &[String],
    files: &FileWords<'_>,
    file: InputFile,
    why: FileFlaw,
) -> io::Result<()> {
    let Some(path) = path_of(rt.alloc(), files, file) else {
        return Ok(());
    };
    let path = path.as_str();
    match why {
        FileFlaw::TooLong => {
            let size = size_of_file(rt, path);
            say(
                rt,
                &[
                    Piece::Text(path),
                    Piece::Text(" has "),
                    Piece::Number(size as u128),
                    Piece::Text(" bytes, and a file may have 67108864"),
                ],
            )
        }
        FileFlaw::Record(fault) => tell_record(rt, columns_of(words, file), file, path, fault),
    }
}

/// Says what stands in the line of a record, and what is wanted there.
fn tell_record<R: Eprint + Files<File = File> + AllocGlobal>(
    rt: &R,
    columns: &str,
    file: InputFile,
    path: &str,
    fault: FileFault,
) -> io::Result<()> {
    if fault.kind == FileKind::ByteOrderMark {
        return say(
            rt,
            &[
                Piece::Text(path),
                Piece::Text(
                    " begins with a byte order mark (EF BB BF): save it as UTF-8 without one",
                ),
            ],
        );
    }
    let mut shelf = FolderShelf::new(rt);
    let Ok(bytes) = take_name(rt.alloc(), &mut shelf, path, FILE) else {
        return Ok(());
    };
    let Some(line) = line_of_record(bytes.as_slice(), fault.number) else {
        return Ok(());
    };
    tell_kind(rt, columns, file, path, line, fault.kind)
}

/// Says which rule a line breaks.
fn tell_kind<R: Eprint>(
    rt: &R,
    columns: &str,
    file: InputFile,
    path: &str,
    line: FileLine<'_>,
    kind: FileKind,
) -> io::Result<()> {
    match kind {
        FileKind::FieldCount(_) => tell_count(rt, columns, path, line),
        FileKind::BadNumber(column) => {
            let wanted = Piece::Text("a number is wanted, whole but for a weight");
            tell_field(rt, columns, path, line, column.name(), wanted, "")
        }
        FileKind::TooLarge(column) => {
            let most = Piece::Number(largest(column) as u128);
            tell_field(rt, columns, path, line, column.name(), most, " is the most")
        }
        FileKind::UnknownType => {
            let wanted = Piece::Text("it is one of ");
            tell_field(rt, columns, path, line, "type", wanted, types_of(file))
        }
        FileKind::ByteOrderMark | FileKind::OutOfMemory => Ok(()),
    }
}

/// Says what a column of a line holds, and what is wanted there.
fn tell_field<'a, R: Eprint>(
    rt: &R,
    columns: &str,
    path: &str,
    line: FileLine<'a>,
    column: &'a str,
    wanted: Piece<'a>,
    rest: &'a str,
) -> io::Result<()> {
    let found = shown(field_under(line.text, columns, column));
    say_at(
        rt,
        path,
        line.number,
        &[
            Piece::Text("column `"),
            Piece::Text(column),
            Piece::Text("` holds \""),
            Piece::Text(found),
            Piece::Text("\", and "),
            wanted,
            Piece::Text(rest),
        ],
    )
}

/// Says how many fields a line has, and what they should be.
fn tell_count<'a, R: Eprint>(
    rt: &R,
    columns: &'a str,
    path: &str,
    line: FileLine<'a>,
) -> io::Result<()> {
    let (number, count, found) = (line.number, fields(line.text), shown(line.text));
    let wanted = columns.split(',').count();
    say_at(
        rt,
        path,
        number,
        &[
            Piece::Text("\""),
            Piece::Text(found),
            Piece::Text("\" has "),
            Piece::Number(count as u128),
            Piece::Text(" fields"),
        ],
    )?;
    say_at(
        rt,
        path,
        number,
        &[
            Piece::Text("it is to have "),
            Piece::Number(wanted as u128),
            Piece::Text(", with semicolons between: "),
            Piece::Text(columns),
        ],
    )
}

/// The largest number of a column.
fn largest(column: Column) -> u64 {
    match column {
        Column::Time => 1_000_000_000,
        Column::Weight | Column::Lower | Column::Delay => 1_000_000,
        _ => 4_294_967_295,
    }
}

fn types_of(file: InputFile) -> &'static str {
    match file {
        InputFile::Activities => "drive, wait, turnaround, change and headway",
        _ => "departure and arrival",
    }
}

/// Says which delay is of no event or of no activity, or which event to cancel is none.
fn tell_start<R: Eprint + Files<File = File> + AllocGlobal>(
    rt: &R,
    files: &FileWords<'_>,
    fault: &StartFault,
) -> io::Result<()> {
    match fault {
        StartFault::UnknownEvent(id) => {
            let rest = ", and the events file has no such event";
            if has_delay(rt, files, id.0) {
                tell_delay(
                    rt,
                    files,
                    InputFile::EventDelays,
                    " has a delay of event ",
                    id.0,
                    rest,
                )
            } else {
                tell_delay(
                    rt,
                    files,
                    InputFile::CancelledEvents,
                    " cancels event ",
                    id.0,
                    rest,
                )
            }
        }
        StartFault::UnknownActivity(id) => {
            let rest = ", and the activities file has no such activity";
            tell_delay(
                rt,
                files,
                InputFile::ActivityDelays,
                " has a delay of activity ",
                id.0,
                rest,
            )
        }
        StartFault::OutOfMemory => Ok(()),
    }
}

/// Whether the file of the event delays has a delay of the event with this id.
fn has_delay<R: Files<File = File> + AllocGlobal>(rt: &R, files: &FileWords<'_>, id: u32) -> bool {
    if files.event_delays.is_none() {
        return false;
    }
    let Some(file) = read_again(rt, files, InputFile::EventDelays) else {
        return false;
    };
    match read_delays(rt.alloc(), file.bytes()) {
        Ok(delays) => delays.iter().any(|delay| delay.id == id),
        Err(_) => false,
    }
}

/// Says of a file of delays, or of cancelled events, what it has a line of.
fn tell_delay<R: Eprint + AllocGlobal>(
    rt: &R,
    files: &FileWords<'_>,
    file: InputFile,
    what: &str,
    id: u32,
    rest: &str,
) -> io::Result<()> {
    match path_of(rt.alloc(), files, file) {
        Some(path) => say_delay(rt, path.as_str(), what, id, rest),
        None => Ok(()),
    }
}

fn say_delay<'a, R: Eprint>(
    rt: &R,
    path: &'a str,
    what: &'a str,
    id: u32,
    rest: &'a str,
) -> io::Result<()> {
    say(
        rt,
        &[
            Piece::Text(path),
            Piece::Text(what),
            Piece::Number(id as u128),
            Piece::Text(rest),
        ],
    )
}
