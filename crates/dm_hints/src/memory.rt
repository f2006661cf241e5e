//! How much memory the inputs take.
use crate::files::{path_of, size_of_file};
use crate::saying::{say, say_text};
use dm_input::File as InputFile;
use dm_outside::Piece;
use dm_words::{CommandWords, FileWords, Names, RunWords};
use std::fs::File;
use std::io;
use std::rt::Files;

/// Says how many bytes the files have that the words name.
pub fn tell_memory<R: Eprint + Files<File = File> + AllocGlobal>(
    rt: &R,
    asked: &CommandWords<'_>,
) -> io::Result<()> {
    let bytes = match asked {
        CommandWords::Run(run) => bytes_of_run(rt, run),
        CommandWords::Check(check) => {
            folder_bytes(rt, &check.files).saturating_add(size_of_file(rt, check.text))
        }
        CommandWords::Query(query) => {
            folder_bytes(rt, &query.files).saturating_add(size_of_file(rt, query.text))
        }
        CommandWords::Gen(_) => return say_text(
            rt,
            "there is not enough memory for so many trains",
        ),
    };
    say_memory(rt, bytes)
}

/// How many bytes the files of a run and its feeds have.
pub fn bytes_of_run<R: Files<File = File> + AllocGlobal>(rt: &R, run: &RunWords<'_>) -> u64 {
    folder_bytes(rt, &run.files).saturating_add(feed_bytes(rt, run.feeds))
}

/// Says that there is not enough memory for files of so many bytes.
pub fn say_memory<R: Eprint>(rt: &R, bytes: u64) -> io::Result<()> {
    say(
        rt,
        &[
            Piece::Text("there is not enough memory: the files alone have "),
            Piece::Number(bytes as u128),
            Piece::Text(" bytes, and take some times that when they are read"),
        ],
    )
}

fn folder_bytes<R: Files<File = File> + AllocGlobal>(rt: &R, files: &FileWords<'_>) -> u64 {
    file_bytes(rt, files, InputFile::Events)
        .saturating_add(file_bytes(rt, files, InputFile::Activities))
        .saturating_add(file_bytes(rt, files, InputFile::EventDelays))
        .saturating_add(file_bytes(rt, files, InputFile::ActivityDelays))
        .saturating_add(file_bytes(rt, files, InputFile::CancelledEvents))
}

/// How many bytes a file of the folder has, or none where the words name no such file.
fn file_bytes<R: Files<File = File> + AllocGlobal>(
    rt: &R,
    files: &FileWords<'_>,
    file: InputFile,
) -> u64 {
    let is_named = match file {
        InputFile::EventDelays => files.event_delays.is_some(),
        InputFile::ActivityDelays => files.activity_delays.is_some(),
        InputFile::CancelledEvents => files.cancelled.is_some(),
        InputFile::Events | InputFile::Activities => true,
    };
    if !is_named {
        return 0;
    }
    match path_of(rt.alloc(), files, file) {
        Some(path) => size_of_file(rt, path.as_str()),
        None => 0,
    }
}

fn feed_bytes<R: Files<File = File>>(rt: &R, feeds: Names<'_>) -> u64 {
    let mut bytes: u64 = 0;
    let mut rest = feeds;
    for _ in 0..dm_base::limits::FEEDS {
        let Some((name, others)) = rest.split_first() else {
            return bytes;
        };
        bytes = bytes.saturating_add(size_of_file(rt, name));
        rest = others;
    }
    bytes
}
