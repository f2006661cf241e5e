//! The files that words name.
ghost use Rattle.std.specs.Prelude.{◌≤◌, length};
ghost use Rattle.dm_base.specs.declared.limits.TheConstants.{FILE};

use crate::saying::say;
use crate::tables::{ACTIVITY_WORDS, EVENT_WORDS};
use dm_base::limits::FILE;
use dm_input::{File as InputFile, take_name};
use dm_outside::{FolderShelf, Piece, Shelf, Source};
use dm_words::FileWords;
use std::alloc::Global;
use std::fs::File;
use std::rt::Files;
use std::{fs, io};

/// How many bytes of the front of a file are looked at.
pub const FRONT: usize = 4096;

/// The front of a file.
#[derive(Drop)]
pub struct Front {
    bytes: [u8; FRONT],
    len: usize,
}

impl Front {
    /// The bytes that were read.
    pub fn bytes(&self) -> &[u8] {
        self.bytes.get(..self.len).unwrap_or_default()
    }
}

/// Whether a plain file stands under a name. A pipe is not opened again: that would wait for somebody to write into it.
pub fn is_plain<R: Files<File = File>>(rt: &R, name: &str) -> bool {
    match fs::metadata(rt, name) {
        Ok(data) => data.is_file(),
        Err(_) => false,
    }
}

/// The front of the plain file under a name, or nothing where there is none, or it cannot be read.
pub fn front_of<R: Files<File = File>>(rt: &R, name: &str) -> Front {
    let mut front = Front {
        bytes: [0; FRONT],
        len: 0,
    };
    if !is_plain(rt, name) {
        return front;
    }
    let mut shelf = FolderShelf::new(rt);
    if let Ok(mut source) = shelf.open(name) {
        front.len = source.read(&mut front.bytes).unwrap_or(0);
    }
    front
}

/// How many bytes the file under a name has, or none where the system does not tell it.
pub fn size_of_file<R: Files<File = File>>(rt: &R, name: &str) -> u64 {
    match fs::metadata(rt, name) {
        Ok(data) => data.len(),
        Err(_) => 0,
    }
}

/// The value that the words give an option, or another text.
pub fn value_or<'a>(name: &str, words: &'a [String], other: &'a str) -> &'a str {
    for word in words {
        if let Some(value) = word.as_str().strip_prefix(name) {
            return value;
        }
    }
    other
}

fn name_in_folder<'a>(files: &FileWords<'a>, file: InputFile) -> &'a str {
    match file {
        InputFile::Events => "Events-expanded.giv",
        InputFile::Activities => "Activities-expanded.giv",
        InputFile::EventDelays => files.event_delays.unwrap_or(""),
        InputFile::ActivityDelays => files.activity_delays.unwrap_or(""),
        InputFile::CancelledEvents => files.cancelled.unwrap_or(""),
    }
}

/// The name of a file of the folder as it is opened, or nothing where there is no memory for it.
pub fn path_of(alloc: Global, files: &FileWords<'_>, file: InputFile) -> Option<String> {
    let folder = files.folder;
    let name = name_in_folder(files, file);
    format!(in alloc; "{folder}/{name}").ok()
}

/// A file of the folder that is read again.
pub struct ReadFile {
    path: String,
    bytes: Vec<u8>,
    ghost short: { length bytes.items ≤ FILE },
}

impl Drop for ReadFile {
    fn drop(self) {
        let ReadFile { path: _, bytes: _ } = self;
    }
}

impl ReadFile {
    /// Its name, as it is opened.
    pub fn path(&self) -> &str {
        self.path.as_str()
    }

    /// What stands in it.
    pub fn bytes(&self) -> &[u8]
        ensures { length result.now ≤ FILE }
    {
        self.bytes.as_slice()
    }
}

/// Reads a file of the folder, where it can be read and there is memory for it.
pub fn read_again<R: Files<File = File> + AllocGlobal>(
    rt: &R,
    files: &FileWords<'_>,
    file: InputFile,
) -> Option<ReadFile> {
    let path = path_of(rt.alloc(), files, file)?;
    let mut shelf = FolderShelf::new(rt);
    match take_name(rt.alloc(), &mut shelf, path.as_str(), FILE) {
        Ok(bytes) => Some(ReadFile { path, bytes }),
        Err(_) => None,
    }
}

/// The column words of a file.
pub fn columns_of(words: &[String], file: InputFile) -> &str {
    match file {
        InputFile::Events => value_or("--event-columns=", words, EVENT_WORDS),
        InputFile::Activities => value_or("--activity-columns=", words, ACTIVITY_WORDS),
        InputFile::EventDelays | InputFile::ActivityDelays => "id,delay",
        InputFile::CancelledEvents => "id",
    }
}

/// Says why the file under a name could not be read, as the system tells it.
pub fn tell_reason<R: Eprint + Files<File = File>>(rt: &R, name: &str) -> io::Result<()> {
    if let Ok(data) = fs::metadata(rt, name) {
        if data.is_dir() {
            return say(
                rt,
                &[
                    Piece::Text(name),
                    Piece::Text(" is a folder, and a file is wanted"),
                ],
            );
        }
        if !data.is_file() {
            return say(
                rt,
                &[Piece::Text(name), Piece::Text(": a read of it failed")],
            );
        }
    }
    match fs::open(rt, name) {
        Ok(_) => say(
            rt,
            &[
                Piece::Text(name),
                Piece::Text(" can be opened, and a read of it failed"),
            ],
        ),
        Err(error) => eprintln!(rt; "dispatcher: {name}: {error}"),
    }
}
