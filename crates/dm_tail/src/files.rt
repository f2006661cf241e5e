//! Feeds that are files. Nothing is told of their bytes.
ghost use Rattle.std.specs.Prelude.{◌≡◌, ◌≤◌, length, IfOk};
ghost use Rattle.dm_outside.specs.Faults.{HasRisen};

use crate::growing::Growing;
use dm_outside::Failed;
use std::fs::{File, Metadata};
use std::io;
use std::io::{ErrorKind, Read as _};
use std::marker::Model;
use std::os::unix::fs::MetadataExt as _;
use std::rt::Files;

/// How often a read is taken again that a signal interrupted.
const READS_AGAIN: u32 = 1_000;

/// Why a call of a feed failed that is a file.
#[derive(Clone, Copy, Debug, PartialEq, Eq)]
pub enum FeedFault {
    /// A read failed.
    Unread,
    /// The file is shorter than what was read of it.
    Shorter,
    /// Its name leads to another file, or to none.
    Replaced,
    /// A sync failed.
    Unsynced,
}

/// Why a name was not opened as a feed.
#[derive(Clone, Copy, Debug, PartialEq, Eq)]
pub enum NoFeed {
    /// It cannot be opened.
    Unopened,
    /// It is a folder, a named pipe, a socket or a device, and no file.
    NoFile,
}

/// A file that others append to.
#[derive(Drop)]
pub struct FileFeed<'f, R: Files<File = File>> {
    files: &'f R,
    name: &'f str,
    file: File,
    taken: u64,
    fault: Option<FeedFault>,
    faults: u64,
}

impl<'f, R: Files<File = File>> Model for FileFeed<'f, R> {
    ghost use Rattle.std.specs.Prelude.{ℕ};

    ghost Value = { ℕ };

    ghost view = { λ feed. feed.faults };
}

/// Whether both tell of the same file.
fn is_same(one: &Metadata, other: &Metadata) -> bool {
    one.dev() == other.dev() && one.ino() == other.ino()
}

/// Reads, and again where a signal interrupts it.
fn read_again(file: &mut File, buf: &mut [u8]) -> io::Result<usize>
    ensures { IfOk result (λ n. n ≤ length buf.old) }
{
    for _turn in 0..READS_AGAIN {
        match file.read(buf) {
            Err(error) if error.kind() == ErrorKind::Interrupted => {}
            answer => return answer,
        }
    }
    Err(io::Error::from(ErrorKind::Interrupted))
}

impl<'f, R: Files<File = File>> FileFeed<'f, R> {
    /// Opens the file of this name as a feed, to be read from its start. What is no file is not opened: to open a named pipe would
    /// wait for a writer.
    pub fn open(files: &'f R, name: &'f str) -> Result<FileFeed<'f, R>, NoFeed> {
        match files.metadata(name) {
            Ok(about) if !about.is_file() => return Err(NoFeed::NoFile),
            Ok(_) => {}
            Err(_) => return Err(NoFeed::Unopened),
        }
        let Ok(file) = File::open(files, name) else {
            return Err(NoFeed::Unopened);
        };
        Ok(FileFeed {
            files,
            name,
            file,
            taken: 0,
            fault: None,
            faults: 0,
        })
    }

    /// How many bytes were read.
    pub fn taken(&self) -> u64 {
        self.taken
    }

    /// How many bytes the file has now, where the system tells it.
    pub fn len(&self) -> Option<u64> {
        match self.file.metadata() {
            Ok(about) => Some(about.len()),
            Err(_) => None,
        }
    }

    /// Why the last call failed that did.
    pub fn fault(&self) -> Option<FeedFault> {
        self.fault
    }

    // Reads the next bytes. Where none come, it looks whether the file is still the one that others append to.
    fn read_next(&mut self, buf: &mut [u8]) -> Result<usize, FeedFault>
        ensures count { IfOk result (λ n. n ≤ length buf.old) }
        ensures same { self.new ≡ self.old }
    {
        let Ok(count) = read_again(&mut self.file, buf) else {
            return Err(FeedFault::Unread);
        };
        if count == 0 {
            self.look()?;
        }
        self.taken = self.taken.saturating_add(count as u64);
        Ok(count)
    }

    // A fault where the file was cut, or no longer has its name: then what others append to it would not be seen.
    fn look(&self) -> Result<(), FeedFault> {
        let Ok(held) = self.file.metadata() else {
            return Err(FeedFault::Unread);
        };
        if held.len() < self.taken {
            return Err(FeedFault::Shorter);
        }
        match self.files.metadata(self.name) {
            Ok(found) if !is_same(&held, &found) => Err(FeedFault::Replaced),
            Err(error) if error.kind() == ErrorKind::NotFound => Err(FeedFault::Replaced),
            _ => Ok(()),
        }
    }

    // One fault more: the count stands at its last value.
    fn add_fault(&mut self)
        ensures risen { HasRisen self.old self.new }
        ensures later { self.old ≤ self.new }
    {
        self.faults = self.faults.saturating_add(1);
    }
}

impl<R: Files<File = File>> Growing for FileFeed<'_, R> {
    ghost use Rattle.std.specs.Prelude.{None};

    ghost given = { λ _. None };

    ghost source = { λ _. None };

    ghost from_source = { λ _. tt };

    ghost faults = { λ count. count };

    fn read(&mut self, buf: &mut [u8]) -> Result<usize, Failed> {
        match self.read_next(buf) {
            Ok(count) => Ok(count),
            Err(fault) => {
                self.fault = Some(fault);
                self.add_fault();
                Err(Failed)
            }
        }
    }

    fn sync(&mut self) -> Result<(), Failed> {
        let Ok(()) = self.file.sync_data() else {
            self.fault = Some(FeedFault::Unsynced);
            self.add_fault();
            return Err(Failed);
        };
        Ok(())
    }
}
