//! The real outside: files, a folder and the standard output. Each call goes straight to the system,
//! and nothing is held back, so that a fault of the system is a fault of the call. Nothing is told of
//! the bytes or of the files.
ghost use Rattle.dm_outside.specs.Faults.{HasRisen};
ghost use Rattle.std.specs.Prelude.{◌≡◌, ◌≤◌};

use crate::{Failed, Shelf, Sink, Source};
use std::fs;
use std::fs::File;
use std::io::{Read, Stdout, Write};
use std::marker::Model;
use std::rt::Files;

/// What the system gives a handle of, with the number of its calls that failed.
#[derive(Drop)]
pub struct Real<H> {
    handle: H,
    faults: u64,
}

impl<H> Model for Real<H> {
    ghost use Rattle.std.specs.Prelude.{ℕ};

    ghost Value = { ℕ };

    ghost view = { λ real. real.faults };
}

impl<H> Real<H> {
    /// What this handle is of: what is left of a file, a standard output, or the files that a runtime opens.
    pub fn new(handle: H) -> Real<H>
        ensures { result ≡ 0 }
    {
        Real { handle, faults: 0 }
    }

    // One fault more: the count stands at its last value.
    fn add_fault(&mut self)
        ensures risen { HasRisen self.old self.new }
        ensures later { self.old ≤ self.new }
    {
        self.faults = self.faults.saturating_add(1);
    }
}

/// A source that reads a file.
pub type FileSource = Real<File>;

impl Source for FileSource {
    ghost use Rattle.std.specs.Prelude.{None};

    ghost left = { λ _. None };

    ghost faults = { λ count. count };

    ghost is_sound = { λ _. ⊥ };

    fn read(&mut self, buf: &mut [u8]) -> Result<usize, Failed> {
        let Ok(count) = self.handle.read(buf) else {
            self.add_fault();
            return Err(Failed);
        };
        Ok(count)
    }
}

/// A sink that writes to the standard output. A write fails where the system's fails, or where the
/// system takes none of some bytes.
pub type StdSink = Real<Stdout>;

impl Sink for StdSink {
    ghost use Rattle.std.specs.Prelude.{None};

    ghost taken = { λ _. None };

    ghost faults = { λ count. count };

    fn write(&mut self, bytes: &[u8]) -> Result<usize, Failed> {
        match self.handle.write(bytes) {
            Ok(count) if count > 0 || bytes.is_empty() => Ok(count),
            _ => {
                self.add_fault();
                Err(Failed)
            }
        }
    }
}

/// A shelf of the system's files. A name is a path as it stands, from the working directory on.
pub type FolderShelf<'r, R> = Real<&'r R>;

impl<'r, R: Files<File = File>> Shelf for FolderShelf<'r, R> {
    type Src = FileSource;

    ghost use Rattle.std.specs.Prelude.{None};

    ghost files = { λ _. None };

    ghost faults = { λ count. count };

    ghost is_sound = { λ _ _. ⊥ };

    fn open(&mut self, name: &str) -> Result<FileSource, Failed> {
        let Ok(file) = fs::open(self.handle, name) else {
            self.add_fault();
            return Err(Failed);
        };
        Ok(FileSource::new(file))
    }
}
