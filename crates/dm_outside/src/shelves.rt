//! Where sources are found by name.
ghost use Rattle.std.specs.Prelude.{◌≡◌, ◌⊎◌, ℕ, ◌<◌, ◌↔◌, List, Option, Some, IsNone, IsErr, IfOk, OnOk, OnErr, IsOkAnd, IsSomeAnd, All, AllPairs, ◌≢◌};
ghost use Rattle.std.specs.Option.{option_copied};
ghost use Rattle.dm_outside.specs.Faults.{Counts};
ghost use Rattle.dm_outside.specs.Shelf.{Opens};
ghost use Rattle.dm_outside.specs.Calls.{IsListed, NoneListed, next_call};
ghost use Rattle.dm_outside.specs.Memory.{file_named, bytes_named};

use crate::calls::Calls;
use crate::{Failed, MemSource, Source};
use std::marker::Model;

/// Sources by name.
pub trait Shelf {
    /// What is opened.
    type Src: Source + Send + Drop;

    /// The bytes under each name, where the shelf tells its map. Opening never changes it.
    ghost files: { Self → Option (List ℕ → Option (List ℕ)) };

    /// How many names could not be opened: it never falls.
    ghost faults: { Self → ℕ };

    /// What it tells of a name: where this holds, its opening does not fail and gives a sound source.
    ghost is_sound: { Self → List ℕ → Type 0 };

    /// Opens the source of a name, all of whose bytes are left. A name that is not there fails.
    fn open(&mut self, name: &str) -> Result<Self::Src, Failed>
        ensures same { files self.new ≡ files self.old }
        ensures bytes { IfOk result (λ source. Opens (files self.old) name.now (Self.Src.left source)) }
        ensures no_faults { IfOk result (λ source. Self.Src.faults source ≡ 0) }
        ensures cause { Counts (faults self.old) (faults self.new) result }
        ensures sound { is_sound self.old name.now → IsOkAnd result (λ source. Self.Src.is_sound source) }
        ensures stays_sound { (other : List ℕ) → is_sound self.old other → is_sound self.new other };
}

/// A file of a shelf in memory: its name, and what its source is made of. `piece` is at least 1.
#[derive(Clone, Copy)]
pub struct MemFile<'a> {
    /// The name under which it is opened.
    pub name: &'a str,
    /// All its bytes.
    pub bytes: &'a [u8],
    /// How many bytes a read gives at most.
    pub piece: usize,
    /// The numbers of the reads that fail, counted from 1.
    pub fails: &'a [u64],
}

/// A shelf in memory.
#[derive(Drop)]
pub struct MemShelf<'a> {
    files: &'a [MemFile<'a>],
    fails: &'a [u64],
    calls: Calls,
}

impl<'a> Model for MemShelf<'a> {
    ghost use Rattle.std.specs.Prelude.{ℕ, ◌<◌, All};
    ghost use Rattle.dm_outside.specs.Memory.{ShelfValue};

    ghost Value = { ShelfValue };

    ghost view = { λ shelf. record {
      files = shelf.files.now;
      fails = shelf.fails.now;
      made = shelf.calls.made;
      faults = shelf.calls.faults;
    } };

    ghost invariant = { λ shelf. All (λ file. 0 < file.piece) shelf.files.now };
}

fn find_file<'a>(files: &'a [MemFile<'a>], name: &str) -> Option<&'a MemFile<'a>>
    ensures { option_copied result ≡ file_named files.now name.now }
{
    files.iter().find(|file| file.name == name)
}

impl<'a> MemShelf<'a> {
    /// A shelf of these files, of which no two have one name. The openings whose numbers are in
    /// `fails`, counted from 1, fail.
    pub fn new(files: &'a [MemFile<'a>], fails: &'a [u64]) -> MemShelf<'a>
        requires pieces { All (λ file. 0 < file.piece) files.now }
        requires names { AllPairs (λ file other. file.name.now ≢ other.name.now) files.now }
        ensures { result ≡ record { files = files.now; fails = fails.now; made = 0; faults = 0 } }
    {
        MemShelf {
            files,
            fails,
            calls: Calls::new(),
        }
    }
}

impl<'a> Shelf for MemShelf<'a> {
    type Src = MemSource<'a>;

    ghost files = { λ shelf. Some (bytes_named shelf.files) };

    ghost faults = { λ shelf. shelf.faults };

    ghost is_sound = { λ shelf name. NoneListed shelf.made shelf.fails
        × IsSomeAnd (file_named shelf.files name) (λ file. NoneListed 0 file.fails.now) };

    fn open(&mut self, name: &str) -> Result<MemSource<'a>, Failed>
        ensures same { Some (bytes_named self.new.files) ≡ Some (bytes_named self.old.files) }
        ensures bytes { IfOk result (λ source. Opens (Some (bytes_named self.old.files)) name.now (Some source.left)) }
        ensures no_faults { IfOk result (λ source. source.faults ≡ 0) }
        ensures cause { Counts self.old.faults self.new.faults result }
        ensures sound { NoneListed self.old.made self.old.fails
            × IsSomeAnd (file_named self.old.files name.now) (λ file. NoneListed 0 file.fails.now)
            → IsOkAnd result (λ source. NoneListed source.made source.fails) }
        ensures stays_sound { (other : List ℕ) → NoneListed self.old.made self.old.fails
            × IsSomeAnd (file_named self.old.files other) (λ file. NoneListed 0 file.fails.now)
            → NoneListed self.new.made self.new.fails
            × IsSomeAnd (file_named self.new.files other) (λ file. NoneListed 0 file.fails.now) }

        // It fails at the listed calls and where no file has the name, and else gives the file's source.
        ensures fails { IsErr result ↔ (IsListed self.old.made self.old.fails ⊎ IsNone (file_named self.old.files name.now)) }
        ensures exact { IfOk result (λ source. IsSomeAnd (file_named self.old.files name.now) (λ file.
            source ≡ record { left = file.bytes.now; piece = file.piece; fails = file.fails.now; made = 0; faults = 0 })) }

        // It counts each call, and each fault. All else stays.
        ensures counted { self.new.made ≡ next_call self.old.made }
        ensures faultless { OnOk result (self.new.faults ≡ self.old.faults) }
        ensures faulted { OnErr result (self.new.faults ≡ next_call self.old.faults) }
        ensures same_files { self.new.files ≡ self.old.files }
        ensures same_fails { self.new.fails ≡ self.old.fails }
    {
        if self.calls.is_listed(self.fails) {
            self.calls.add_fault();
            return Err(Failed);
        }
        let Some(file) = find_file(self.files, name) else {
            self.calls.add_fault();
            return Err(Failed);
        };
        Ok(MemSource::new(file.bytes, file.piece, file.fails))
    }
}
