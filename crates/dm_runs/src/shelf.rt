//! The shelf of a case: its own files, and behind them those of its network.
ghost use Rattle.std.specs.Prelude.{◌≡◌, IfSome};

use crate::case::Case;
use dm_outside::{Failed, FileSource, FolderShelf, Shelf};
use std::alloc::{AllocError, Global};
use std::fs::File;
use std::marker::Model;
use std::rt::Files;

/// A shelf that looks for a name in the folder of a case, and then in the folder of its network. It tells nothing of the
/// files.
pub struct CaseShelf<'r, R: Files<File = File>> {
    alloc: Global,
    own: String,
    network: String,
    files: FolderShelf<'r, R>,
    faults: u64,
}

impl<'r, R: Files<File = File>> Model for CaseShelf<'r, R> {
    ghost use Rattle.std.specs.Prelude.{ℕ};

    ghost Value = { ℕ };

    ghost view = { λ shelf. shelf.faults };
}

impl<'r, R: Files<File = File>> Drop for CaseShelf<'r, R> {
    fn drop(self) {
        let CaseShelf {
            alloc: _,
            own: _,
            network: _,
            files: _,
            faults: _,
        } = self;
    }
}

impl<'r, R: Files<File = File>> CaseShelf<'r, R> {
    /// The shelf of a case.
    pub fn new(
        runtime: &'r R,
        alloc: Global,
        case: &Case<'_>,
    ) -> Result<CaseShelf<'r, R>, AllocError> {
        let (name, network) = (case.name, case.network);
        Ok(CaseShelf {
            alloc,
            own: format!(in alloc; "runs/{name}/")?,
            network: format!(in alloc; "networks/{network}/")?,
            files: FolderShelf::new(runtime),
            faults: 0,
        })
    }
}

fn open_in<R: Files<File = File>>(
    files: &mut FolderShelf<'_, R>,
    alloc: Global,
    folder: &str,
    name: &str,
) -> Option<FileSource>
    ensures { IfSome result (λ source. source ≡ 0) }
{
    let Ok(path) = format!(in alloc; "{folder}{name}") else {
        return None;
    };
    match files.open(&path) {
        Ok(source) => Some(source),
        Err(Failed) => None,
    }
}

impl<'r, R: Files<File = File>> Shelf for CaseShelf<'r, R> {
    type Src = FileSource;

    ghost use Rattle.std.specs.Prelude.{None};

    ghost files = { λ _. None };

    ghost faults = { λ count. count };

    ghost is_sound = { λ _ _. ⊥ };

    fn open(&mut self, name: &str) -> Result<FileSource, Failed> {
        if let Some(source) = open_in(&mut self.files, self.alloc, &self.own, name) {
            return Ok(source);
        }
        if let Some(source) = open_in(&mut self.files, self.alloc, &self.network, name) {
            return Ok(source);
        }
        self.faults = self.faults.saturating_add(1);
        Err(Failed)
    }
}
