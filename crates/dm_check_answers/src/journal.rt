//! What the answers of a run are judged by.
ghost use Rattle.std.specs.Prelude.{◌≡◌, IfOk};
ghost use Rattle.dm_check_rows.specs.Claims.{AreCheckedRowsOf};
ghost use Rattle.dm_check_answers.specs.Judging.{IsRunSetting};

use dm_check_rows::CheckedRows;
use dm_network::Network;
use dm_rows::{Entry, Rows};
use std::alloc::{AllocError, Global};

/// What a run is judged by besides its entries.
#[derive(Clone, Copy)]
pub struct RunSetting<'a> {
    /// Where the judging takes memory.
    pub alloc: Global,

    pub net: &'a Network,

    /// The rows before the first entry.
    pub start: &'a Rows,

    /// The penalty of a missed change, in seconds for each passenger.
    pub penalty: u64,

    /// How many plans a feed may have, at most 4,096.
    pub plans: u32,

    /// The version of the text, 1 or 2.
    pub version: u32,
}

impl<'a> RunSetting<'a> {
    /// The rows before the first entry. `Err` is want of memory alone.
    pub fn rows(&self) -> Result<CheckedRows, AllocError>
        requires { IsRunSetting self.now }
        ensures stands { IfOk result (AreCheckedRowsOf self.now.net.now) }
        ensures rows { IfOk result (λ d. d.rows ≡ self.now.start.now) }
    {
        let Ok(rows) = self.start.copy() else {
            return Err(AllocError);
        };
        match CheckedRows::new(self.alloc, self.net, rows) {
            Ok(checked) => Ok(checked),
            Err(AllocError) => Err(AllocError),
        }
    }
}

/// The accepted messages of a run, in order, with its setting.
#[derive(Clone, Copy)]
pub struct Journal<'a> {
    pub setting: RunSetting<'a>,
    pub entries: &'a [Entry],
}
