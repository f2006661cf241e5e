//! A table as a desk.

use crate::entering::{adopt, carry, enter};
use dm_base::{Cost, EventId, Secs};
use dm_desk::Desk;
use dm_rows::{At, Decision, Entry, Refusal, Snapshot};
use dm_table::Table;
use dm_tree::AdoptRefusal;
use std::alloc::{AllocError, Global};

/// A table, as a desk that has entered all its entries.
#[derive(Drop)]
pub struct TableDesk<'n> {
    pub alloc: Global,
    pub table: Table<'n>,

    /// How many plans a feed may have.
    pub plans: u32,
}

impl Desk for TableDesk<'_> {
    ghost use Rattle.dm_table_desk.specs.Tables.{desk_of};

    ghost value = { λ d. desk_of d.plans d.table };

    fn plans(&self) -> u32 {
        self.plans
    }

    fn post(&mut self, entry: Entry) -> Result<u32, At<Refusal>> {
        self.table.reveal();
        let here = self.table.len();
        match enter(&mut self.table, entry) {
            Ok(number) => Ok(number),
            Err(why) => Err(At { entry: here, why }),
        }
    }

    fn time(&mut self, event: EventId) -> Result<(Secs, u32), At<Refusal>> {
        self.table.reveal();
        let here = self.table.len();
        match self.table.time(event) {
            Ok(time) => Ok((time, here)),
            Err(why) => Err(At { entry: here, why }),
        }
    }

    fn cost(&mut self) -> (Cost, u32) {
        self.table.reveal();
        (self.table.cost_now(), self.table.len())
    }

    fn length(&mut self) -> u32 {
        self.table.reveal();
        self.table.len()
    }

    fn snapshot(&mut self) -> Result<Snapshot, AllocError> {
        self.table.reveal();
        self.table.copy()
    }

    fn adopt(
        &mut self,
        entry: u32,
        choices: &[Decision],
        feed: u32,
        line: u32,
    ) -> Result<u32, AdoptRefusal> {
        adopt(self.alloc, &mut self.table, entry, choices, feed, line)
    }

    fn carry(&mut self, choices: &[Decision], feed: u32, line: u32) -> Result<u32, At<Refusal>> {
        carry(self.alloc, &mut self.table, choices, feed, line)
    }
}
