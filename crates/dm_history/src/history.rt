//! The entries of a day.
ghost use Rattle.std.specs.Prelude.{◌≡◌, ◌∷◌, ◌++◌, [], ◌-◌, ◌<◌, ◌≤◌, max, length, Some, OnOk, OnErr, slice_get};
ghost use Rattle.dm_base.specs.declared.limits.TheConstants.{ENTRIES};
ghost use Rattle.dm_history.specs.Value.{HistoryValue};

use dm_rows::Entry;
use std::alloc::{AllocError, Global};
use std::marker::Model;

/// At most 1,000,000 entries in their order, and room for some more.
pub struct History {
    entries: Vec<Entry>,

    /// For how many further entries there is room.
    spare: usize,
}

impl Drop for History {
    fn drop(self) {
        let History {
            entries: _,
            spare: _,
        } = self;
    }
}

impl Model for History {
    ghost use Rattle.std.specs.Prelude.{◌+◌, ◌≤◌, vec_len, vec_capacity};
    ghost use Rattle.dm_base.specs.declared.limits.TheConstants.{ENTRIES};
    ghost use Rattle.dm_history.specs.Value.{HistoryValue};

    ghost Value = { HistoryValue };

    ghost view = { λ history. record { entries = history.entries.items; spare = history.spare } };

    ghost invariant = { λ history.
        (vec_len history.entries ≤ ENTRIES) × (vec_len history.entries + history.spare ≤ vec_capacity history.entries) };
}

impl History {
    /// No entries, and no room. It takes no memory.
    pub fn new(alloc: Global) -> History
        ensures { result ≡ record { entries = []; spare = 0 } }
    {
        History {
            entries: Vec::new(alloc),
            spare: 0,
        }
    }

    /// Makes room for an entry, where there is none.
    pub fn reserve(&mut self) -> Result<(), AllocError>
        ensures ok { OnOk result (self.new ≡ record self.old { spare = max 1 self.old.spare }) }
        ensures err { OnErr result (self.new ≡ self.old) }
    {
        if self.spare == 0 {
            self.entries.reserve(1)?;
            self.spare = 1;
        }
        Ok(())
    }

    /// Puts an entry behind the others, into the room that was made. It takes no memory.
    pub fn push(&mut self, entry: Entry)
        requires room { 1 ≤ self.old.spare }
        requires few { length self.old.entries < ENTRIES }
        ensures { self.new ≡ record { entries = self.old.entries ++ entry ∷ []; spare = self.old.spare - 1 } }
    {
        let Ok(()) = self.entries.push(entry) else {
            unreachable!();
        };
        self.spare -= 1;
    }

    /// How many entries there are.
    pub fn len(&self) -> u32
        ensures count { result ≡ length self.now.entries }
        ensures few { result ≤ ENTRIES }
    {
        self.entries.len() as u32
    }

    /// The entry at a place, from 0.
    pub fn get(&self, i: usize) -> &Entry
        requires { i < length self.now.entries }
        ensures { slice_get self.now.entries i ≡ Some result.now }
    {
        &self.entries[i]
    }

    /// The entries, in their order. It takes no memory.
    pub fn as_slice(&self) -> &[Entry]
        ensures { result.now ≡ self.now.entries }
    {
        self.entries.as_slice()
    }
}
