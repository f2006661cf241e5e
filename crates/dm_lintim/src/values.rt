//! The values of one record. Each cell is read once, and what it gave is kept here until the row is made of it.
ghost use Rattle.std.specs.Prelude.{◌≡◌, ◌≤◌, ◌<◌, IsSome, Some, None};
ghost use Rattle.dm_lintim.specs.Columns.{same_column};
ghost use Rattle.dm_lintim.specs.Files.{largest_of};
ghost use Rattle.dm_lintim.specs.Inside.Values.{AreWithin, first_kind, number_in, put_slot, slot};
ghost use Rattle.dm_lintim.specs.declared.columns.Column.{Column};

use crate::columns::{COLUMNS, Column};

/// What the cells of a record gave: under each column the first number, and the first kind. It takes no memory.
#[derive(Drop)]
pub(crate) struct Values<K> {
    pub(crate) numbers: [Option<u64>; COLUMNS],
    pub(crate) kind: Option<K>,
}

impl<K: Copy> Values<K> {
    pub(crate) fn new() -> Values<K>
        ensures numbers { (column : Column) → slot result.numbers column ≡ None }
        ensures kind { result.kind ≡ None }
    {
        Values {
            numbers: [None; COLUMNS],
            kind: None,
        }
    }

    /// Keeps a number under a column, where none was kept before.
    pub(crate) fn put(&mut self, column: Column, number: u64)
        requires within { AreWithin self.old.numbers }
        requires fits { number ≤ largest_of column }
        ensures numbers { (c : Column) → slot self.new.numbers c ≡ put_slot (slot self.old.numbers c) (same_column c column) number }
        ensures within { AreWithin self.new.numbers }
        ensures kind { self.new.kind ≡ self.old.kind }
    {
        let place = column.number();
        if self.numbers[place].is_none() {
            self.numbers[place] = Some(number);
        }
    }

    /// Keeps a kind, where none was kept before.
    pub(crate) fn put_kind(&mut self, kind: K)
        ensures kind { self.new.kind ≡ first_kind self.old.kind kind }
        ensures numbers { self.new.numbers ≡ self.old.numbers }
    {
        if self.kind.is_none() {
            self.kind = Some(kind);
        }
    }

    /// The number under a column, or 0 where the file has no such column.
    pub(crate) fn number(&self, column: Column) -> u64
        requires { AreWithin self.now.numbers }
        ensures value { result ≡ number_in self.now.numbers column }
        ensures within { result ≤ largest_of column }
    {
        self.numbers[column.number()].unwrap_or(0)
    }

    /// The kind, which was kept.
    pub(crate) fn kind(&self) -> K
        requires { IsSome self.now.kind }
        ensures { self.now.kind ≡ Some result }
    {
        self.kind.unwrap()
    }
}
