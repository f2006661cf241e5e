//! The columns of one file, in order.
ghost use Rattle.std.specs.Prelude.{◌≡◌, ◌<◌, ◌≤◌, [], ◌∷◌, ◌++◌, length, map, Some};
ghost use Rattle.dm_lintim.specs.Columns.{has_column};

use crate::columns::Column;
use std::marker::Model;

/// How many columns a file may have.
pub(crate) const MOST: usize = 16;

/// The columns of a file, with `None` for one that is passed over. It takes no memory.
#[derive(Debug, Drop)]
pub(crate) struct Layout {
    columns: [Option<Column>; MOST],
    count: usize,
}

impl Model for Layout {
    ghost use Rattle.std.specs.Prelude.{List, Option, take, ◌≤◌};
    ghost use Rattle.dm_lintim.specs.declared.columns.Column.{Column};
    ghost use Rattle.dm_lintim.specs.declared.layout.TheConstants.{MOST};

    ghost Value = { List (Option Column) };

    ghost view = { λ a. take a.count a.columns };

    ghost invariant = { λ a. a.count ≤ MOST };
}

impl Layout {
    pub(crate) fn new() -> Layout
        ensures { result ≡ [] }
    {
        Layout {
            columns: [None; MOST],
            count: 0,
        }
    }

    /// The layout of these columns, none of them passed over.
    pub(crate) fn of(columns: &[Column]) -> Layout
        requires { length columns.now ≤ MOST }
        ensures { result ≡ map Some columns.now }
    {
        let mut layout = Layout::new();
        for column in columns {
            layout.push(Some(*column));
        }
        layout
    }

    pub(crate) fn len(&self) -> usize
        ensures { result ≡ length self.now }
    {
        self.as_slice().len()
    }

    pub(crate) fn as_slice(&self) -> &[Option<Column>]
        ensures { result.now ≡ self.now }
    {
        &self.columns[..self.count]
    }

    pub(crate) fn push(&mut self, column: Option<Column>)
        requires { length self.old < MOST }
        ensures { self.new ≡ self.old ++ column ∷ [] }
    {
        self.columns[self.count] = column;
        self.count += 1;
    }

    pub(crate) fn has(&self, column: Column) -> bool
        ensures { result ≡ has_column self.now column }
    {
        has(self.as_slice(), column)
    }
}

fn has(columns: &[Option<Column>], column: Column) -> bool
    ensures { result ≡ has_column columns.now column }
{
    columns.iter().any(|place| match place {
        Some(other) => column.is(*other),
        None => false,
    })
}
