//! The network, delay and id files: events, activities, delays and ids from bytes, exactly.
//!
//! It stands on dm_base for the rows and the readers of numbers, and on `csv`, which splits a file into records.
//!
//! # What is promised
//!
//! [`read_events`], [`read_activities`], [`read_delays`] and [`read_ids`] give exactly the rows that the grammar in `specs/`
//! relates to the bytes, in file order. Or they give the first fault: a byte order mark, or else the first record that breaks a
//! rule, with its number. In that record a wrong number of fields goes first, and then the first column that breaks a rule. Only
//! want of memory does not follow from the bytes.
//!
//! [`Columns::read`] gives the columns that two texts name. It refuses at the first word that breaks a rule, or else for the
//! first required column that no word names. `Columns::standard` gives the standard columns, and `Column::name` the word for a
//! column. `first_piece` gives the first of the pieces that commas cut a text into.
//!
//! Laws, in [`laws`]: the grammar relates at most one answer to given bytes, and at most one to two texts of column words. The
//! texts of the standard order give the standard columns. `csv` cuts a file as the plain rule does.
#![tactic(auto)]

mod activities;
mod cells;
mod columns;
mod delays;
mod digits;
mod events;
mod fault;
mod field;
mod ids;
pub mod laws;
mod layout;
mod records;
mod rows;
mod values;
mod words;

pub use activities::read_activities;
pub use columns::{Column, ColumnFault, Columns};
pub use delays::read_delays;
pub use dm_base::{ActKind, ActRow, DelayRow, EventKind, EventRow};
pub use events::read_events;
pub use fault::{FileFault, FileKind};
pub use ids::read_ids;
pub use words::first_piece;
