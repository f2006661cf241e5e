//! The numbers, rows and limits that every crate of the dispatcher speaks of.
//!
//! It stands on std alone.
//!
//! # What is promised
//!
//! [`read_whole`] and [`read_milli`] answer exactly what a decimal text spells: `reads` (the value), `not_a_number` and
//! `too_large` (each exactly where it comes). They take texts of any length, and no memory.
//!
//! `few_digits` reads the digits at the front of a text of at most 19 bytes. It tells how many there are and the number that they
//! write. No digit follows them.
//!
//! [`Items`] is the list that it was made of. Its `from_slice` and `clone` take memory. A [`Steps`] counts each tick and nothing
//! else; it exists for contracts alone.
#![tactic(auto)]

mod counter;
mod ids;
pub mod limits;
mod list;
mod numbers;
mod rows;

pub use counter::Steps;
pub use ids::{ActId, Cost, EventId, Milli, Secs, StopId};
pub use list::Items;
pub use numbers::{FEW, FewDigits, NumFault, few_digits, read_milli, read_whole};
pub use rows::{ActKind, ActRow, DelayRow, EventKind, EventRow};
