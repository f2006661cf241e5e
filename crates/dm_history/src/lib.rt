//! The history of a day: its entries, and the rows after them.
//!
//! It stands on dm_rows for entries, rows and refusals, and on dm_times for cycles.
//!
//! # What is promised
//!
//! [`History`] is seen as a list of at most 1,000,000 entries and the number of further ones that it has room for. `reserve`
//! makes room for one where there is none. `push` puts an entry behind the others and takes no memory. It needs room, and fewer
//! than 1,000,000 entries. So whoever makes room first can enter without taking memory.
//!
//! [`replay`] gives the rows after a list of entries, which is then a legal history. Exactly where an entry is refused by the
//! rows after those before it, it gives the first such entry with its refusal. Or it gives want of memory.
//!
//! `dispatch` does not call `replay`.
#![tactic(auto)]

mod history;
mod replaying;

pub use history::History;
pub use replaying::{ReplayFault, replay};
