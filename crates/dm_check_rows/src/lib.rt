//! Claims about the rows of a network, tested apart from all that answers feeds.
//!
//! It stands on dm_check_times for the least timetables of rows and their costs.
//!
//! # What is promised
//!
//! A [`CheckedRows`] is rows as messages come. `CheckedRows::accept` tells exactly whether nothing refuses a message, and where
//! nothing does it makes the rows after it. `enter` makes the rows after a message, or tells what refuses it at once and leaves
//! the rows as they were. `go_to` goes to other rows. `settle` computes the least timetable of the rows, or tells that they have
//! a cycle, exactly. After it `is_time` and `is_cost` tell exactly which times and costs are true. [`is_cost_of`] tells which
//! costs are true of any rows and their least timetable.
//!
//! [`is_refused`] tells exactly whether a message is refused for the reason that is said. A cycle may be any cycle of the rows
//! after the message ([`shows_cycle`]). [`is_same_refusal`] tells exactly whether two refusals are one, and
//! [`copy_of_refusal`] gives one once more.
//!
//! Where the rows are known to have no cycle, none is looked for after delays, passed and cancelled events, dropped changes,
//! locks and clocks. A proof says that these make none. A clock looks at the events that are scheduled before it. `settle_times`
//! keeps no cost. Times follow those of before. They are computed from scratch only after an adopted list, and from the first
//! rows; the cost also where an event is cancelled or restored, or passes while it is cancelled.
//!
//! Memory is taken when a `CheckedRows` is made, for the rows, one timetable with its cost, and the events by their scheduled
//! times. It is also taken for the admission of an `Adopt`, and by `is_refused`. No clause speaks of that time and memory.
#![tactic(auto)]

mod checked_rows;
mod claimed;
mod costs;
mod cycles;
mod refusals;
mod refusing;

pub use checked_rows::CheckedRows;
pub use costs::is_cost_of;
pub use cycles::shows_cycle;
pub use refusals::{copy_of_refusal, is_same_refusal};
pub use refusing::is_refused;
