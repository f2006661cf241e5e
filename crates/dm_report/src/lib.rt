//! Whole texts in print: runs, timetables and the generator's summary.
//!
//! It stands on dm_cert, whose `specs/` say how runs are spelled, on dm_history and dm_times for what is printed, and on
//! dm_outside for the page that gathers bytes before a sink takes them. `dispatch` calls `write_timetable` and `write_cancelled`
//! for the command `follow`.
//!
//! # What is promised
//!
//! Nothing here takes memory. Where a write fails, the sink has taken a front of the text, and not all of it.
//!
//! - [`print_run`] writes exactly the run's spelling in version 2. Its condition is that the run has a spelling.
//! - [`write_timetable`] writes exactly the lines `id; time` of all events of a network, in ascending id.
//! - [`write_cancelled`] writes exactly the lines `cancelled id` of the events that are cancelled, in ascending id.
//! - [`write_summary`] writes exactly the seven lines of a generated day.
//! - `put_ids` prints exactly the ids, each behind a space.
//! - `put_labelled` prints exactly the numbers, each behind its words, and then the last text.
//! - `put_items` prints exactly the items of a log, in version 2. Its condition is that each item has a spelling.
//! - [`Run::fits`] reads all numbers of a run, and so gives that each is one of its type (`FitsRun`).
//! - `items_fit` reads the numbers of a log's items, and gives the same of them (`FitsItem`).
#![tactic(auto)]

mod answers;
mod fitting;
mod records;
mod runs;
mod summaries;
mod words;

pub use answers::{put_ids, put_items};
pub use fitting::items_fit;
pub use runs::{Run, print_run, write_cancelled, write_timetable};
pub use summaries::{Summary, write_summary};
pub use words::put_labelled;
