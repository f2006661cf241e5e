//! The commands: what the words of a command line ask for, from files and feeds to the text that is written.
//!
//! It stands on dm_words for words, on dm_input for files, on dm_crew for feeds that are answered at once in rounds, on dm_report
//! for the text, on dm_summary for generated days, on dm_check for texts that are checked, on dm_journal for the journals of
//! texts, and on dm_outlook, dm_ruling and dm_journey for what is asked of journals.
//!
//! What searches for plans is handed in, as closures. The crate above, dm_program, hands in workers, and has the call `dispatch`
//! with its clauses. What these clauses name is defined here:
//!
//! - `specs/Headline`: what a run prints.
//! - `specs/Generated`: what a generated day does.
//! - `specs/Checked`: what is printed of a text that is checked.
//! - `specs/Answers`: what is printed of what is asked of a journal.
//! - `specs/Boards`: what becomes of the boards.
//! - `specs/Ends`: how a call ends, and which text is due at each status.
//!
//! # What is promised
//!
//! `dispatch_with` does what the words ask, with what its [`CommandMeans`] give. It asks for plans of rows within the limits and
//! without a cycle, and is handed true ones (`Searches` of dm_desk; for those of a window, `SearchesWindows` of dm_outlook).
//!
//! `ends`: the call ends as its status says (`Ends`). All clauses of `dispatch` follow from it, except the four that hold
//! whatever the status.
//!
//! - At each status but two, the sink has taken a text that is due to the words at this status (`IsDue`).
//! - After a write fault, the sink's count has risen, and the sink has taken a proper front of a text that was due.
//! - At want of memory, the words ask for something, and nothing was written.
//!
//! Whatever the status: `kept` (the shelf tells what it told), `later` (the sink's count has not fallen), `stops` (the boards in
//! the list have the same stops in the same order), and `left` (words that ask for no run leave all boards as they were).
#![tactic(auto)]

mod checking;
mod ending;
mod ends;
mod feeds;
mod follow;
mod generate;
mod journey;
mod means;
mod print;
mod queries;
mod ruling;
mod run;
mod searching;
mod status;
mod top;
mod verdicts;
mod window;

pub use ending::{BoardList, Ending};
pub use means::CommandMeans;
pub use status::Status;
pub use top::dispatch_with;
