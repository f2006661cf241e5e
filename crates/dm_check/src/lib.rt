//! The verdict on the text of a run: it is good, or one record is the first that breaks its rule; and whether logs are true.
//!
//! It stands on dm_check_answers for answers, on dm_check_plans for plans, on dm_check_parts for plans by parts, and on dm_cert
//! for the texts and for what a true answer is. It stands on dm_text for the words in which a text is judged record by record,
//! and on dm_records, which says how the line of each record is written, and reads it.
//!
//! `specs/FalseRecords` says what each record must say after those before it, and the kind and the line of its fault.
//! `specs/Truth` says what the verdict says of true runs. Where there are several logs, what their answers claim of rows is
//! gathered and judged first, all claims in the order of their entries.
//!
//! # What is promised
//!
//! [`check`] gives exactly the verdict of `specs/FalseRecords` on the text of a run, of either version. Either the text is good,
//! with the numbers of its entries and plans. Or the verdict is the line and the kind of the first record that breaks its rule.
//! The text is good exactly where it is, in one of the versions, that of a true run (`specs/Truth`) of the network from these
//! rows at this penalty and this number of plans. Nothing is asked of the text but its size. `good` does not say that the logs
//! hold the feeds' bytes, nor that they keep to rounds. [`BadKind::word`] gives the word of a kind of fault.
//!
//! [`are_true_logs`] tells exactly whether logs are true of entries (`AreTrueLogs`), as both stand in memory, or it wants memory.
//! It takes no text and makes none. It asks that the logs are of at most 64 feeds, and that their items have a spelling. It does
//! not tell where the first fault is. It does not ask whether the entries are accepted: whoever calls it knows that.
//!
//! Laws:
//!
//! - The empty text is cut at line 1.
//! - A good text is the spelling, in one of the versions, of the run that is told of it.
//! - Only one thing is told about the plan at a place.
//! - `verdicts_are_one`: only one verdict holds of a text.
//! - `true_texts_are_good`: the text, in either version, of a true run over a network within the limits is good, with the numbers
//!   of its entries and plans. So `check` answers that or wants memory. The law asks that the ids of events are below 2^32, as
//!   they are in memory.
//! - `good_texts_are_true`: a good text, over a network and rows at the start within the limits, is that of a true run of this
//!   network from these rows at this penalty.
//! - `run_texts_are_the_good_ones`: the two laws above together.
#![tactic(auto)]

mod checking;
mod faults;
mod gathering;
mod judging;
pub mod laws;
mod logged_claims;
mod named;
mod planning;
mod told_entries;
mod told_items;
mod told_lines;
mod told_logs;
mod told_notes;
mod told_plans;
mod told_records;
mod told_rest;
mod true_logs;
mod verdicts;

pub use faults::{Fault, Stop};
pub use judging::check;
pub use true_logs::are_true_logs;
pub use verdicts::{BadKind, Verdict};
