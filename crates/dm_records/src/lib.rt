//! The records of a run's text, each read from its line.
//!
//! It stands on dm_cert for how runs and plans are spelled, on dm_feed for messages and lines in print, and on dm_text for words
//! and numbers at the front of a line. `specs/RunLines` says which bytes spell what.
//!
//! # What is promised
//!
//! The readers read the records of a run's text, from the opening lines to the times and notes: [`version_line`],
//! [`number_line`], [`is_word_line`], [`entry_line`], [`opening_line`], [`item_line`], [`stop_line`], [`note_line`] and
//! [`time_line`]. Each gives the one value that a line spells, exactly where the line spells one. They take memory for lists
//! alone (choices, cycles). `EntryLine::into_entry` is the entry of a line. `item_line` gives an item of one line in the types of
//! logs. Where a value in that is too large for its type, it tells this alone.
//!
//! Laws, in [`laws`]:
//!
//! - `lines_spell_one`: in each version a line of each kind spells one record alone.
//! - `runs_have_own_texts`: different runs over one network have different texts, where the runs have a spelling. One run has
//!   different texts in the two versions. What follows a run's text does not change how it is read. All this holds for runs whose
//!   lists are shorter than 2^64.
//! - `texts_tell_one_run`: a text of a true run over a network tells the version and the whole run, whatever rows it began with.
#![tactic(auto)]

mod answers;
mod fields;
mod items;
mod kinds;
pub mod laws;
mod lines;

pub use items::{LogLine, PlanLine, SolvedLine, item_line};
pub use lines::{
    EntryLine, NoteLine, OpeningLine, TimeLine, entry_line, is_word_line, note_line, number_line,
    opening_line, stop_line, time_line, version_line,
};
