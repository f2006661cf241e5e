//! Words for judging a text record by record: its places and lines, the numbers and words in a line, and what is told of it.
//!
//! It stands on dm_base for what digits write, and knows nothing of railways. `dispatch` uses it for `check`, below `dm_records`
//! and `dm_check`. Each byte is looked at a few times at most. The words of `specs/Judging` say what is told of a text: a value,
//! or the first line that is cut or misshapen, or the first record that breaks a rule.
//!
//! # What is promised
//!
//! [`Lines`] walks over a text line by line. `Lines::next_line` gives the line up to its line feed, or says that the text ends
//! before the line is whole. [`behind`] and [`number_in_front`] read a line from its front, exactly. `behind` gives what stands
//! behind a text. `number_in_front` gives the number whose digits stand in front, up to a limit. A number has one spelling.
//! Nothing here takes memory.
//!
//! Law, in [`laws`]: at a place at most one line begins, and where one begins the text is not cut.
#![tactic(auto)]

pub mod laws;
mod lines;
mod parts;

pub use lines::Lines;
pub use parts::{behind, number_in_front};
