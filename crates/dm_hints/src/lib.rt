//! What somebody who makes a mistake is told: lines on the standard error, each of which begins with `dispatcher: `.
//!
//! It stands on dm_words and dm_lintim for what words and columns mean. It stands on dm_input, which reads the files again, with
//! the faults of dm_network and dm_rows. It stands on dm_outside for the sink that it listens at, and on dm_base for limits and
//! numbers. [`Listener`] remembers what is worth a word of all that it passes on.
//!
//! # What is promised
//!
//! `Listener` hands each write on to another sink unchanged. Contracts see it as that sink, so what is promised of a call into a
//! sink holds of it.
//!
//! [`tell`] says on the standard error what went amiss, once the program has ended with its status. [`tell_live`] does so once a
//! server, or the text of a store, has ended. To find what went amiss both may read the files again, and take memory. Want of
//! memory leaves something unsaid. Every call is proved to be safe and to end. Nothing is promised of the words.
#![tactic(auto)]

mod bad;
mod cycles;
mod feeds;
mod files;
mod hearing;
mod help;
mod listening;
mod live;
mod memory;
mod records;
mod refused;
mod saying;
mod tables;
mod telling;
mod text;
mod usage;

pub use listening::Listener;
pub use live::tell_live;
pub use telling::tell;
