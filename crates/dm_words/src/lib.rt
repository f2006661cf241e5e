//! The words of a command line, and what they ask for.
//!
//! It stands on dm_lintim for column words and on dm_base for numbers and limits.
//!
//! # What is promised
//!
//! [`read_words`] reads the words of `run`, `check`, `gen`, `follow`, `window`, `rules` and `journey` exactly as `specs/` has
//! them. It gives what is asked for exactly where the words have a meaning there, and nothing elsewhere. [`board_words`] gives
//! the stops of the boards that a run's words ask for, and none for other words. It may want memory. [`read_serve_words`] reads
//! the words of `serve`, `serve --new` and `text` just as exactly, and gives what they ask of the live server or of its store. It and
//! `read_words` take no memory. [`Names`] and [`Ids`] give the names and ids among the words, in their order. Laws: words ask for
//! one thing at most, and those of a server ask for no command.
#![tactic(auto)]

mod boards;
mod command;
mod files;
mod ids;
pub mod laws;
mod options;
mod queries;
mod serve;

pub use boards::board_words;
pub use command::{CheckWords, CommandWords, GenWords, RunWords, read_words};
pub use files::FileWords;
pub use ids::Ids;
pub use options::Names;
pub use queries::{JourneyWords, Query, QueryWords, RuleWord, RulesWords, WindowWords};
pub use serve::{LiveWords, ServeWords, read_serve_words};
