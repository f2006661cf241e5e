//! The text of the run that a store holds, and the ends that it shares with the live server.
//!
//! It stands on dm_restore for what a journal holds, on dm_input for files, on dm_words for words and on dm_report for a run's
//! text.
//!
//! # What is promised
//!
//! [`text_of_store`] prints the run whose book the journal of a store holds, beside a running server or without one. It takes no
//! lock and changes nothing: the shelf tells what it told.
//!
//! At status Ok the text is that of a true run in version 2. The run's history and logs are the book in the blocks that the bytes
//! of the journal are. No log has a stop, and there are no notes (`IsTextIn`). Each other status has its cause: the files are
//! refused, or of one of them the shelf does not tell that it is sound; the journal is refused for what its blocks hold, or the
//! shelf does not tell that it is sound; or the sink failed, and took a proper front of a text that was due. At want of memory
//! nothing was written.
//!
//! [`end_files`], [`end_store`], [`end_refused`], [`end_reply`], [`end_feed`], [`end_unread`] and [`end_server_usage`] each write
//! the line that they name whole, with its status, unless the sink failed. [`end_run`] does so with the text of a run.
//!
//! [`laws`]: a journal that holds a true book, with an end that a crash may leave, is refused for want of memory or of room
//! alone.
#![tactic(auto)]

mod ends;
pub mod laws;
mod printed;
mod status;
mod text;
mod usage;

pub use ends::{end_feed, end_files, end_refused, end_reply, end_store, end_unread};
pub use printed::end_run;
pub use status::Status;
pub use text::text_of_store;
pub use usage::end_server_usage;
