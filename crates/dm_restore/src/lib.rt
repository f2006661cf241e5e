//! What a live server starts with: the run that the file of a journal holds, read back and judged.
//!
//! It stands on dm_store for the blocks of a journal, on dm_tape for the rounds in them, on dm_table_desk for the table that
//! takes their entries, on dm_check, which judges the run, and on dm_book for what a true book is. A plan that a log names as
//! carried over is carried anew: the choices that are free after the entries before come to the same entry. The logs are judged
//! as they stand in memory. Only where they are not true is the run printed: the verdict on its text names the record.
//!
//! # What is promised
//!
//! `restore` trusts nothing that it reads back. At `Ok` the book is true (`is_true`), stands in the blocks of the file (`book`),
//! and no other true book does (`one`). Each refusal has its cause (`refused`): the head of another journal; the first block that
//! is misshapen; an end that no crash leaves; a text that is told bad, so that no history makes a true book of the logs; or too
//! many bytes. So the file of a journal that holds a true book, with an end that a crash may leave, is refused for its size
//! or for want of memory alone. `restore` changes nothing.
//!
//! `head_text` gives the content of a first block.
#![tactic(auto)]

mod entries;
mod heads;
mod judging;
mod logs;
mod restoring;
mod rounds;
mod stops;

pub use heads::{Head, head_text};
pub use restoring::{Restored, restore};
pub use stops::RestoreStop;
