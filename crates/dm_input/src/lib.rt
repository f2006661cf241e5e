//! What words and files determine: a network and its start rows, or the first refusal.
//!
//! It stands on dm_words, which reads the words, on dm_lintim, which reads the files, on dm_network and dm_rows, which make the
//! network and the start rows, and on dm_outside, for shelves and sinks. [`read_opening`] opens, reads and checks the files one
//! after the other. Then it makes the network, and then the start rows.
//!
//! # What is promised
//!
//! `read_opening` gives the network and the start rows that the words and the files determine, or the first refusal in this order
//! with its cause. Or it names a file that the shelf does not tell sound, and nothing was refused before that file. Or it wants
//! memory. [`take_name`] takes all the bytes under one name, if they are at most a limit. Both leave the shelf telling what it
//! told.
//!
//! [`put_usage`], [`put_refused`] and [`put_read_fault`] print the usage line, the refused lines and the read fault lines. Each
//! puts exactly that text, or a proper front of it where a write failed.
//!
//! Laws ([`laws`]): where the shelf tells its map, there is at most one opening, except for which cycle of a network is shown.
//! The records of two files make at most one network, and records that make one are refused for want of memory alone.
#![tactic(auto)]

mod flaws;
pub mod laws;
mod lines;
mod opening;
mod reading;

pub use flaws::{File, FileFlaw, InputFlaw, InputStop};
pub use lines::{put_read_fault, put_refused, put_usage};
pub use opening::{Opened, read_opening};
pub use reading::take_name;
