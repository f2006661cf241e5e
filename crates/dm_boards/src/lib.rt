//! Boards that show times and cancelled events: one in memory, which tells all that stands on it, and one that is kept in a file.
//!
//! It stands on dm_outside for what a board is and for the count of calls, and on `itoa` for the digits of numbers. A
//! [`MemBoard`] is made with the events that it can show and with the calls at which it fails, so that a caller's contract with
//! boards can be tried. A [`FileBoard`] appends what changes to a file. It is a part of the trusted edge.
//!
//! # What is promised
//!
//! `MemBoard` tells all that stands on it. A show or a cancel fails exactly at a listed call that changes something, or at an
//! event that the board cannot show. Calls and faults are counted exactly, by `dm_outside`'s `Calls`.
//!
//! `FileBoard` tells nothing. Its count rises at each failed call until it stands at its last value. It appends to its file a
//! line `event; time` for each change of an event that is not cancelled, and a line `event; cancelled` for each event that is: so
//! an event's last line tells what the board shows. That is tested, not proved.
#![tactic(auto)]

mod file;
mod memory;

pub use file::FileBoard;
pub use memory::MemBoard;
