//! The follower: a second site that reads the journal of a run as it arrives.
//!
//! It stands on dm_table for rows and times, and on dm_records for the lines of a run's text. A [`Follower`] is given the bytes
//! of a text in pieces. `specs/Followed` says which history bytes carry.
//!
//! # What is promised
//!
//! A `Follower` reads the journal of a run as it arrives, of either version, in pieces of any size. After the bytes that `feed`
//! has taken, however they were cut, its history is the longest whose lines stand whole at their front and break no rule. Its
//! table's rows are those after this history, and its times are least (`takes`, `specs/Followed`).
//!
//! `feed` reports a line that breaks its rule exactly where there is one, by its number and kind. From then on it takes nothing.
//! After want of memory a front of the piece was taken, and the other bytes may be given again. `tail` tells what is there of the
//! journal. That is all of it, or the torn line with how many of its bytes there are, or the line that breaks its rule.
//!
//! Laws ([`laws`]): given bytes have one history, at most one broken line, and one tail. A front of a true run's text has no
//! broken line, and its history is a front of the run's.
#![tactic(auto)]

mod entries;
mod faults;
mod follower;
mod headers;
pub mod laws;
mod stages;

pub use faults::{FollowFault, FollowKind, Tail};
pub use follower::Follower;
