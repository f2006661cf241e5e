//! Plans of either kind for the rows of a snapshot.
//!
//! It stands on dm_workers, which searches plans by several workers, on dm_solve, which makes a plan by parts of one, and on
//! dm_part_workers, by which several workers solve parts. Which kind
//! is asked for, and what is then found, dm_desk says (`Search`, `specs/Planning`).
//!
//! # What is promised
//!
//! [`find`] gives a true plan of the kind that was asked for, with the snapshot's entry, or wants memory. The shares of one by parts
//! have no more ids than a text has room for. The plan costs no more than the rows by themselves. With k free choices and 2^(k+1) - 1
//! nodes it is optimal, where a text has room for the ids of all arrivals and changes of the network.
#![tactic(auto)]

mod finding;
mod making;

pub use finding::find;
