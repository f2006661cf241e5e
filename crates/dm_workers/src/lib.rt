//! Plans searched by several workers, in threads of their own.
//!
//! It stands on dm_team for what workers do who are led by a guide, and on dm_guide for searchers that look for one.
//!
//! # What is promised
//!
//! `search` gives a true plan of the rows of a snapshot, with the snapshot's entry, or wants memory. It has the clauses of
//! dm_search's `plan`, and its plan costs no more than the rows by themselves. `search_task` does so for any task, with an entry.
//! It finds a guide, and is [`laws::search_guided`] then. So there is a guide, and what workers found and gave up of its tree, by a
//! hand of a word, of which the plan is made as dm_team says (`IsPlanOfWorkers`).
//!
//! [`laws`] are the calls of dm_team, and the protocol of the deques.
//!
//! # How the workers search
//!
//! No clause of a public call says what stands here. A guide is found first, by searchers in threads, and its choices are made
//! out. Meanwhile other threads make an evaluator for each worker; one of them comes back to the calling thread. Then the workers
//! search the guide's tree, as dm_team says.
//!
//! `search` waits for its threads, so its promise holds if it returns.
#![tactic(auto)]

pub mod laws;
mod rounds;
mod searching;

pub use searching::{search, search_task};
