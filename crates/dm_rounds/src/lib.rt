//! The jobs of a round.
//!
//! It stands on dm_desk, which answers the next lines of one feed. A [`Job`] is a feed and its log. The specs say what a
//! round of all jobs comes to, and what all rounds do. The caller chooses who answers the jobs of a round, and in which
//! order: dm_crew gives them to threads.
//!
//! # What is promised
//!
//! [`begin`] makes a job for each feed, in a box. A feed that could not be opened has an empty log that ends with a fault.
//! [`answer_job`] answers truly, over a desk, the next lines of a feed that has not ended. `have_ended` tells exactly whether
//! all feeds have ended. `logs_of` gives the logs, and takes no memory.
//!
//! `AnswersFeeds` says what answering in rounds comes to. Each log is true of the one history that the desk has seen, and has
//! a spelling. Each entry that was made is named by one item. No entry number of an earlier round is above one of a later
//! round.
#![tactic(auto)]

mod beginning;
mod ending;
mod jobs;

pub use beginning::begin;
pub use ending::{have_ended, logs_of};
pub use jobs::{Job, Progress, answer_job};
