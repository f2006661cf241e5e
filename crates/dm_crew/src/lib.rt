//! Feeds that are answered at once, each round's feeds in some threads.
//!
//! It stands on dm_server, whose table many passes use, on dm_rounds for the rounds of one feed, and on dm_display for boards.
//!
//! # What is promised
//!
//! A [`Crew`] is what feeds are answered with: threads, memory, what makes plans, how many plans a feed may have, a gate, and how
//! many lines a round takes of each feed.
//!
//! [`answer_at_once`] answers a day's feeds over a server of its rows, in rounds. In a round each feed has a pass of its own,
//! split from the main one; then all passes are joined. Before the first round it publishes the times and which events are
//! cancelled on a list of boards. After each round it publishes what has changed.
//!
//! The clause `answers` (`AnswersDay`) says:
//!
//! - Each log answers the due lines of its feed's bytes: all of them, of a feed that is too long those that end within the limit,
//!   or after a failed read the first ones. A feed that could not be opened has an empty log.
//! - Every log is true of the one history that the table has in the end, and has a spelling.
//! - Each entry is named by one item.
//! - Rounds are kept: no number of a later round is below one of an earlier round.
//! - The table is one of the given rows at the given penalty.
//!
//! The clause `shown` says that in the end each board that no note names shows the table's times and which events are cancelled,
//! where it told at first what it shows. Each note is true. The clause `stops` says that the boards have the same stops in the
//! same order, whatever comes.
//!
//! A [`ServerDesk`] is a server with one pass, as a desk that answers a feed. A [`Caller`] is the server for that pass, and a
//! [`Seat`] says which pass it is.
//!
//! Where two or more feeds are still read, the code shares them out for the round among as many threads as there are processors,
//! and two at least, if threads can be made. Each thread answers its share one feed after another. No clause says that threads run,
//! or that a call which waits returns.
//!
//! Want of memory may come up to the end of the last round.
#![tactic(auto)]

mod day;
mod desk;
mod display;
mod rounds;
mod work;

pub use day::{AnsweredDay, answer_at_once};
pub use desk::{Caller, Seat, ServerDesk};
pub use rounds::Crew;
