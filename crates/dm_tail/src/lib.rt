//! Feeds that others append to, and how their lines are answered.
//!
//! It stands on dm_desk, which answers lines whose bytes are in memory, and on dm_feed for lines. A [`Growing`] feed gives its
//! next bytes as others append them. A [`Tail`] keeps what is not yet answered of it. A [`Watched`] feed has its log besides.
//!
//! # What is promised
//!
//! The trait `Growing` says what a feed gives: each read goes on where the one before ended, and a fault is counted. A feed may
//! tell its source, all the bytes that others write to it. No call here changes that (`source`), and what the feed has given is a
//! front of it (`GivesFront`).
//!
//! A [`MemFeed`] is a feed in memory that tells all that it has given. Its calls fail where they are listed. Each other read gives as
//! much as stands in it by then, and as the buffer holds.
//!
//! A [`FileFeed`] is a file, and nothing is promised of its bytes. `FileFeed::open` opens files alone: to open a named pipe might
//! wait for ever. A read that a signal interrupts is taken again. Where no bytes come, a read also fails if the file is shorter than
//! what was read of it, or if its name no longer leads to it. `FileFeed::fault` tells why a call failed. A file that was cut and has
//! grown again before it was looked at is not noticed.
//!
//! `Tail::look` reads the next bytes behind what is pending (`Takes`). It stops at a fault, whose cause it tells, or at
//! [`LARGEST_FEED`] bytes. `Tail::skip` takes away exactly the first bytes that are pending.
//!
//! `Watched::answer` answers the next due lines of a feed over any desk (`Answers`). It answers fewer than the batch only where
//! no whole line is left. The lines that were passed, and what is pending behind them, are all that the feed has given. The
//! log answers those lines truly, each due one once and in order (`IsWatched`).
//!
//! `answer_feeds` does so for feeds in their order, over one desk (`AnswersAll`). What the desk entered meanwhile is named by
//! just one of the items that came.
#![tactic(auto)]

mod feeds;
mod files;
mod growing;
mod memory;
mod tail;
mod watched;

pub use feeds::answer_feeds;
pub use files::{FeedFault, FileFeed, NoFeed};
pub use growing::Growing;
pub use memory::MemFeed;
pub use tail::{LARGEST_FEED, PIECE, Tail};
pub use watched::Watched;
