//! The files of a live server: feeds to which others append, how full its journal is, and the list of the network's files that its
//! store was begun over.
//!
//! It stands on dm_tail for feeds that are files, on dm_store for how long a journal may be, on dm_words for names, on dm_outside for
//! failures, on `httpdate` for the time of a fault, on `memchr` for the ends of lines, and on `sha2` and `hex` for check sums. It is
//! a part of the trusted edge.
//!
//! # What is promised
//!
//! A [`LiveFeed`] tells nothing of what it gives. Each failed call raises its count of faults, until that stands at its last value.
//! [`open_feeds`] gives as many feeds as there are names. That a feed gives no line that asks for a plan where the journal is short
//! of room, that it comes to its end once the server is told to end, what [`Gauge`] tells, and which store is refused by
//! [`refusal`] and [`refusal_of_files`], is tested, not proved.
#![tactic(auto)]

mod begun;
mod feeds;
mod gauge;

pub use begun::{list_of, put_list, refusal, refusal_of_files, say_taking_up};
pub use feeds::{LiveFeed, open_feeds};
pub use gauge::Gauge;
