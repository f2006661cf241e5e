//! Lives of a live server over a store in memory, where each call of a life fails in turn.
//!
//! First the program serves a day of two feeds, a line of each in a round, and compares the text with one that was worked out
//! by hand. On that day a plan is carried over once one of its choices is locked and the other turned back, so each later life
//! has to find again which choice was entered. Then each call on the store fails in a life of its own, from an empty store.
//! That life has to end with its status and its line, and what it showed has to be a front of each log. A crash then tears what
//! stood there, in each way, and the next life goes on from what is left. It has to end with the text and the logs of a day
//! without a crash: every line answered once, none lost. For two ways of tearing, each call of the next life fails as well, and
//! a third life has to end in the same way.
//!
//! For each way of tearing the program prints the status of each life whose call failed, by call. Where something is wrong it
//! prints a letter instead: `s` for the life's status, `p` for what it printed, `f` for what it showed, `n` for a life after it.
//! It does the same for each call of a feed that fails: `5` for a sync, and `f` for a read, where the feed is read no further, and
//! the next life answers each line that was left. Where each feed comes in two parts, the day comes to the same text. It stands on
//! dm_serve for what it tries, on dm_lives for a store in which nothing was served, on dm_store for the store, on dm_tail for the
//! feeds, and on what a server is handed.
//!
//! Store and feeds tell what the promises of dm_serve ask of them. So what dm_serve promises of each moment holds of the first life,
//! over a new store, with nothing left to suppose (`IsFirstLife`): it goes on from the empty book, and each log answers a front of
//! its feed's bytes, unless nothing was done. Nothing else is promised.
#![tactic(auto)]

mod crashes;
mod day;
mod lives;
mod outside;

use crate::crashes::{failing_feed, from_nothing, in_two_parts, one_life};
use dm_samples::{Failure, report};
use dm_store::Tear;
use std::io;

/// The ways of tearing, by name, and whether each call of the next life fails as well.
const TEARS: [(&str, Tear, bool); 8] = [
    ("nothing", Tear::Nothing, false),
    ("all", Tear::All, false),
    ("one-byte", Tear::Front(1), false),
    ("front", Tear::Front(20), false),
    ("zeros", Tear::Zeros, false),
    ("open-gates", Tear::Other(b'+'), false),
    ("front-twice", Tear::Front(20), true),
    ("open-gates-twice", Tear::Other(b'+'), true),
];

fn main(rt: HostRuntime) -> io::Result<()> {
    report(&rt, "one-life", one_life(&rt))?;
    report(&rt, "feeds-in-two-parts", in_two_parts(&rt))?;
    for (name, tear, twice) in TEARS {
        print_line(&rt, name, from_nothing(&rt, tear, twice))?;
    }
    print_line(&rt, "first-feed", failing_feed(&rt, 0))?;
    print_line(&rt, "second-feed", failing_feed(&rt, 1))
}

fn print_line<R: Print>(rt: &R, name: &str, line: Result<String, Failure>) -> io::Result<()> {
    match line {
        Ok(line) => println!(rt; "{name} {line}"),
        Err(failure) => report(rt, name, Err(failure)),
    }
}
