//! How full the journal of a store is.
use dm_store::LARGEST_JOURNAL;
use std::cell::Cell;
use std::fs::File;
use std::rt::Files;
use std::{fs, io};

/// With so many bytes, four of five that it may have, a journal is short of room: what is left is for messages.
const SHORT: u64 = LARGEST_JOURNAL as u64 / 5 * 4;

/// What a server knows of the room in its journal, and whether it has begun to answer.
#[derive(Drop)]
pub struct Gauge<'r, R> {
    rt: &'r R,
    journal: &'r str,
    is_short: Cell<bool>,
    has_begun: Cell<bool>,
}

impl<'r, R: Eprint + Files<File = File>> Gauge<'r, R> {
    /// A gauge of this file, at which nothing was looked yet.
    pub fn new(rt: &'r R, journal: &'r str) -> Gauge<'r, R> {
        Gauge {
            rt,
            journal,
            is_short: Cell::new(false),
            has_begun: Cell::new(false),
        }
    }

    /// Looks at the journal, unless it was short of room before, and says it once where it is.
    pub fn look(&self) {
        if self.is_short.get() {
            return;
        }
        let Ok(about) = fs::metadata(self.rt, self.journal) else {
            return;
        };
        if about.len() >= SHORT {
            self.is_short.set(true);
            let _ = say_short(self.rt, self.journal);
        }
    }

    /// Whether the journal was short of room at the last look.
    pub fn is_short(&self) -> bool {
        self.is_short.get()
    }

    /// Keeps that the server answers from now on what was not answered before.
    pub fn begin(&self) {
        self.has_begun.set(true);
    }

    /// Whether the server answers what was not answered before.
    pub fn has_begun(&self) -> bool {
        self.has_begun.get()
    }
}

/// Says that a journal is short of room.
fn say_short<R: Eprint>(rt: &R, journal: &str) -> io::Result<()> {
    eprintln!(rt;
        "dispatcher: {journal} is 80 % full: plans wait, so that messages have room. Go on in a new store with `dispatch-tools carry`"
    )
}
