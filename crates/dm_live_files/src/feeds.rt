//! Feeds of a live server that are files.
ghost use Rattle.std.specs.Prelude.{◌≡◌, ◌≤◌, length, IfOk};
ghost use Rattle.dm_outside.specs.Faults.{Counts};
ghost use Rattle.dm_words.specs.Asked.{names_in};

use crate::gauge::Gauge;
use dm_outside::Failed;
use dm_tail::{FeedFault, FileFeed, Growing, NoFeed, PIECE};
use dm_words::Names;
use httpdate::HttpDate;
use memchr::memchr;
use std::alloc::{AllocError, Global};
use std::fs::File;
use std::rt::{Clock, Files};
use std::time::SystemTime;
use std::{fs, io};

/// How many reads lie between two looks at whether the server is to end.
const READS_BETWEEN: u32 = 9;

/// How a line begins that asks for a plan, of one kind or the other.
const PLAN: &[u8] = b"plan";

const SOLVE: &[u8] = b"solve";

/// A feed that says on the standard error why it is read no further. Once the server is told to end, it gives what stood in it at the
/// start and one piece more, if that stands there by then: so the server comes to its end, however quickly others append. Where the
/// journal is short of room, it gives nothing from a line on that asks for a plan.
pub struct LiveFeed<'r, R: Files<File = File>> {
    rt: &'r R,
    alloc: Global,
    feed: FileFeed<'r, R>,
    name: &'r str,
    stop: &'r str,
    gauge: &'r Gauge<'r, R>,
    stood: u64,
    reads: u32,
    last: Option<u64>,

    /// What was read where the journal is short of room, and how much of it was given.
    held: Vec<u8>,
    given: usize,

    /// Whether what was given last ended a line.
    begins_line: bool,

    /// Whether it was said that a plan waits.
    waits: bool,
}

impl<R: Files<File = File>> Drop for LiveFeed<'_, R> {
    fn drop(self) {
        let LiveFeed {
            rt: _,
            alloc: _,
            feed: _,
            name: _,
            stop: _,
            gauge: _,
            stood: _,
            reads: _,
            last: _,
            held: _,
            given: _,
            begins_line: _,
            waits: _,
        } = self;
    }
}

impl<'r, R: Eprint + Files<File = File>> LiveFeed<'r, R> {
    // How many bytes are read still.
    fn room(&mut self) -> usize
        ensures { self.new.feed ≡ self.old.feed }
    {
        if self.last.is_none() && self.reads > 0 {
            self.reads -= 1;
            return usize::MAX;
        }
        self.reads = READS_BETWEEN;
        self.gauge.look();
        if fs::metadata(self.rt, self.stop).is_err() {
            self.last = None;
            return usize::MAX;
        }
        let taken = self.feed.taken();
        let last = match (self.last, self.feed.len()) {
            (Some(last), _) => last,
            (None, Some(len)) => self.stood.max(len.min(taken.saturating_add(PIECE as u64))),
            (None, None) => self.stood,
        };
        self.last = Some(last);
        usize::try_from(last.saturating_sub(taken)).unwrap_or(usize::MAX)
    }
}

impl<R: Clock + Eprint + Files<File = File>> Growing for LiveFeed<'_, R> {
    ghost use Rattle.std.specs.Prelude.{None};

    ghost given = { λ _. None };

    ghost source = { λ _. None };

    ghost from_source = { λ _. tt };

    ghost faults = { λ live. live.feed };

    fn read(&mut self, buf: &mut [u8]) -> Result<usize, Failed> {
        let most = self.room().min(buf.len());
        if self.gauge.is_short() || self.given < self.held.len() {
            return self.read_held(most, buf);
        }
        let answer = self.feed.read(&mut buf[..most]);
        match answer {
            Ok(count) => self.note(&buf[..count]),
            Err(_) => self.say_fault(),
        }
        answer
    }

    fn sync(&mut self) -> Result<(), Failed> {
        let answer = self.feed.sync();
        if answer.is_err() {
            self.say_fault();
        }
        answer
    }
}

impl<'r, R: Clock + Eprint + Files<File = File>> LiveFeed<'r, R> {
    // Gives what may be given where the journal is short of room: a line of those that were answered before, and then what stands
    // before the first line that asks for a plan.
    fn read_held(&mut self, most: usize, buf: &mut [u8]) -> Result<usize, Failed>
        ensures count { IfOk result (λ n. n ≤ length buf.old) }
        ensures cause { Counts self.old.feed self.new.feed result }
    {
        self.fill(most)?;
        let rest = self.held.get(self.given..).unwrap_or_default();
        let end = if self.gauge.has_begun() {
            before_plan(rest, self.begins_line)
        } else {
            first_line(rest)
        };
        let count = end.min(buf.len());
        buf[..count].copy_from_slice(&rest[..count]);
        if count == 0 && asks(rest) {
            self.say_waits();
        }
        self.note(&buf[..count]);
        self.given = self.given.saturating_add(count);
        Ok(count)
    }

    // Reads the next bytes where fewer are held than tell whether a line asks for a plan. For want of memory it reads none.
    fn fill(&mut self, most: usize) -> Result<(), Failed>
        ensures cause { Counts self.old.feed self.new.feed result }
    {
        let rest = self.held.get(self.given..).unwrap_or_default();
        if rest.len() >= SOLVE.len() {
            return Ok(());
        }
        let left = rest.len();
        let Ok(mut held) = Vec::from_slice(self.alloc, rest) else {
            return Ok(());
        };
        let Ok(()) = held.resize(left + most.min(PIECE), 0) else {
            return Ok(());
        };
        let answer = self.feed.read(&mut held[left..]);
        let count = match answer {
            Ok(count) => count,
            Err(failed) => {
                self.say_fault();
                return Err(failed);
            }
        };
        held.truncate(left + count);
        self.held = held;
        self.given = 0;
        Ok(())
    }

    // Keeps whether bytes that are given end a line.
    fn note(&mut self, bytes: &[u8])
        ensures { self.new.feed ≡ self.old.feed }
    {
        if let Some(last) = bytes.last() {
            self.begins_line = *last == b'\n';
        }
    }

    // Says once that a plan waits.
    fn say_waits(&mut self)
        ensures { self.new.feed ≡ self.old.feed }
    {
        if !self.waits {
            self.waits = true;
            let name = self.name;
            let _ = eprintln!(self.rt;
                "dispatcher: feed {name} waits: the journal has no room for the plan that it asks for"
            );
        }
    }

    // Says why the last call failed.
    fn say_fault(&self) {
        let fault = self.feed.fault();
        let _ = say_fault(self.rt, self.name, fault);
    }
}

/// Whether a line that begins so asks for a plan of either kind.
fn asks(line: &[u8]) -> bool {
    line.starts_with(PLAN) || line.starts_with(SOLVE)
}

/// Whether it does, or may do so once more of it stands there.
fn may_ask(line: &[u8]) -> bool {
    asks(line) || PLAN.starts_with(line) || SOLVE.starts_with(line)
}

/// How many bytes stand before the first line that asks for a plan, or may do so once it ends.
fn before_plan(bytes: &[u8], begins_line: bool) -> usize
    ensures { result ≤ length bytes.now }
{
    let mut begins = begins_line;
    for (place, byte) in bytes.iter().enumerate() {
        let rest = &bytes[place..];
        if begins && may_ask(rest) {
            return place;
        }
        begins = *byte == b'\n';
    }
    bytes.len()
}

/// How many bytes the first line has, with its end, or all of them where none ends.
fn first_line(bytes: &[u8]) -> usize
    ensures { result ≤ length bytes.now }
{
    match memchr(b'\n', bytes) {
        Some(place) => place + 1,
        None => bytes.len(),
    }
}

/// Opens the feeds of these names, each if it can be opened. The file `stop` tells the server to end.
pub fn open_feeds<'r, R: Eprint + Files<File = File>>(
    rt: &'r R,
    alloc: Global,
    names: Names<'r>,
    stop: &'r str,
    gauge: &'r Gauge<'r, R>,
) -> Result<Vec<Option<LiveFeed<'r, R>>>, AllocError>
    ensures { IfOk result (λ feeds. length feeds.items ≡ length (names_in names.entry)) }
{
    let mut feeds = Vec::new(alloc);
    let mut rest = names;
    while let Some((name, others)) = rest.split_first() {
        let feed = open_feed(rt, alloc, name, stop, gauge);
        match feeds.push(feed) {
            Ok(()) => {}
            Err(error) => return Err(error.into()),
        }
        rest = others;
    }
    Ok(feeds)
}

/// The feed of this name, if it can be opened. Where it is no file, that is said.
fn open_feed<'r, R: Eprint + Files<File = File>>(
    rt: &'r R,
    alloc: Global,
    name: &'r str,
    stop: &'r str,
    gauge: &'r Gauge<'r, R>,
) -> Option<LiveFeed<'r, R>> {
    match FileFeed::open(rt, name) {
        Ok(feed) => {
            let stood = feed.len().unwrap_or(0);
            Some(LiveFeed {
                rt,
                alloc,
                feed,
                name,
                stop,
                gauge,
                stood,
                reads: 0,
                last: None,
                held: Vec::new(alloc),
                given: 0,
                begins_line: true,
                waits: false,
            })
        }
        Err(NoFeed::NoFile) => {
            let _ = eprintln!(rt;
                "dispatcher: {name} is no file. A feed is a file to which others append"
            );
            None
        }
        Err(NoFeed::Unopened) => None,
    }
}

/// A word for why a feed is read no further, and what it means.
fn words_of(fault: Option<FeedFault>) -> (&'static str, &'static str) {
    match fault {
        Some(FeedFault::Shorter) => ("shorter", "the file was cut below what was read of it"),
        Some(FeedFault::Replaced) => ("replaced", "its name leads to another file, or to none"),
        Some(FeedFault::Unsynced) => ("unsynced", "what was read of it could not be synced"),
        Some(FeedFault::Unread) | None => ("fault", "a read of it failed"),
    }
}

/// Says that a feed is read no further, why, and when that was.
fn say_fault<R: Clock + Eprint>(rt: &R, name: &str, fault: Option<FeedFault>) -> io::Result<()> {
    let (word, why) = words_of(fault);
    match SystemTime::now(rt).map(HttpDate::try_from) {
        Ok(Ok(time)) => eprintln!(rt; "dispatcher: feed {name} {word} at {time}: {why}"),
        _ => eprintln!(rt; "dispatcher: feed {name} {word}: {why}"),
    }
}
