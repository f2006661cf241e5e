//! The ends of a server.
ghost use Rattle.std.specs.Prelude.{◌≡◌, ◌⊎◌, ◌≤◌, All, [], map, IfOk};
ghost use Rattle.dm_cert.specs.RunTexts.{IsSpelledLog};
ghost use Rattle.dm_feed.specs.Lines.{HasSortedChoice};
ghost use Rattle.dm_words.specs.Asked.{names_in};
ghost use Rattle.dm_words.specs.ServerAsked.{server_of};
ghost use Rattle.dm_table.specs.Value.{IsTable};
ghost use Rattle.dm_serve.specs.Inside.Stages.{EndsAtFeeds, EndsDay, EndsRound, EndsStart, EndsUnopened, HasReason, log_in, tail_in};

use crate::opening::{Unopened, name_at};
use crate::starting::StartStop;
use dm_base::Items;
use dm_cert::{FeedLog, Note};
use dm_feed::FeedStop;
use dm_outside::Sink;
use dm_store_text::{Status, end_feed, end_refused, end_reply, end_run, end_store, end_unread};
use dm_table::Table;
use dm_tail::{Growing, Tail, Watched};
use dm_watch::{RoundStop, Watch};
use dm_words::{Names, ServeWords};
use std::alloc::{AllocError, Global};

/// How a server ended: the status, and its feeds as far as they were read, unless it did not come to them, or the store or a round
/// stopped it.
#[derive(Drop)]
pub struct DayEnd<T: Growing + Drop> {
    pub status: Status,
    pub tails: Vec<Tail<T>>,
}

/// The end of a server whose feeds are no more, or to which it did not come.
pub fn no_day<T: Growing + Drop>(alloc: Global, status: Status) -> DayEnd<T>
    ensures status { result.status ≡ status }
    ensures none { result.tails.items ≡ [] }
{
    DayEnd {
        status,
        tails: Vec::new(alloc),
    }
}

/// The log of each feed, with its stop, or the end where it may go on; and the tails without them.
pub fn apart<T: Growing + Drop>(
    alloc: Global,
    feeds: Vec<Watched<T>>,
) -> Result<(Vec<FeedLog>, Vec<Tail<T>>), AllocError>
    ensures logs { IfOk result (λ p. p.0.items ≡ map log_in feeds.items) }
    ensures tails { IfOk result (λ p. p.1.items ≡ map tail_in feeds.items) }
{
    let mut logs = Vec::with_capacity(alloc, feeds.len())?;
    let mut tails = Vec::with_capacity(alloc, feeds.len())?;
    for watched in feeds {
        let (log, tail) = parts(watched);
        logs.push(log)?;
        tails.push(tail)?;
    }
    Ok((logs, tails))
}

/// The log of a feed, and its tail.
fn parts<T: Growing + Drop>(watched: Watched<T>) -> (FeedLog, Tail<T>)
    ensures log { result.0 ≡ log_in watched }
    ensures tail { result.1 ≡ tail_in watched }
{
    let Watched {
        tail,
        lines: _,
        log,
        shown: _,
    } = watched;
    let stop = match tail.stop {
        Some(stop) => stop,
        None => FeedStop::End,
    };
    let log = FeedLog {
        items: Items::from_vec(log),
        stop,
    };
    (log, tail)
}

/// Prints the run of a watch with these notes.
pub fn end_day<T: Growing + Drop, K: Sink>(
    watch: Watch<'_, T>,
    notes: &[Note],
    out: &mut K,
) -> DayEnd<T>
    requires logs { All IsSpelledLog (map log_in watch.feeds.items) }
    requires sorted { All (λ entry. HasSortedChoice entry.message) watch.desk.table.history }
    ensures ends { EndsDay K.taken K.faults watch.entry.desk.table watch.entry.feeds.items notes.now out.old out.new result }
    ensures feeds { (result.tails.items ≡ []) ⊎ (result.tails.items ≡ map tail_in watch.entry.feeds.items) }
    ensures table { IsTable watch.entry.desk.table }
    ensures later { K.faults out.old ≤ K.faults out.new }
{
    let Watch {
        alloc,
        desk,
        feeds,
        batch: _,
        buffer: _,
    } = watch;
    end_feeds(alloc, &desk.table, feeds, notes, out)
}

/// Prints the run of a table, the logs of feeds and notes.
fn end_feeds<T: Growing + Drop, K: Sink>(
    alloc: Global,
    table: &Table<'_>,
    feeds: Vec<Watched<T>>,
    notes: &[Note],
    out: &mut K,
) -> DayEnd<T>
    requires logs { All IsSpelledLog (map log_in feeds.items) }
    requires sorted { All (λ entry. HasSortedChoice entry.message) table.now.history }
    ensures ends { EndsDay K.taken K.faults table.now feeds.items notes.now out.old out.new result }
    ensures feeds { (result.tails.items ≡ []) ⊎ (result.tails.items ≡ map tail_in feeds.items) }
    ensures table { IsTable table.now }
    ensures later { K.faults out.old ≤ K.faults out.new }
{
    table.reveal();
    let Ok(split) = apart(alloc, feeds) else {
        return no_day(alloc, Status::NoMemory);
    };
    let (logs, tails) = split;
    let status = end_run(table, &logs, notes, out);
    DayEnd { status, tails }
}

/// The end of a server that does not go on with its feeds.
pub fn end_at_feeds<T: Growing + Drop, K: Sink>(
    alloc: Global,
    stop: StartStop,
    words: &ServeWords<'_>,
    feeds: Vec<Watched<T>>,
    out: &mut K,
) -> DayEnd<T>
    requires { HasReason stop }
    ensures ends { EndsAtFeeds K.taken K.faults (server_of words.now) feeds.items stop out.old out.new result }
    ensures feeds { (result.tails.items ≡ []) ⊎ (result.tails.items ≡ map tail_in feeds.items) }
    ensures later { K.faults out.old ≤ K.faults out.new }
{
    let Ok((_, tails)) = apart(alloc, feeds) else {
        return no_day(alloc, Status::NoMemory);
    };
    let status = end_start(stop, words.store, words.run.feeds, out);
    DayEnd { status, tails }
}

/// The end of a server that does not begin. The feeds have these names.
pub fn end_start<K: Sink>(stop: StartStop, store: &str, feeds: Names<'_>, out: &mut K) -> Status
    requires { HasReason stop }
    ensures ends { EndsStart K.taken K.faults store.now (names_in feeds.entry) stop out.old out.new result }
    ensures later { K.faults out.old ≤ K.faults out.new }
{
    match stop {
        StartStop::OutOfMemory => Status::NoMemory,
        StartStop::Unread => end_unread(out, store),
        StartStop::Refused(reason) => end_refused(reason, out),
        StartStop::Reply(place) => end_reply(out, place + 1),
        StartStop::Fault(place) => end_unread(out, name_at(feeds, place)),
        StartStop::Changed(number, line) => end_feed(out, number, line),
        StartStop::Failed => Status::WriteFault,
    }
}

/// The end of a server to which not all feeds were opened. They have these names.
pub fn end_unopened<K: Sink>(stop: Unopened, names: Names<'_>, out: &mut K) -> Status
    ensures ends { EndsUnopened K.taken K.faults (names_in names.entry) stop out.old out.new result }
    ensures later { K.faults out.old ≤ K.faults out.new }
{
    match stop {
        Unopened::OutOfMemory => Status::NoMemory,
        Unopened::Feed(place) => end_unread(out, name_at(names, place)),
    }
}

/// The end where a round stops a server.
pub fn end_round<K: Sink>(stop: RoundStop, out: &mut K) -> Status
    ensures ends { EndsRound K.taken K.faults stop out.old out.new result }
    ensures later { K.faults out.old ≤ K.faults out.new }
{
    match stop {
        RoundStop::OutOfMemory => Status::NoMemory,
        RoundStop::Full => end_store(out, "full"),
        RoundStop::Unsynced(_) | RoundStop::Failed => Status::WriteFault,
    }
}
