//! The reply files of a server at its start.
ghost use Rattle.std.specs.Prelude.{◌≤◌, All, IfOk, IfErr};
ghost use Rattle.dm_cert.specs.RunTexts.{IsSpelledItem, IsSpelledLog};
ghost use Rattle.dm_serve.specs.Inside.Replies.{ComparesOne, Looks, PutsOne, PutsReplies, StopsComparing, StopsReading, StopsRenewing};

use crate::starting::{StartStop, stop_of_read, stop_of_write};
use dm_cert::FeedLog;
use dm_items::items_text;
use dm_store::Store;
use dm_tail::{Growing, Watched};
use std::alloc::Global;

/// Tells whether each reply file shows a front of its log. No crash leaves one that shows more, so then the journal was changed.
pub fn compare_replies<S: Store>(
    alloc: Global,
    store: &mut S,
    logs: &[FeedLog],
) -> Result<(), StartStop>
    requires { All IsSpelledLog logs.now }
    ensures looks { Looks S.Store store.old store.new }
    ensures stops { IfErr result (StopsComparing S.Store logs.now store.old store.new) }
    ensures later { S.faults store.old ≤ S.faults store.new }
{
    for place in 0..logs.len() {
        match compare_reply(alloc, store, place, &logs[place]) {
            Ok(true) => {}
            Ok(false) => return Err(StartStop::Reply(place)),
            Err(stop) => return Err(stop),
        }
    }
    Ok(())
}

/// Whether the reply file at this place shows a front of the log.
fn compare_reply<S: Store>(
    alloc: Global,
    store: &mut S,
    place: usize,
    log: &FeedLog,
) -> Result<bool, StartStop>
    requires { IsSpelledLog log.now }
    ensures looks { Looks S.Store store.old store.new }
    ensures compares { IfOk result (ComparesOne S.Store store.old log.now.items place) }
    ensures stops { IfErr result (StopsReading S.Store store.old store.new) }
    ensures later { S.faults store.old ≤ S.faults store.new }
{
    let Ok(text) = items_text(alloc, log.items.as_slice()) else {
        return Err(StartStop::OutOfMemory);
    };
    match store.read_shown(alloc, place) {
        Ok(shown) => Ok(text.starts_with(&shown)),
        Err(error) => Err(stop_of_read(error)),
    }
}

/// Puts each reply file anew, with its log.
pub fn renew_replies<S: Store, T: Growing + Drop>(
    alloc: Global,
    store: &mut S,
    feeds: &[Watched<T>],
) -> Result<(), StartStop>
    requires spelled { All (λ w. All IsSpelledItem w.log.items) feeds.now }
    ensures puts { PutsReplies S.Store feeds.now store.old store.new result }
    ensures stops { IfErr result (StopsRenewing S.Store store.old store.new) }
    ensures later { S.faults store.old ≤ S.faults store.new }
{
    for place in 0..feeds.len() {
        match renew_reply(alloc, store, place, &feeds[place]) {
            Ok(()) => {}
            Err(stop) => return Err(stop),
        }
    }
    Ok(())
}

/// Puts the reply file at this place anew, with the feed's log.
fn renew_reply<S: Store, T: Growing + Drop>(
    alloc: Global,
    store: &mut S,
    place: usize,
    watched: &Watched<T>,
) -> Result<(), StartStop>
    requires { All IsSpelledItem watched.now.log.items }
    ensures puts { PutsOne S.Store watched.now place store.old store.new result }
    ensures stops { IfErr result (StopsRenewing S.Store store.old store.new) }
    ensures later { S.faults store.old ≤ S.faults store.new }
{
    let Ok(text) = items_text(alloc, &watched.log) else {
        return Err(StartStop::OutOfMemory);
    };
    match store.renew(place, &text) {
        Ok(()) => Ok(()),
        Err(error) => Err(stop_of_write(error)),
    }
}
