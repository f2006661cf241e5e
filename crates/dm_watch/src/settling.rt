//! A round that is settled: its items come into the journal, and are then shown.
ghost use Rattle.std.specs.Prelude.{◌≡◌, ◌≤◌, ℕ, List, All, length, map, IfOk, IfErr};
ghost use Rattle.dm_cert.specs.Answers.{Setting};
ghost use Rattle.dm_cert.specs.RunTexts.{IsSpelledItem};
ghost use Rattle.dm_outside.specs.Printing.{Prints};
ghost use Rattle.dm_tail.specs.Sources.{source_in};
ghost use Rattle.dm_tape.specs.Rounds.{part_text, round_text};
ghost use Rattle.dm_book.specs.Books.{Book};
ghost use Rattle.dm_watch.specs.Settled.{AreAllShown, new_items, log_parts, shown_parts};
ghost use Rattle.dm_watch.specs.Inside.Settling.{MaySettle, Settles};
ghost use Rattle.dm_watch.specs.Inside.Showing.{ShowsOne, ShowsAll};
ghost use Rattle.dm_watch.specs.Inside.Causes.{IsStopOfFeed, IsStopOfFeeds, HasCauseInStore, HasCauseToSettle};

use crate::stops::{RoundStop, stop_of};
use dm_items::{Gathered, items_text};
use dm_outside::{Failed, Page, Sink, WriteFault};
use dm_store::{Journal, Store};
use dm_tail::{Growing, Watched};
use dm_tape::put_part;
use std::alloc::{AllocError, Global};

/// Syncs a feed, which has this number, where items were answered of it that were not yet shown.
fn sync_one<T: Growing + Drop>(
    mut watched: Watched<T>,
    number: usize,
) -> Result<Watched<T>, RoundStop>
    ensures same { IfOk result (λ now. log_parts T.given now ≡ log_parts T.given watched) }
    ensures source { IfOk result (λ now. T.source now.tail.feed ≡ T.source watched.tail.feed) }
    ensures cause { IfErr result (IsStopOfFeed T.faults watched number) }
{
    if !watched.has_new() {
        return Ok(watched);
    }
    match watched.tail.feed.sync() {
        Ok(()) => Ok(watched),
        Err(Failed) => Err(RoundStop::Unsynced(number)),
    }
}

/// Syncs the feeds that items were answered of which were not yet shown.
pub(crate) fn sync_feeds<T: Growing + Drop>(
    alloc: Global,
    feeds: Vec<Watched<T>>,
) -> Result<Vec<Watched<T>>, RoundStop>
    ensures same { IfOk result (λ now. map (log_parts T.given) now.items ≡ map (log_parts T.given) feeds.items) }
    ensures sources { IfOk result (λ now. map (source_in T.source) now.items ≡ map (source_in T.source) feeds.items) }
    ensures cause { IfErr result (IsStopOfFeeds T.faults feeds.items) }
{
    let Ok(mut synced) = Vec::with_capacity(alloc, feeds.len()) else {
        return Err(RoundStop::OutOfMemory);
    };
    for watched in feeds {
        let number = synced.len() + 1;
        let watched = match sync_one(watched, number) {
            Ok(watched) => watched,
            Err(stop) => return Err(stop),
        };
        let Ok(()) = synced.push(watched) else {
            return Err(RoundStop::OutOfMemory);
        };
    }
    Ok(synced)
}

/// Prints what a feed, which has this number, was answered that was not yet shown.
fn put_new<K: Sink, T: Growing + Drop>(
    sink: &mut K,
    page: &mut Page,
    number: usize,
    watched: &Watched<T>,
) -> Result<(), WriteFault>
    requires some { watched.now.shown ≤ length watched.now.log.items }
    requires spelled { All IsSpelledItem watched.now.log.items }
    ensures { Prints K.taken K.faults sink.old sink.new page.old page.new result (part_text number (new_items watched.now)) }
{
    put_part(sink, page, number, &watched.log[watched.shown..])
}

/// The text of the round of the items that were not yet shown.
pub(crate) fn text_of_round<T: Growing + Drop>(
    alloc: Global,
    feeds: &[Watched<T>],
) -> Result<Vec<u8>, AllocError>
    requires some { All (λ w. w.shown ≤ length w.log.items) feeds.now }
    requires spelled { All (λ w. All IsSpelledItem w.log.items) feeds.now }
    ensures { IfOk result (λ text. text.items ≡ round_text (map new_items feeds.now)) }
{
    let mut sink = Gathered::new(alloc);
    let mut page = Page::new();
    for (place, watched) in feeds.iter().enumerate() {
        let Ok(()) = put_new(&mut sink, &mut page, place + 1, watched) else {
            return Err(AllocError);
        };
    }
    let Ok(()) = page.finish(&mut sink) else {
        return Err(AllocError);
    };
    Ok(sink.into_bytes())
}

/// Appends the items of a feed that were not yet shown to the reply file of this place.
fn show_one<S: Store, T: Growing + Drop>(
    alloc: Global,
    store: &mut S,
    place: usize,
    mut watched: Watched<T>,
) -> Result<Watched<T>, RoundStop>
    requires some { watched.shown ≤ length watched.log.items }
    requires spelled { All IsSpelledItem watched.log.items }
    ensures shows { ShowsOne S.Store watched place store.old store.new result }
    ensures told { S.tells store.old → S.tells store.new }
    ensures cause { HasCauseInStore (S.faults store.old) (S.faults store.new) result }
    ensures parts { IfOk result (λ now. log_parts T.given now ≡ shown_parts T.given watched) }
    ensures source { IfOk result (λ now. T.source now.tail.feed ≡ T.source watched.tail.feed) }
{
    let Ok(text) = items_text(alloc, &watched.log[watched.shown..]) else {
        return Err(RoundStop::OutOfMemory);
    };
    match store.show(place, &text) {
        Ok(()) => {
            watched.shown = watched.log.len();
            Ok(watched)
        }
        Err(error) => Err(stop_of(error)),
    }
}

/// Appends all items that were not yet shown to the reply files.
fn show_feeds<S: Store, T: Growing + Drop>(
    alloc: Global,
    store: &mut S,
    feeds: Vec<Watched<T>>,
) -> Result<Vec<Watched<T>>, RoundStop>
    requires some { All (λ w. w.shown ≤ length w.log.items) feeds.items }
    requires spelled { All (λ w. All IsSpelledItem w.log.items) feeds.items }
    ensures shows { ShowsAll S.Store feeds.items store.old store.new result }
    ensures told { S.tells store.old → S.tells store.new }
    ensures cause { HasCauseInStore (S.faults store.old) (S.faults store.new) result }
    ensures parts { IfOk result (λ now. AreAllShown T.given feeds.items now.items) }
    ensures sources { IfOk result (λ now. map (source_in T.source) now.items ≡ map (source_in T.source) feeds.items) }
{
    let Ok(mut shown) = Vec::with_capacity(alloc, feeds.len()) else {
        return Err(RoundStop::OutOfMemory);
    };
    for watched in feeds {
        let place = shown.len();
        let watched = match show_one(alloc, store, place, watched) {
            Ok(watched) => watched,
            Err(stop) => return Err(stop),
        };
        let Ok(()) = shown.push(watched) else {
            return Err(RoundStop::OutOfMemory);
        };
    }
    Ok(shown)
}

/// Commits the items of the feeds that were not yet shown as one round, and then shows them.
pub(crate) fn settle<S: Store, T: Growing + Drop>(
    alloc: Global,
    journal: &mut Journal<S>,
    feeds: Vec<Watched<T>>,
) -> Result<Vec<Watched<T>>, RoundStop>
    requires some { All (λ w. w.shown ≤ length w.log.items) feeds.items }
    requires spelled { All (λ w. All IsSpelledItem w.log.items) feeds.items }
    ensures settles { (s : Setting) (contents : List (List ℕ)) (before after : Book)
        → MaySettle S.Store s contents before after feeds.items journal.old
        → Settles S.Store s contents before after feeds.items journal.old journal.new result }
    ensures told { S.tells journal.old.store → S.tells journal.new.store }
    ensures cause { HasCauseToSettle (S.faults journal.old.store) (S.faults journal.new.store) journal.old.end feeds.items result }
    ensures parts { IfOk result (λ now. AreAllShown T.given feeds.items now.items) }
    ensures sources { IfOk result (λ now. map (source_in T.source) now.items ≡ map (source_in T.source) feeds.items) }
{
    let Ok(content) = text_of_round(alloc, &feeds) else {
        return Err(RoundStop::OutOfMemory);
    };
    match journal.commit(alloc, &content) {
        Ok(()) => show_feeds(alloc, &mut journal.store, feeds),
        Err(error) => Err(stop_of(error)),
    }
}
