//! The start of a server: it takes up what its store holds, and its feeds go on from there.
ghost use Rattle.std.specs.Prelude.{◌-◌, ◌≡◌, ◌≤◌, ◌<◌, ◌^◌, length, map, All, IfOk, IfErr, OnOk};
ghost use Rattle.dm_base.specs.declared.limits.TheConstants.{FEEDS, PENALTY};
ghost use Rattle.dm_cert.specs.declared.limits.TheConstants.{PLANS};
ghost use Rattle.dm_rows.specs.Active.{HasNoCycle};
ghost use Rattle.dm_rows.specs.Rows.{IsSized};
ghost use Rattle.dm_cert.specs.RunTexts.{IsSpelledItem, IsSpelledLog};
ghost use Rattle.dm_book.specs.Books.{IsTrueBook};
ghost use Rattle.dm_table_desk.specs.Tables.{setting_of};
ghost use Rattle.dm_tail.specs.Sources.{source_in};
ghost use Rattle.dm_catch_up.specs.Catching.{IsFresh, RefusesFeed};
ghost use Rattle.dm_restore.specs.Start.{book_back, setting_of_head};
ghost use Rattle.dm_serve.specs.Inside.Replies.{Looks};
ghost use Rattle.dm_serve.specs.Inside.Stages.{AllGoOn, FindsBook, GoesOnWith, IsWholeEnd, PutsRight, StopsCatchingUp, StopsPutting, StopsReadingBack, TakesUp};
ghost use Rattle.dm_serve.specs.Inside.Telling.{stop_of_commit, stop_of_feed, stop_of_read, stop_of_recover, stop_of_restore, stop_of_write};

use crate::replies::{compare_replies, renew_replies};
use dm_catch_up::{CatchUpStop, catch_up};
use dm_cert::FeedLog;
use dm_network::Network;
use dm_restore::{Head, RestoreStop, Restored, head_text, restore};
use dm_rows::Rows;
use dm_store::{Journal, Store, StoreError};
use dm_tail::{Growing, Watched};
use std::alloc::{AllocError, Global};

/// Why a server does not begin.
#[derive(Clone, Copy)]
pub enum StartStop {
    OutOfMemory,

    /// The journal or a reply file could not be read.
    Unread,

    /// What the journal holds is refused, and why.
    Refused(RestoreStop),

    /// The reply file at this place, from 0, holds more than the journal.
    Reply(usize),

    /// The feed of this place, from 0, could not be read.
    Fault(usize),

    /// The feed of this number, from 1, has another line here than was answered.
    Changed(u32, u32),

    /// The journal or a reply file could not be written or synced.
    Failed,
}

/// Reads back what the journal of a store holds, has it judged, and compares the reply files with it. Nothing is changed.
pub fn read_back<'n, S: Store>(
    alloc: Global,
    net: &'n Network,
    start: Rows,
    head: Head,
    store: &mut S,
) -> Result<Restored<'n>, StartStop>
    requires sized { IsSized net.now start }
    requires no_cycle { HasNoCycle net.now start }
    requires penalty { head.penalty ≤ PENALTY }
    requires plans { head.plans ≤ PLANS }
    requires feeds { (1 ≤ head.feeds) × (head.feeds ≤ FEEDS) }
    ensures setting { IfOk result (λ r. setting_of r.desk.plans r.desk.table ≡ setting_of_head net.now start head) }
    ensures is_true { IfOk result (λ r. IsTrueBook (setting_of_head net.now start head) (book_back r)) }
    ensures spelled { IfOk result (λ r. All IsSpelledLog r.logs.items) }
    ensures as_many { IfOk result (λ r. length r.logs.items ≡ head.feeds) }
    ensures looks { Looks S.Store store.old store.new }
    ensures finds { IfOk result (λ r. FindsBook S.Store (setting_of_head net.now start head) head.feeds
        (book_back r) r.is_new store.old) }
    ensures whole { IfOk result (λ _. IsWholeEnd S.Store store.old) }
    ensures stops { IfErr result (StopsReadingBack S.Store (setting_of_head net.now start head) head.feeds store.old store.new) }
    ensures later { S.faults store.old ≤ S.faults store.new }
{
    let bytes = match store.read(alloc) {
        Ok(bytes) => bytes,
        Err(error) => return Err(stop_of_read(error)),
    };
    let restored = match restore(alloc, net, start, head, &bytes) {
        Ok(restored) => restored,
        Err(stop) => return Err(stop_of_restore(stop)),
    };
    match compare_replies(alloc, store, &restored.logs) {
        Ok(()) => Ok(restored),
        Err(stop) => Err(stop),
    }
}

/// Takes up what was read back: repairs the journal's end, begins a new one with its head, and puts the reply files anew.
pub fn take_up<S: Store, T: Growing + Drop>(
    alloc: Global,
    head: Head,
    is_new: bool,
    journal: &mut Journal<S>,
    feeds: &[Watched<T>],
) -> Result<(), StartStop>
    requires spelled { All (λ w. All IsSpelledItem w.log.items) feeds.now }
    ensures takes { TakesUp S.Store head is_new feeds.now journal.old journal.new result }
    ensures stops { IfErr result (StopsPutting S.Store journal.old.store journal.new.store) }
    ensures later { S.faults journal.old.store ≤ S.faults journal.new.store }
{
    match put_right(alloc, head, is_new, journal) {
        Ok(()) => {}
        Err(stop) => return Err(stop),
    }
    renew_replies(alloc, &mut journal.store, feeds)
}

/// Repairs the end of a journal, and begins a new one with its head.
fn put_right<S: Store>(
    alloc: Global,
    head: Head,
    is_new: bool,
    journal: &mut Journal<S>,
) -> Result<(), StartStop>
    ensures right { PutsRight S.Store head is_new journal.old journal.new result }
    ensures told { S.tells journal.old.store → S.tells journal.new.store }
    ensures stops { IfErr result (StopsPutting S.Store journal.old.store journal.new.store) }
    ensures later { S.faults journal.old.store ≤ S.faults journal.new.store }
{
    match journal.recover(alloc) {
        Ok(_) => {}
        Err(error) => return Err(stop_of_recover(error)),
    }
    if !is_new {
        return Ok(());
    }
    let content = match head_text(alloc, head) {
        Ok(content) => content,
        Err(AllocError) => return Err(StartStop::OutOfMemory),
    };
    match journal.commit(alloc, &content) {
        Ok(()) => Ok(()),
        Err(error) => Err(stop_of_commit(error)),
    }
}

/// Lets each feed go on with its log.
pub fn catch_up_all<T: Growing + Drop>(
    feeds: &mut Vec<Watched<T>>,
    logs: Vec<FeedLog>,
    buffer: &mut [u8],
) -> Result<(), StartStop>
    requires fresh { All (IsFresh T.given) feeds.old.items }
    requires as_many { length feeds.old.items ≡ length logs.items }
    requires few { length logs.items < 2 ^ 32 }
    ensures all { OnOk result (AllGoOn T.given (map (λ log. log.items) logs.items) feeds.new.items) }
    ensures stops { IfErr result (StopsCatchingUp T.given T.faults (map (λ log. log.items) logs.items) feeds.old.items feeds.new.items) }
    ensures same { length feeds.new.items ≡ length feeds.old.items }
    ensures sources { map (source_in T.source) feeds.new.items ≡ map (source_in T.source) feeds.old.items }
{
    let mut place = 0;
    for log in logs {
        match go_on_with(&mut feeds[place], log, buffer) {
            Ok(()) => {}
            Err(stop) => return Err(stop_of_feed(place, stop)),
        }
        place += 1;
    }
    Ok(())
}

/// Lets a feed of which nothing was read go on with a log.
fn go_on_with<T: Growing + Drop>(
    watched: &mut Watched<T>,
    log: FeedLog,
    buffer: &mut [u8],
) -> Result<(), CatchUpStop>
    requires { IsFresh T.given watched.old }
    ensures goes_on { OnOk result (GoesOnWith T.given log.items watched.new) }
    ensures refused { IfErr result (RefusesFeed T.given T.faults log.items watched.old watched.new) }
    ensures source { T.source watched.new.tail.feed ≡ T.source watched.old.tail.feed }
{
    let FeedLog { items, stop: _ } = log;
    watched.log = items.into_vec();
    watched.shown = watched.log.len();
    catch_up(watched, buffer)
}

pub fn stop_of_read(error: StoreError) -> StartStop
    ensures { result ≡ stop_of_read error }
{
    match error {
        StoreError::OutOfMemory => StartStop::OutOfMemory,
        _ => StartStop::Unread,
    }
}

/// What a restore has not refused is refused of a journal that tells nothing alone.
fn stop_of_recover(error: StoreError) -> StartStop
    ensures { result ≡ stop_of_recover error }
{
    match error {
        StoreError::OutOfMemory => StartStop::OutOfMemory,
        StoreError::Unread => StartStop::Unread,
        StoreError::Failed => StartStop::Failed,
        _ => StartStop::Refused(RestoreStop::Form(1)),
    }
}

/// A head always has room.
fn stop_of_commit(error: StoreError) -> StartStop
    ensures { result ≡ stop_of_commit error }
{
    match error {
        StoreError::OutOfMemory | StoreError::Full => StartStop::OutOfMemory,
        _ => StartStop::Failed,
    }
}

pub fn stop_of_write(error: StoreError) -> StartStop
    ensures { result ≡ stop_of_write error }
{
    match error {
        StoreError::OutOfMemory => StartStop::OutOfMemory,
        _ => StartStop::Failed,
    }
}

fn stop_of_restore(stop: RestoreStop) -> StartStop
    ensures { result ≡ stop_of_restore stop }
{
    match stop {
        RestoreStop::OutOfMemory => StartStop::OutOfMemory,
        _ => StartStop::Refused(stop),
    }
}

fn stop_of_feed(place: usize, stop: CatchUpStop) -> StartStop
    requires { place < 2 ^ 32 - 1 }
    ensures { result ≡ stop_of_feed place stop }
{
    match stop {
        CatchUpStop::OutOfMemory => StartStop::OutOfMemory,
        CatchUpStop::Fault => StartStop::Fault(place),
        CatchUpStop::Changed(line) => StartStop::Changed(place as u32 + 1, line),
    }
}
