//! A server, from its words to its end.
ghost use Rattle.std.specs.Prelude.{◌≡◌, ◌≤◌, ◌<◌, List, Option, Ok, All, length, map, vec_len, IfOk};
ghost use Rattle.dm_base.specs.declared.limits.TheConstants.{BOARDS};
ghost use Rattle.dm_rows.specs.Active.{HasNoCycle};
ghost use Rattle.dm_rows.specs.Rows.{IsSized};
ghost use Rattle.dm_desk.specs.Planning.{FindsFor};
ghost use Rattle.dm_desk.specs.Searching.{MaySearch, Searches};
ghost use Rattle.dm_cert.specs.RunTexts.{IsSpelledLog};
ghost use Rattle.dm_input.specs.Stops.{IsKept};
ghost use Rattle.dm_words.specs.ServerAsked.{server_of};
ghost use Rattle.dm_book.specs.Books.{IsTrueBook};
ghost use Rattle.dm_table_desk.specs.Tables.{setting_of};
ghost use Rattle.dm_tail.specs.Sources.{source_in};
ghost use Rattle.dm_watch.specs.Rounds.{IsWatching, book_in, desk_in};
ghost use Rattle.dm_watch.specs.Settled.{IsShown};
ghost use Rattle.dm_catch_up.specs.Catching.{IsFresh};
ghost use Rattle.dm_restore.specs.Start.{book_back};
ghost use Rattle.dm_serve.specs.Lives.{AreFeedsOf, KeepsBooks, LivesSafely, NothingIsRead, source_of};
ghost use Rattle.dm_store_text.specs.Asked.{IsAsked, IsWithin, setting_for};
ghost use Rattle.dm_serve.specs.Ends.{Ends, IsDue, IsDueOver};
ghost use Rattle.dm_serve.specs.Inside.Opening.{asked_in, opened};
ghost use Rattle.dm_serve.specs.Inside.Stages.{HasGoneSince, IsReadBack};

use crate::boards::{BoardList, Shown};
use crate::ending::{DayEnd, end_at_feeds, end_day, end_round, end_start, end_unopened, no_day};
use crate::going::go_round;
use crate::opening::watched_of;
use crate::pace::Pace;
use crate::starting::{catch_up_all, read_back, take_up};
use dm_desk::{PlanRequest, Search};
use dm_display::Display;
use dm_input::{Opened, read_opening};
use dm_network::Network;
use dm_outside::{Board, Shelf, Sink};
use dm_parts::AnyPlan;
use dm_restore::{Head, Restored};
use dm_rows::{Rows, Snapshot};
use dm_store::{Journal, Store};
use dm_store_text::{Status, end_files};
use dm_tail::{Growing, PIECE, Watched};
use dm_watch::Watch;
use dm_words::ServeWords;
use std::alloc::{AllocError, Global};
use std::sync::Wait;

/// What a server may use: what may wait, memory, and what searches for plans.
#[derive(Drop)]
pub struct ServerMeans<'r, 's, R, F> {
    pub rt: &'r R,
    pub alloc: Global,
    pub search: &'s F,
}

/// What a server is to do: the words that ask for it, and their feeds, each if it could be opened.
#[derive(Drop)]
pub struct Server<'a, T: Drop> {
    pub words: ServeWords<'a>,
    pub feeds: Vec<Option<T>>,
}

/// Reads the files of a server, takes up what its store holds, and answers its feeds as they grow until it is told to end. Then it
/// prints the text of the run. The journal is one of which nothing was read.
pub fn serve_day<
    R: Wait,
    F: Fn(&PlanRequest<'_>) -> Result<AnyPlan, AllocError>,
    H: Shelf,
    T: Growing + Drop,
    S: Store,
    W: Pace,
    K: Sink,
>(
    means: &ServerMeans<'_, '_, R, F>,
    server: Server<'_, T>,
    shelf: &mut H,
    journal: &mut Journal<S>,
    boards: &mut Vec<Box<dyn Board>>,
    pace: &mut W,
    out: &mut K,
) -> DayEnd<T>
    requires searches { Searches (F.pre means.now.search.now) (F.post means.now.search.now) }
    requires asked { IsAsked (server_of server.words) }
    requires as_many { length server.feeds.items ≡ length (server_of server.words).run.feeds }
    requires unread { NothingIsRead T.given server.feeds.items }
    requires few_boards { vec_len boards.old ≤ BOARDS }

    // What is written has its cause, by the status. At Ok it is the text of a true run, which goes on from what the store held, and each
    // log answers a front of its feed.
    ensures ends { Ends K.taken K.faults S.Store T.faults (IsDue S.Store T.given T.faults
        (⟦<BoardList as Shown>⟧.up boards.old boards.new) (H.files shelf.old) (H.is_sound shelf.old)
        (server_of server.entry.words) server.entry.feeds.items result.tails.items journal.old journal.new)
        out.old out.new journal.old journal.new result.status }

    // It ends so only where it was told to.
    ensures told { result.status ≡ Status.Ok → W.told pace.new }
    ensures words_are_good { result.status ≡ Status.Usage → ⊥ }

    // A crash at any moment leaves a true book between the one that was found and one last book, and whatever was shown is a front of
    // its logs. Each log of the last book answers a front of its own feed.
    ensures any_moment { LivesSafely S.Store (H.files shelf.old)
        (server_of server.entry.words) (map (source_of T.source) server.entry.feeds.items) journal.old journal.new }

    // The feeds come back as they were given, in their order, or not at all.
    ensures same_feeds { AreFeedsOf T.source (map (source_of T.source) server.entry.feeds.items) result.tails.items }

    // Whatever the status, the shelf tells what it told, and no count of faults has fallen.
    ensures shelf_kept { IsKept H.files H.is_sound shelf.old shelf.new }
    ensures later { K.faults out.old ≤ K.faults out.new }
    ensures store_later { S.faults journal.old.store ≤ S.faults journal.new.store }
    ensures boards_kept { map place boards.new.items ≡ map place boards.old.items }
{
    serve_files(means, server, shelf, journal, boards, pace, out)
}

/// Reads the files of a server, and serves over the network and the start rows that they make.
fn serve_files<
    R: Wait,
    F: Fn(&PlanRequest<'_>) -> Result<AnyPlan, AllocError>,
    H: Shelf,
    T: Growing + Drop,
    S: Store,
    W: Pace,
    K: Sink,
>(
    means: &ServerMeans<'_, '_, R, F>,
    server: Server<'_, T>,
    shelf: &mut H,
    journal: &mut Journal<S>,
    boards: &mut Vec<Box<dyn Board>>,
    pace: &mut W,
    out: &mut K,
) -> DayEnd<T>
    requires searches { Searches (F.pre means.now.search.now) (F.post means.now.search.now) }
    requires within { IsWithin (server_of server.words) }
    requires as_many { length server.feeds.items ≡ length (server_of server.words).run.feeds }
    requires unread { NothingIsRead T.given server.feeds.items }
    requires few_boards { vec_len boards.old ≤ BOARDS }
    ensures ends { Ends K.taken K.faults S.Store T.faults (IsDue S.Store T.given T.faults
        (⟦<BoardList as Shown>⟧.up boards.old boards.new) (H.files shelf.old) (H.is_sound shelf.old)
        (server_of server.entry.words) server.entry.feeds.items result.tails.items journal.old journal.new)
        out.old out.new journal.old journal.new result.status }
    ensures safely { LivesSafely S.Store (H.files shelf.old)
        (server_of server.entry.words) (map (source_of T.source) server.entry.feeds.items) journal.old journal.new }
    ensures same_feeds { AreFeedsOf T.source (map (source_of T.source) server.entry.feeds.items) result.tails.items }
    ensures told { result.status ≡ Status.Ok → W.told pace.new }
    ensures kept { IsKept H.files H.is_sound shelf.old shelf.new }
    ensures later { K.faults out.old ≤ K.faults out.new }
    ensures store_later { S.faults journal.old.store ≤ S.faults journal.new.store }
    ensures stays { map place boards.new.items ≡ map place boards.old.items }
{
    let Server { words, feeds } = server;
    let opened = match read_opening(means.alloc, shelf, &words.run.files) {
        Ok(opened) => opened,
        Err(stop) => return no_day(means.alloc, end_files(&words.run.files, &stop, out)),
    };
    let Opened { net, rows } = opened;
    net.reveal();
    let serving = Serving {
        means,
        words: &words,
        net: &net,
    };
    serve_over(&serving, rows, feeds, journal, boards, pace, out)
}

/// A server whose files are read: what it may use, the words that ask for it, and its network.
#[derive(Drop)]
struct Serving<'s, 'r, 'f, 'w, R, F> {
    means: &'s ServerMeans<'r, 'f, R, F>,
    words: &'s ServeWords<'w>,
    net: &'s Network,
}

/// Serves over a network and start rows.
fn serve_over<
    R: Wait,
    F: Fn(&PlanRequest<'_>) -> Result<AnyPlan, AllocError>,
    T: Growing + Drop,
    S: Store,
    W: Pace,
    K: Sink,
>(
    serving: &Serving<'_, '_, '_, '_, R, F>,
    rows: Rows,
    feeds: Vec<Option<T>>,
    journal: &mut Journal<S>,
    boards: &mut Vec<Box<dyn Board>>,
    pace: &mut W,
    out: &mut K,
) -> DayEnd<T>
    requires searches { Searches (F.pre serving.now.means.now.search.now) (F.post serving.now.means.now.search.now) }
    requires sized { IsSized serving.now.net.now rows }
    requires no_cycle { HasNoCycle serving.now.net.now rows }
    requires within { IsWithin (asked_in serving.now) }
    requires as_many { length feeds.items ≡ length (asked_in serving.now).run.feeds }
    requires unread { NothingIsRead T.given feeds.items }
    requires few_boards { vec_len boards.old ≤ BOARDS }
    ensures ends { Ends K.taken K.faults S.Store T.faults (λ status text. IsDueOver S.Store T.given T.faults
        (⟦<BoardList as Shown>⟧.up boards.old boards.new) (asked_in serving.now).run.feeds (asked_in serving.now).store feeds.items
        result.tails.items journal.old journal.new status
        (setting_for (asked_in serving.now) (record { net = serving.now.net.now; rows = rows })) text)
        out.old out.new journal.old journal.new result.status }
    ensures keeps { KeepsBooks S.Store
        (setting_for (asked_in serving.now) (record { net = serving.now.net.now; rows = rows })) (length (asked_in serving.now).run.feeds)
        (map (source_of T.source) feeds.items) journal.old.store journal.new.store }
    ensures same_feeds { AreFeedsOf T.source (map (source_of T.source) feeds.items) result.tails.items }
    ensures told { result.status ≡ Status.Ok → W.told pace.new }
    ensures later { K.faults out.old ≤ K.faults out.new }
    ensures store_later { S.faults journal.old.store ≤ S.faults journal.new.store }
    ensures stays { map place boards.new.items ≡ map place boards.old.items }
{
    let watched = match watched_of(serving.means.alloc, feeds) {
        Ok(watched) => watched,
        Err(stop) => return no_day(
            serving.means.alloc,
            end_unopened(stop, serving.words.run.feeds, out),
        ),
    };
    let head = Head {
        penalty: serving.words.run.files.penalty,
        plans: serving.words.run.files.plans,
        feeds: watched.len() as u32,
    };
    match read_back(
        serving.means.alloc,
        serving.net,
        rows,
        head,
        &mut journal.store,
    ) {
        Ok(restored) => serve_feeds(serving, restored, watched, journal, boards, pace, out),
        Err(stop) => no_day(
            serving.means.alloc,
            end_start(stop, serving.words.store, serving.words.run.feeds, out),
        ),
    }
}

/// Serves feeds that go on with what was read back.
fn serve_feeds<
    R: Wait,
    F: Fn(&PlanRequest<'_>) -> Result<AnyPlan, AllocError>,
    T: Growing + Drop,
    S: Store,
    W: Pace,
    K: Sink,
>(
    serving: &Serving<'_, '_, '_, '_, R, F>,
    restored: Restored<'_>,
    feeds: Vec<Watched<T>>,
    journal: &mut Journal<S>,
    boards: &mut Vec<Box<dyn Board>>,
    pace: &mut W,
    out: &mut K,
) -> DayEnd<T>
    requires searches { Searches (F.pre serving.now.means.now.search.now) (F.post serving.now.means.now.search.now) }
    requires network { restored.desk.table.network ≡ serving.now.net.now }
    requires within { IsWithin (asked_in serving.now) }
    requires penalty { restored.desk.table.penalty ≡ (asked_in serving.now).run.files.penalty }
    requires plans { restored.desk.plans ≡ (asked_in serving.now).run.files.plans }
    requires as_many { length feeds.items ≡ length (asked_in serving.now).run.feeds }
    requires logs { length restored.logs.items ≡ length (asked_in serving.now).run.feeds }
    requires fresh { All (IsFresh T.given) feeds.items }
    requires is_true { IsTrueBook (setting_of restored.desk.plans restored.desk.table) (book_back restored) }
    requires spelled { All IsSpelledLog restored.logs.items }
    requires few_boards { vec_len boards.old ≤ BOARDS }
    ensures ends { (start : Journal S) → S.faults start.store ≤ S.faults journal.old.store
        → IsReadBack S.Store
        (setting_of restored.entry.desk.plans restored.entry.desk.table) (length (asked_in serving.now).run.feeds)
        (book_back restored.entry) restored.entry.is_new start.store journal.old.store
        → Ends K.taken K.faults S.Store T.faults (λ status text. IsDueOver S.Store T.given T.faults
        (⟦<BoardList as Shown>⟧.up boards.old boards.new) (asked_in serving.now).run.feeds (asked_in serving.now).store
        (map opened feeds.items) result.tails.items start journal.new status
        (setting_of restored.entry.desk.plans restored.entry.desk.table) text) out.old out.new start journal.new result.status }
    ensures keeps { (start : S) → IsReadBack S.Store
        (setting_of restored.entry.desk.plans restored.entry.desk.table) (length (asked_in serving.now).run.feeds)
        (book_back restored.entry) restored.entry.is_new start journal.old.store
        → KeepsBooks S.Store
        (setting_of restored.entry.desk.plans restored.entry.desk.table) (length (asked_in serving.now).run.feeds)
        (map (source_in T.source) feeds.items) start journal.new.store }
    ensures same_feeds { AreFeedsOf T.source (map (source_in T.source) feeds.items) result.tails.items }
    ensures told { result.status ≡ Status.Ok → W.told pace.new }
    ensures later { K.faults out.old ≤ K.faults out.new }
    ensures store_later { S.faults journal.old.store ≤ S.faults journal.new.store }
    ensures stays { map place boards.new.items ≡ map place boards.old.items }
{
    let Restored { desk, logs, is_new } = restored;
    let mut feeds = feeds;
    let Ok(mut buffer) = zeros(serving.means.alloc, PIECE) else {
        return no_day(serving.means.alloc, Status::NoMemory);
    };
    match catch_up_all(&mut feeds, logs, &mut buffer) {
        Ok(()) => {}
        Err(stop) => return end_at_feeds(serving.means.alloc, stop, serving.words, feeds, out),
    }
    let watch = Watch {
        alloc: serving.means.alloc,
        desk,
        feeds,
        batch: serving.words.run.batch as u32,
        buffer,
    };
    serve_found(serving, is_new, watch, journal, boards, pace, out)
}

/// Takes up what was found in the store, and serves feeds that go on with that.
fn serve_found<
    R: Wait,
    F: Fn(&PlanRequest<'_>) -> Result<AnyPlan, AllocError>,
    T: Growing + Drop,
    S: Store,
    W: Pace,
    K: Sink,
>(
    serving: &Serving<'_, '_, '_, '_, R, F>,
    is_new: bool,
    watch: Watch<'_, T>,
    journal: &mut Journal<S>,
    boards: &mut Vec<Box<dyn Board>>,
    pace: &mut W,
    out: &mut K,
) -> DayEnd<T>
    requires searches { Searches (F.pre serving.now.means.now.search.now) (F.post serving.now.means.now.search.now) }
    requires network { watch.desk.table.network ≡ serving.now.net.now }
    requires within { IsWithin (asked_in serving.now) }
    requires penalty { watch.desk.table.penalty ≡ (asked_in serving.now).run.files.penalty }
    requires plans { watch.desk.plans ≡ (asked_in serving.now).run.files.plans }
    requires as_many { length watch.feeds.items ≡ length (asked_in serving.now).run.feeds }
    requires watching { IsWatching T.given (desk_in watch) watch.feeds.items }
    requires shown { All IsShown watch.feeds.items }
    requires some { 0 < watch.batch }
    requires few_boards { vec_len boards.old ≤ BOARDS }
    ensures ends { (start : Journal S) (feeds : List (Option T)) → S.faults start.store ≤ S.faults journal.old.store
        → IsReadBack S.Store (setting_of watch.entry.desk.plans watch.entry.desk.table) (length (asked_in serving.now).run.feeds)
        (book_in watch.entry) is_new start.store journal.old.store
        → Ends K.taken K.faults S.Store T.faults (λ status text. IsDueOver S.Store T.given T.faults
        (⟦<BoardList as Shown>⟧.up boards.old boards.new) (asked_in serving.now).run.feeds (asked_in serving.now).store
        feeds result.tails.items start journal.new status
        (setting_of watch.entry.desk.plans watch.entry.desk.table) text) out.old out.new start journal.new result.status }
    ensures keeps { (start : S) → IsReadBack S.Store
        (setting_of watch.entry.desk.plans watch.entry.desk.table) (length (asked_in serving.now).run.feeds)
        (book_in watch.entry) is_new start journal.old.store
        → KeepsBooks S.Store (setting_of watch.entry.desk.plans watch.entry.desk.table) (length (asked_in serving.now).run.feeds)
        (map (source_in T.source) watch.entry.feeds.items) start journal.new.store }
    ensures same_feeds { AreFeedsOf T.source (map (source_in T.source) watch.entry.feeds.items) result.tails.items }
    ensures told { result.status ≡ Status.Ok → W.told pace.new }
    ensures later { K.faults out.old ≤ K.faults out.new }
    ensures store_later { S.faults journal.old.store ≤ S.faults journal.new.store }
    ensures stays { map place boards.new.items ≡ map place boards.old.items }
{
    let head = Head {
        penalty: serving.words.run.files.penalty,
        plans: serving.words.run.files.plans,
        feeds: watch.feeds.len() as u32,
    };
    match take_up(serving.means.alloc, head, is_new, journal, &watch.feeds) {
        Ok(()) => serve_watch(serving, watch, journal, boards, pace, out),
        Err(stop) => no_day(
            serving.means.alloc,
            end_start(stop, serving.words.store, serving.words.run.feeds, out),
        ),
    }
}

fn zeros(alloc: Global, len: usize) -> Result<Vec<u8>, AllocError> {
    vec![in alloc; 0u8; len]
}

/// Goes round until the server is told to end, and prints the run then.
fn serve_watch<
    R: Wait,
    F: Fn(&PlanRequest<'_>) -> Result<AnyPlan, AllocError>,
    T: Growing + Drop,
    S: Store,
    W: Pace,
    K: Sink,
>(
    serving: &Serving<'_, '_, '_, '_, R, F>,
    watch: Watch<'_, T>,
    journal: &mut Journal<S>,
    boards: &mut Vec<Box<dyn Board>>,
    pace: &mut W,
    out: &mut K,
) -> DayEnd<T>
    requires searches { Searches (F.pre serving.now.means.now.search.now) (F.post serving.now.means.now.search.now) }
    requires network { watch.desk.table.network ≡ serving.now.net.now }
    requires within { IsWithin (asked_in serving.now) }
    requires penalty { watch.desk.table.penalty ≡ (asked_in serving.now).run.files.penalty }
    requires as_many { length watch.feeds.items ≡ length (asked_in serving.now).run.feeds }
    requires watching { IsWatching T.given (desk_in watch) watch.feeds.items }
    requires shown { All IsShown watch.feeds.items }
    requires some { 0 < watch.batch }
    requires few_boards { vec_len boards.old ≤ BOARDS }
    ensures ends { (start : Journal S) (feeds : List (Option T)) → S.faults start.store ≤ S.faults journal.old.store
        → HasGoneSince S.Store (setting_of watch.entry.desk.plans watch.entry.desk.table)
        (length (asked_in serving.now).run.feeds) watch.entry start.store journal.old
        → Ends K.taken K.faults S.Store T.faults (λ status text. IsDueOver S.Store T.given T.faults
        (⟦<BoardList as Shown>⟧.up boards.old boards.new) (asked_in serving.now).run.feeds (asked_in serving.now).store
        feeds result.tails.items start journal.new status
        (setting_of watch.entry.desk.plans watch.entry.desk.table) text) out.old out.new start journal.new result.status }
    ensures keeps { (start : S)
        → HasGoneSince S.Store (setting_of watch.entry.desk.plans watch.entry.desk.table)
        (length (asked_in serving.now).run.feeds) watch.entry start journal.old
        → KeepsBooks S.Store (setting_of watch.entry.desk.plans watch.entry.desk.table)
        (length (asked_in serving.now).run.feeds) (map (source_in T.source) watch.entry.feeds.items) start journal.new.store }
    ensures same_feeds { AreFeedsOf T.source (map (source_in T.source) watch.entry.feeds.items) result.tails.items }
    ensures told { result.status ≡ Status.Ok → W.told pace.new }
    ensures later { K.faults out.old ≤ K.faults out.new }
    ensures store_later { S.faults journal.old.store ≤ S.faults journal.new.store }
    ensures stays { map place boards.new.items ≡ map place boards.old.items }
{
    let means = serving.means;
    let net = serving.net;
    net.reveal();
    let Ok(mut display) = Display::new(means.alloc, net, boards.len()) else {
        return no_day(means.alloc, Status::NoMemory);
    };
    let penalty = serving.words.run.files.penalty;
    let workers = serving.words.run.workers;
    let planner = |snapshot: &Snapshot, asked: Search| -> Result<AnyPlan, AllocError>
        requires { Searches (F.pre means.now.search.now) (F.post means.now.search.now)
            × MaySearch (record { net = net; penalty = penalty; snapshot = snapshot; asked = asked; workers = workers }) }
        ensures { IfOk result (FindsFor net.entry.now penalty snapshot.now asked) }
    {
        let request = PlanRequest {
            net,
            penalty,
            snapshot,
            asked,
            workers,
        };
        (means.search)(&request)
    };
    match go_round(
        means.rt,
        watch,
        journal,
        &planner,
        &mut display,
        boards,
        pace,
    ) {
        Ok(watch) => end_day(watch, display.publisher.notes(), out),
        Err(stop) => no_day(means.alloc, end_round(stop, out)),
    }
}
