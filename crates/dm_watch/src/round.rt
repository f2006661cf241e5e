//! One round over all feeds.
ghost use Rattle.std.specs.Prelude.{◌≡◌, ◌≢◌, ◌≤◌, ◌<◌, ◌^◌, ◌↔◌, true, false, ℕ, List, All, length, map, vec_len, IsTrue, IfOk, IfErr};
ghost use Rattle.dm_cert.specs.Answers.{Setting};
ghost use Rattle.dm_cert.specs.RunTexts.{IsSpelledItem};
ghost use Rattle.dm_desk.specs.Planning.{PlansUnder};
ghost use Rattle.dm_book.specs.Books.{Book};
ghost use Rattle.dm_tail.specs.Sources.{source_in};
ghost use Rattle.dm_watch.specs.Settled.{AreAllShown};
ghost use Rattle.dm_watch.specs.Stops.{HasCauses};
ghost use Rattle.dm_watch.specs.Inside.Settling.{MaySettle, SettlesSome, HasNew};

use crate::keeping::new_are_held;
use crate::settling::{settle, sync_feeds};
use crate::stops::RoundStop;
use dm_desk::Search;
use dm_parts::AnyPlan;
use dm_rows::Snapshot;
use dm_store::{Journal, Store};
use dm_table_desk::TableDesk;
use dm_tail::{Growing, Watched, answer_feeds};
use std::alloc::{AllocError, Global};

/// A table with feeds that grow.
#[derive(Drop)]
pub struct Watch<'n, T: Growing + Drop> {
    pub alloc: Global,
    pub desk: TableDesk<'n>,
    pub feeds: Vec<Watched<T>>,

    /// How many due lines of each feed are answered in a round at most.
    pub batch: u32,

    /// Room for what is read of a feed at once.
    pub buffer: Vec<u8>,
}

impl<'n, T: Growing + Drop> Watch<'n, T> {
    ghost use Rattle.dm_table_desk.specs.Tables.{setting_of};
    ghost use Rattle.dm_watch.specs.Settled.{IsShown, AreSettled, all_items};
    ghost use Rattle.dm_watch.specs.Rounds.{HasNoneLeft, IsWatching, GoesRound, Rounds, desk_in, book_in};
    ghost use Rattle.dm_watch.specs.Stops.{StopsRound};

    /// Looks at each feed, answers what they have appended, in the order of the feeds, commits the answers as one block of the
    /// journal, and then appends the replies. It answers the watch, and whether there was anything new.
    pub fn round<S: Store, P: Fn(&Snapshot, Search) -> Result<AnyPlan, AllocError>>(
        self,
        journal: &mut Journal<S>,
        planner: &P,
    ) -> Result<(Watch<'n, T>, bool), RoundStop>
        requires plans { PlansUnder (P.pre planner.now) (P.post planner.now) (setting_of self.desk.plans self.desk.table) }
        requires watching { IsWatching T.given (desk_in self) self.feeds.items }
        requires shown { All IsShown self.feeds.items }
        requires few { vec_len self.feeds < 2 ^ 32 }
        ensures watching { IfOk result (λ r. IsWatching T.given (desk_in r.0) r.0.feeds.items) }
        ensures shown { IfOk result (λ r. All IsShown r.0.feeds.items) }
        ensures answers { IfOk result (λ r. GoesRound T.given self.entry r.0) }
        ensures sources { IfOk result (λ r. map (source_in T.source) r.0.feeds.items ≡ map (source_in T.source) self.entry.feeds.items) }

        // Where there was nothing new, nothing was done to the journal, and no line that ends is left.
        ensures idle { IfOk result (λ r. r.1 ≡ false → journal.new ≡ journal.old) }
        ensures none_left { IfOk result (λ r. r.1 ≡ false → 0 < self.entry.batch → All HasNoneLeft r.0.feeds.items) }
        ensures new { IfOk result (λ r. IsTrue r.1 ↔ map all_items self.entry.feeds.items ≢ map all_items r.0.feeds.items) }

        // Each stop has its cause, and the count of the store's faults never falls.
        ensures cause { IfErr result (StopsRound T.given T.faults (S.faults journal.old.store) (S.faults journal.new.store)
            journal.old.end self.entry.batch (desk_in self.entry) self.entry.feeds.items) }
        ensures later { S.faults journal.old.store ≤ S.faults journal.new.store }

        // A crash at any moment leaves a true book between that before the round and that after it, whose logs answer the feeds.
        ensures rounds { (contents : List (List ℕ)) → AreSettled S.Store
            (setting_of self.entry.desk.plans self.entry.desk.table) contents (map all_items self.entry.feeds.items) journal.old
            → Rounds S.Store
            (setting_of self.entry.desk.plans self.entry.desk.table) (map (source_in T.source) self.entry.feeds.items)
            (book_in self.entry) journal.old journal.new result }
        ensures told { S.tells journal.old.store → S.tells journal.new.store }
    {
        let Watch {
            alloc,
            mut desk,
            feeds,
            batch,
            mut buffer,
        } = self;
        let Ok(feeds) = answer_feeds(alloc, &mut desk, planner, feeds, batch, &mut buffer) else {
            return Err(RoundStop::OutOfMemory);
        };
        new_are_held(&feeds);
        let is_new = have_new(&feeds);
        let feeds = match settle_new(alloc, journal, feeds, is_new) {
            Ok(feeds) => feeds,
            Err(stop) => return Err(stop),
        };
        let watch = Watch {
            alloc,
            desk,
            feeds,
            batch,
            buffer,
        };
        Ok((watch, is_new))
    }
}

/// Settles the round where there is anything new.
fn settle_new<S: Store, T: Growing + Drop>(
    alloc: Global,
    journal: &mut Journal<S>,
    feeds: Vec<Watched<T>>,
    is_new: bool,
) -> Result<Vec<Watched<T>>, RoundStop>
    requires some { All (λ w. w.shown ≤ length w.log.items) feeds.items }
    requires spelled { All (λ w. All IsSpelledItem w.log.items) feeds.items }
    requires none { is_new ≡ false → All (λ w. length w.log.items ≤ w.shown) feeds.items }
    ensures settles { (s : Setting) (contents : List (List ℕ)) (before after : Book)
        → MaySettle S.Store s contents before after feeds.items journal.old
        → SettlesSome S.Store s before after journal.old journal.new result }
    ensures told { S.tells journal.old.store → S.tells journal.new.store }
    ensures parts { IfOk result (λ now. AreAllShown T.given feeds.items now.items) }
    ensures sources { IfOk result (λ now. map (source_in T.source) now.items ≡ map (source_in T.source) feeds.items) }
    ensures cause { HasCauses T.faults (S.faults journal.old.store) (S.faults journal.new.store) journal.old.end feeds.items result }
    ensures idle { is_new ≡ false → journal.new ≡ journal.old }
{
    if !is_new {
        return Ok(feeds);
    }
    let synced = match sync_feeds(alloc, feeds) {
        Ok(synced) => synced,
        Err(stop) => return Err(stop),
    };
    settle(alloc, journal, synced)
}

/// Whether some feed has items that were not yet shown.
fn have_new<T: Growing + Drop>(feeds: &[Watched<T>]) -> bool
    ensures none { result ≡ false → All (λ w. length w.log.items ≤ w.shown) feeds.now }
    ensures some { result ≡ true → HasNew feeds.now }
{
    for watched in feeds {
        if watched.has_new() {
            return true;
        }
    }
    false
}
