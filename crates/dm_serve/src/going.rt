//! Rounds of a server, one after another.
ghost use Rattle.std.specs.Prelude.{map, false, ◌≡◌, ◌≤◌, ◌<◌, ◌^◌, ℕ, List, All, length, vec_len, IfOk, IfErr, Result};
ghost use Rattle.dm_cert.specs.Answers.{Setting};
ghost use Rattle.dm_desk.specs.Planning.{PlansUnder};
ghost use Rattle.dm_book.specs.Books.{Book};
ghost use Rattle.dm_display.specs.Displays.{AreUp, HasEarlierTimes, HasShownNothing, IsFor};
ghost use Rattle.dm_table_desk.specs.Tables.{setting_of};
ghost use Rattle.dm_tail.specs.Sources.{source_in};
ghost use Rattle.dm_watch.specs.Rounds.{HasNoneLeft, IsWatching, desk_in};
ghost use Rattle.dm_watch.specs.Settled.{IsShown};
ghost use Rattle.dm_serve.specs.Lives.{LivesOn};
ghost use Rattle.dm_serve.specs.Inside.Stages.{GoesOver, HasGone, IsGoing, StopsGoing};

use crate::pace::Pace;
use dm_desk::Search;
use dm_display::Display;
use dm_outside::Board;
use dm_parts::AnyPlan;
use dm_rows::Snapshot;
use dm_store::{Journal, Store};
use dm_tail::Growing;
use dm_watch::{RoundStop, Watch};
use std::alloc::AllocError;
use std::sync::Wait;

/// Goes round until the server is told to end: it answers the watch then. Boards are shown the times before the first round
/// and after each.
pub fn go_round<
    'n,
    R: Wait,
    T: Growing + Drop,
    S: Store,
    W: Pace,
    P: Fn(&Snapshot, Search) -> Result<AnyPlan, AllocError>,
>(
    rt: &R,
    watch: Watch<'n, T>,
    journal: &mut Journal<S>,
    planner: &P,
    display: &mut Display<'n>,
    boards: &mut Vec<Box<dyn Board>>,
    pace: &mut W,
) -> Result<Watch<'n, T>, RoundStop>
    requires plans { PlansUnder (P.pre planner.now) (P.post planner.now) (setting_of watch.desk.plans watch.desk.table) }
    requires watching { IsWatching T.given (desk_in watch) watch.feeds.items }
    requires shown { All IsShown watch.feeds.items }
    requires few { vec_len watch.feeds < 2 ^ 32 }
    requires some { 0 < watch.batch }
    requires fits { IsFor watch.desk.table.network (vec_len boards.old) display.old }
    requires none { HasShownNothing display.old }
    ensures going { IfOk result (IsGoing T.given (setting_of watch.entry.desk.plans watch.entry.desk.table)
        (length watch.entry.feeds.items)) }
    ensures goes { (s : Setting) (first : Book) (start : S)
        → GoesOver S.Store s first (map (source_in T.source) watch.entry.feeds.items) start
        watch.entry journal.old journal.new result }
    ensures sources { IfOk result (λ r. map (source_in T.source) r.feeds.items ≡ map (source_in T.source) watch.entry.feeds.items) }
    ensures none_left { IfOk result (λ r. All HasNoneLeft r.feeds.items) }
    ensures stops { IfErr result (StopsGoing S.Store T.given T.faults watch.entry journal.old journal.new) }
    ensures told { IfOk result (λ _. W.told pace.new) }
    ensures later { S.faults journal.old.store ≤ S.faults journal.new.store }
    ensures up { IfOk result (λ r. AreUp place times flags (λ b. (Board-box b).faults b.value) (λ b. (Board-box b).is_sound b.value)
        r.desk.table display.new boards.old.items boards.new.items) }
    ensures stays { map place boards.new.items ≡ map place boards.old.items }
{
    let mut watch = watch;
    display.show(&watch.desk.table, boards);
    pace.begin(watch.desk.table.len());
    for _round in rt.forever() {
        let (now, is_new) = match go_once(watch, journal, planner, display, boards) {
            Ok(answered) => answered,
            Err(stop) => return Err(stop),
        };
        watch = now;
        if !is_new && !pace.next() {
            return Ok(watch);
        }
    }
    unreachable!()
}

/// One round, after which boards are shown the times.
fn go_once<
    'n,
    T: Growing + Drop,
    S: Store,
    P: Fn(&Snapshot, Search) -> Result<AnyPlan, AllocError>,
>(
    watch: Watch<'n, T>,
    journal: &mut Journal<S>,
    planner: &P,
    display: &mut Display<'n>,
    boards: &mut Vec<Box<dyn Board>>,
) -> Result<(Watch<'n, T>, bool), RoundStop>
    requires plans { PlansUnder (P.pre planner.now) (P.post planner.now) (setting_of watch.desk.plans watch.desk.table) }
    requires watching { IsWatching T.given (desk_in watch) watch.feeds.items }
    requires shown { All IsShown watch.feeds.items }
    requires few { vec_len watch.feeds < 2 ^ 32 }
    requires fits { IsFor watch.desk.table.network (vec_len boards.old) display.old }
    requires has { 0 < vec_len boards.old → HasEarlierTimes watch.desk.table display.old }
    ensures going { IfOk result (λ r. (s : Setting) (n : ℕ) → IsGoing T.given s n watch.entry → IsGoing T.given s n r.0) }
    ensures gone { IfOk result (λ r. (s : Setting) (first : Book) (start : S)
        → setting_of watch.entry.desk.plans watch.entry.desk.table ≡ s
        → HasGone S.Store s first watch.entry start journal.old
        → HasGone S.Store s first r.0 start journal.new) }
    ensures leaves { (s : Setting) (first : Book) (start : S)
        → setting_of watch.entry.desk.plans watch.entry.desk.table ≡ s
        → HasGone S.Store s first watch.entry start journal.old
        → LivesOn S.Store s first (map (source_in T.source) watch.entry.feeds.items) start journal.new.store }
    ensures sources { IfOk result (λ r. map (source_in T.source) r.0.feeds.items ≡ map (source_in T.source) watch.entry.feeds.items) }
    ensures none_left { IfOk result (λ r. r.1 ≡ false → 0 < watch.entry.batch → All HasNoneLeft r.0.feeds.items) }
    ensures batch { IfOk result (λ r. r.0.batch ≡ watch.entry.batch) }
    ensures stops { IfErr result (StopsGoing S.Store T.given T.faults watch.entry journal.old journal.new) }
    ensures later { S.faults journal.old.store ≤ S.faults journal.new.store }
    ensures up { IfOk result (λ r. (first : List _)
        → AreUp place times flags (λ b. (Board-box b).faults b.value) (λ b. (Board-box b).is_sound b.value) watch.entry.desk.table
        display.old first boards.old.items
        → AreUp place times flags (λ b. (Board-box b).faults b.value) (λ b. (Board-box b).is_sound b.value) r.0.desk.table
        display.new first boards.new.items) }
    ensures stays { IfErr result (λ _. boards.new ≡ boards.old) }
{
    let (now, is_new) = match watch.round(journal, planner) {
        Ok(answered) => answered,
        Err(stop) => return Err(stop),
    };
    let mut watch = now;
    display.show_growth(&mut watch.desk.table, boards);
    Ok((watch, is_new))
}
