//! A run that is read back from the file of a journal, and judged.
ghost use Rattle.std.specs.Prelude.{◌≡◌, ◌≤◌, ◌↔◌, ℕ, [], List, All, IsTrue, None, length, map, IfOk, IfErr, OnOk};
ghost use Rattle.dm_base.specs.declared.limits.TheConstants.{PENALTY, FEEDS};
ghost use Rattle.dm_rows.specs.declared.messages.Entry.{Entry as AnEntry};
ghost use Rattle.dm_rows.specs.Active.{HasNoCycle};
ghost use Rattle.dm_rows.specs.History.{IsLegal};
ghost use Rattle.dm_rows.specs.Rows.{IsSized};
ghost use Rattle.dm_cert.specs.declared.limits.TheConstants.{PLANS};
ghost use Rattle.dm_cert.specs.Logs.{AreTrueLogs};
ghost use Rattle.dm_cert.specs.RunTexts.{IsSpelledLog};
ghost use Rattle.dm_store.specs.Blocks.{Stands, refusal};
ghost use Rattle.dm_book.specs.Books.{Book, IsTrueBook, log_of};
ghost use Rattle.dm_table_desk.specs.Tables.{setting_of};
ghost use Rattle.dm_restore.specs.Restoring.{IsRestored, RefusesBook};
ghost use Rattle.dm_restore.specs.Inside.Entering.{AreSorted};
ghost use Rattle.dm_restore.specs.Start.{setting_of_head, book_back};
ghost use Rattle.dm_restore.specs.Inside.Judging.{IsJudged, StopsDesk};

use crate::entries::{enter_all, entries_of};
use crate::heads::Head;
use crate::judging::judge;
use crate::logs::logs_in;
use crate::stops::RestoreStop;
use dm_cert::FeedLog;
use dm_network::Network;
use dm_rows::Rows;
use dm_settle::NoTimes;
use dm_store::LARGEST_JOURNAL;
use dm_table::Table;
use dm_table_desk::TableDesk;
use std::alloc::{AllocError, Global};

/// What the file of a journal holds: its table, and the log of each feed.
#[derive(Drop)]
pub struct Restored<'n> {
    pub desk: TableDesk<'n>,

    /// The log of each feed, which goes on.
    pub logs: Vec<FeedLog>,

    /// Whether there is no block yet, so that the head is still to be committed.
    pub is_new: bool,
}

/// Reads the run that the file of a journal with this head holds, and has it judged. Nothing is changed.
pub fn restore<'n>(
    alloc: Global,
    net: &'n Network,
    start: Rows,
    head: Head,
    file: &[u8],
) -> Result<Restored<'n>, RestoreStop>
    requires sized { IsSized net.now start }
    requires no_cycle { HasNoCycle net.now start }
    requires penalty { head.penalty ≤ PENALTY }
    requires plans { head.plans ≤ PLANS }
    requires feeds { (1 ≤ head.feeds) × (head.feeds ≤ FEEDS) }
    ensures setting { IfOk result (λ r. setting_of r.desk.plans r.desk.table ≡ setting_of_head net.now start head) }
    ensures is_true { IfOk result (λ r. IsTrueBook (setting_of_head net.now start head) (book_back r)) }
    ensures spelled { IfOk result (λ r. All IsSpelledLog r.logs.items) }
    ensures as_many { IfOk result (λ r. length r.logs.items ≡ head.feeds) }
    ensures go_on { IfOk result (λ r. r.logs.items ≡ map log_of (map (λ log. log.items) r.logs.items)) }

    // The book stands in the blocks, and is the only true one there.
    ensures book { (contents : List (List ℕ)) → Stands contents file.now
        → IfOk result (λ r. IsRestored (setting_of_head net.now start head) head.feeds contents (book_back r)) }
    ensures one { (contents : List (List ℕ)) (book : Book) → Stands contents file.now
        → IsRestored (setting_of_head net.now start head) head.feeds contents book → IfOk result (λ r. book_back r ≡ book) }
    ensures new { (contents : List (List ℕ)) → Stands contents file.now → IfOk result (λ r. IsTrue r.is_new ↔ (contents ≡ [])) }
    ensures whole { (contents : List (List ℕ)) (stands : Stands contents file.now) → IfOk result (λ _. refusal contents stands.end ≡ None) }

    // Each refusal has its cause.
    ensures refused { (contents : List (List ℕ)) (stands : Stands contents file.now)
        → IfErr result (RefusesBook (setting_of_head net.now start head) head.feeds file.now contents stands.end) }
{
    if file.len() > LARGEST_JOURNAL {
        return Err(RestoreStop::Full);
    }
    let (logs, is_new) = match logs_in(alloc, head, file) {
        Ok(found) => found,
        Err(stop) => return Err(stop),
    };
    match judged_desk(alloc, net, start, head, &logs) {
        Ok(desk) => Ok(Restored { desk, logs, is_new }),
        Err(stop) => Err(stop),
    }
}

/// A desk that entered what logs name as entered, where the run is told good.
fn judged_desk<'n>(
    alloc: Global,
    net: &'n Network,
    start: Rows,
    head: Head,
    logs: &[FeedLog],
) -> Result<TableDesk<'n>, RestoreStop>
    requires sized { IsSized net.now start }
    requires no_cycle { HasNoCycle net.now start }
    requires penalty { head.penalty ≤ PENALTY }
    requires plans { head.plans ≤ PLANS }
    requires spelled { All IsSpelledLog logs.now }
    requires some { 1 ≤ length logs.now }
    requires few { length logs.now ≤ 64 }
    ensures good { IfOk result (λ d. IsJudged (setting_of_head net.now start head) logs.now d.plans d.table) }
    ensures stops { IfErr result (StopsDesk (setting_of_head net.now start head) logs.now) }
{
    let mut desk = match new_desk(alloc, net, start, head) {
        Ok(desk) => desk,
        Err(AllocError) => return Err(RestoreStop::OutOfMemory),
    };
    let Ok(()) = enter_logs(alloc, &mut desk, logs) else {
        return Err(RestoreStop::OutOfMemory);
    };
    match judge(alloc, &desk, logs) {
        Ok(()) => Ok(desk),
        Err(stop) => Err(stop),
    }
}

/// A desk without entries. `Err` is want of memory alone.
fn new_desk<'n>(
    alloc: Global,
    net: &'n Network,
    start: Rows,
    head: Head,
) -> Result<TableDesk<'n>, AllocError>
    requires sized { IsSized net.now start }
    requires no_cycle { HasNoCycle net.now start }
    requires penalty { head.penalty ≤ PENALTY }
    ensures setting { IfOk result (λ d. setting_of d.plans d.table ≡ setting_of_head net.now start head) }
    ensures none { IfOk result (λ d. d.table.history ≡ []) }
    ensures plans { IfOk result (λ d. d.plans ≡ head.plans) }
{
    match Table::new(alloc, net, start, head.penalty) {
        Ok(table) => Ok(TableDesk {
            alloc,
            table,
            plans: head.plans,
        }),
        Err(NoTimes::OutOfMemory) => Err(AllocError),
        Err(NoTimes::Cycle(_)) => unreachable!(),
    }
}

/// Enters what the items of logs name as entered. `Err` is want of memory alone.
fn enter_logs(alloc: Global, desk: &mut TableDesk<'_>, logs: &[FeedLog]) -> Result<(), AllocError>
    requires few { length logs.now ≤ 64 }
    requires spelled { All IsSpelledLog logs.now }
    ensures setting { setting_of desk.new.plans desk.new.table ≡ setting_of desk.old.plans desk.old.table }
    ensures enters { OnOk result (desk.old.table.history ≡ [] → (history : List AnEntry)
        → IsLegal desk.old.table.network desk.old.table.start history
        → AreTrueLogs (setting_of desk.old.plans desk.old.table) history logs.now → desk.new.table.history ≡ history) }
    ensures sorted { AreSorted desk.old.table.history → AreSorted desk.new.table.history }
{
    let entries = entries_of(alloc, logs)?;
    enter_all(desk, entries)
}
