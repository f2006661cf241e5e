//! The logs that the file of a journal records.
ghost use Rattle.std.specs.Prelude.{◌≡◌, ◌≤◌, ℕ, List, length, map, IfOk, IfErr};
ghost use Rattle.dm_network.specs.Net.{Net};
ghost use Rattle.dm_rows.specs.Rows.{RowsValue};
ghost use Rattle.dm_store.specs.Blocks.{Stands};
ghost use Rattle.dm_book.specs.Books.{log_of};
ghost use Rattle.dm_restore.specs.Restoring.{RefusesBook};
ghost use Rattle.dm_restore.specs.Start.{setting_of_head};
ghost use Rattle.dm_restore.specs.Inside.Logs.{HasLogs, IsBehindHead, IsSameHead};

use crate::heads::{Head, read_head};
use crate::rounds::read_logs;
use crate::stops::RestoreStop;
use dm_base::Items;
use dm_cert::{FeedLog, LogItem};
use dm_feed::FeedStop;
use dm_store::{first_block, refusal};
use std::alloc::{AllocError, Global};

/// The logs that the blocks of a file with this head record, and whether there is no block.
pub(crate) fn logs_in(
    alloc: Global,
    head: Head,
    file: &[u8],
) -> Result<(Vec<FeedLog>, bool), RestoreStop>
    requires { length file.now ≤ 134217728 }
    ensures read { (net : Net) (start : RowsValue) (contents : List (List ℕ)) (stands : Stands contents file.now)
        → IfOk result (λ r. HasLogs (setting_of_head net start head) head.feeds contents stands.end r.0.items r.1) }
    ensures stops { (net : Net) (start : RowsValue) (contents : List (List ℕ)) (stands : Stands contents file.now)
        → IfErr result (RefusesBook (setting_of_head net start head) head.feeds file.now contents stands.end) }
{
    let (rest, is_new) = match behind_head(head, file) {
        Ok(found) => found,
        Err(stop) => return Err(stop),
    };
    let logs = match read_logs(alloc, head.feeds, rest) {
        Ok(logs) => logs,
        Err(stop) => return Err(stop),
    };
    if let Some(_) = refusal(file) {
        return Err(RestoreStop::Form(count_blocks(file) + 1));
    }
    match feed_logs(alloc, logs) {
        Ok(logs) => Ok((logs, is_new)),
        Err(AllocError) => Err(RestoreStop::OutOfMemory),
    }
}

/// The bytes behind the first block, which has this head; all, where there is no block, and whether there is none.
fn behind_head(head: Head, file: &[u8]) -> Result<(&[u8], bool), RestoreStop>
    ensures { IsBehindHead head file.now result }
{
    let Some((first, rest)) = first_block(file) else {
        return Ok((file, true));
    };
    match read_head(first) {
        Some(found) => {
            if !is_same(found, head) {
                return Err(RestoreStop::Head);
            }
            Ok((rest, false))
        }
        None => Err(RestoreStop::Form(1)),
    }
}

/// Whether two heads are one.
fn is_same(one: Head, other: Head) -> bool
    ensures { IsSameHead one other result }
{
    one.penalty == other.penalty && one.plans == other.plans && one.feeds == other.feeds
}

/// How many blocks stand in a file.
fn count_blocks(file: &[u8]) -> usize
    requires { length file.now ≤ 134217728 }
    ensures count { (contents : List (List ℕ)) → Stands contents file.now → result ≡ length contents }
    ensures few { result ≤ length file.now }
{
    let mut rest = file;
    let mut count = 0;
    while let Some((_, more)) = first_block(rest) {
        rest = more;
        count += 1;
    }
    count
}

/// The logs of feeds that go on.
fn feed_logs(alloc: Global, logs: Vec<Vec<LogItem>>) -> Result<Vec<FeedLog>, AllocError>
    ensures { IfOk result (λ now. now.items ≡ map log_of (map (λ log. log.items) logs.items)) }
{
    let mut made = Vec::with_capacity(alloc, logs.len())?;
    for items in logs {
        made.push(FeedLog {
            items: Items::from_vec(items),
            stop: FeedStop::End,
        })?;
    }
    Ok(made)
}
