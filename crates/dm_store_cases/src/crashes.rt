//! Calls that fail, and what a crash then leaves.

use crate::recovering::{digit_of, letter_of, recovered};
use dm_store::{Journal, MemStore, Store as _, StoreError, Tear};
use std::alloc::Global;
use std::str;

/// The kinds of tears.
const TEARS: [Tear; 7] = [
    Tear::Nothing,
    Tear::All,
    Tear::Front(1),
    Tear::Front(7),
    Tear::Zeros,
    Tear::Other(b'+'),
    Tear::Other(b'5'),
];

/// Two blocks at rest.
const TWO: &[u8] = b"+11\ndm-store 1\n+18\nfeed 1 0\nfeed 2 0\n~";

const THREE: &[u8] =
    b"+11\ndm-store 1\n+18\nfeed 1 0\nfeed 2 0\n+37\nfeed 1 1\n1 cost -> 1 cost 0\nfeed 2 0\n~";

/// Two, and what a commit of a third left whose gate was torn.
const TORN: &[u8] = b"+11\ndm-store 1\n+18\nfeed 1 0\nfeed 2 0\nx3\nabc~";

/// The content of the third.
const THIRD: &[u8] = b"feed 1 1\n1 cost -> 1 cost 0\nfeed 2 0\n";

/// A recovery makes five calls.
const RECOVERY: u64 = 5;

/// How many blocks are recovered, `2` or `3`, from what a crash left; `x` where they are none of those above.
fn blocks_left(alloc: Global, left: &MemStore) -> Result<char, StoreError> {
    let count = recovered(alloc, left.seen())?;
    let due = if count == '3' { THREE } else { TWO };
    let same = left.seen().starts_with(&due[..due.len() - 1]);
    Ok(if same { count } else { 'x' })
}

/// What a crash leaves of a commit of a third block whose call of this number failed, of four.
fn commit_left(alloc: Global, call: u64, tear: Tear) -> Result<MemStore, StoreError> {
    let fails = vec![in alloc; RECOVERY.saturating_add(call)]?;
    let store = MemStore::new(alloc, TWO.to_vec(alloc)?, Vec::new(alloc), fails)?;
    let mut journal = Journal::new(store);
    journal.recover(alloc)?;
    let _ = journal.commit(alloc, THIRD);
    journal.store.after_crash(alloc, tear, Vec::new(alloc))
}

/// What a crash leaves of a recovery of two blocks whose call of this number failed, of five.
fn recover_left(alloc: Global, call: u64, tear: Tear) -> Result<MemStore, StoreError> {
    let fails = vec![in alloc; call]?;
    let store = MemStore::new(alloc, TORN.to_vec(alloc)?, Vec::new(alloc), fails)?;
    let mut journal = Journal::new(store);
    let _ = journal.recover(alloc);
    journal.store.after_crash(alloc, tear, Vec::new(alloc))
}

/// For each tear how many blocks are recovered where this call of a commit failed.
pub fn commits(alloc: Global, call: u64) -> Result<String, StoreError> {
    let mut line = String::new(alloc);
    for tear in TEARS {
        let left = commit_left(alloc, call, tear)?;
        line.push(letter_of(blocks_left(alloc, &left)))?;
    }
    Ok(line)
}

/// For each tear how many blocks are recovered where this call of a recovery failed, and how many bytes stood behind them.
pub fn recoveries(alloc: Global, call: u64) -> Result<String, StoreError> {
    let mut line = String::new(alloc);
    for tear in TEARS {
        let left = recover_left(alloc, call, tear)?;
        let behind = left.seen().len().saturating_sub(TWO.len() - 1);
        line.push(letter_of(blocks_left(alloc, &left)))?;
        line.push(digit_of(behind))?;
    }
    Ok(line)
}

/// What two reply files show after three calls on them, the one of this number failing.
pub fn shown_left(alloc: Global, call: u64) -> Result<String, StoreError> {
    let replies = vec![in alloc; b"a".to_vec(alloc)?, b"b".to_vec(alloc)?]?;
    let fails = vec![in alloc; call]?;
    let mut store = MemStore::new(alloc, Vec::new(alloc), replies, fails)?;
    let _ = store.show(0, b"1234");
    let _ = store.renew(1, b"new");
    let _ = store.show(1, b"56");
    let left = store.after_crash(alloc, Tear::Nothing, Vec::new(alloc))?;
    let mut line = String::new(alloc);
    for text in left.was_shown() {
        line.push_str(str::from_utf8(text).unwrap_or("?"))?;
        line.push('|')?;
    }
    Ok(line)
}
