//! A journal over a store.
ghost use Rattle.std.specs.Prelude.{◌≡◌, ◌≢◌, ◌+◌, ◌<◌, ◌≤◌, ◌++◌, ℕ, List, [], ◌∷◌, length, IfOk, OnOk, IfErr, IsErrOf, None};
ghost use Rattle.std.specs.List.{flat_map};
ghost use Rattle.dm_outside.specs.Faults.{HasRisen};
ghost use Rattle.dm_store.specs.Blocks.{block, refusal, Stands, IsOfJournal};
ghost use Rattle.dm_store.specs.Calls.{LeavesOnly, HasCause};
ghost use Rattle.dm_store.specs.Journals.{IsFound, IsAtRest, IsBeforeOrAfter, StillKeeps, IsJudged, Untouched, IsOfCommit, largest_journal};
ghost use Rattle.dm_store.specs.Inside.Stages.{IsWritten, IsCut, IsRead, ReadsBlocks};

use crate::blocks::{CLOSED_GATE, OPEN_GATE, blocks_len, end_refusal, staged};
use crate::{Store, StoreError};
use std::alloc::Global;

/// The most bytes that a journal may have.
pub const LARGEST_JOURNAL: usize = 134_217_728;

/// A journal of blocks over a store. Behind the last block stands a closed gate.
#[derive(Drop)]
pub struct Journal<S: Store> {
    /// What keeps the journal and the reply files.
    pub store: S,
    /// Where the closed gate stands.
    pub end: usize,
}

// Writes, and waits until it is on the disk.
fn write_synced<S: Store>(store: &mut S, at: usize, bytes: &[u8]) -> Result<(), StoreError>
    ensures written { (file : List ℕ)
        → IsWritten S.tells S.seen S.shown S.may_leave S.moment S.left_since file at bytes.now store.old store.new result }
    ensures told { S.tells store.old → S.tells store.new }
    ensures cause { HasCause (S.faults store.old) (S.faults store.new) result }
{
    store.write_at(at, bytes)?;
    store.sync()
}

// Cuts, and waits until that is on the disk.
fn cut_synced<S: Store>(store: &mut S, len: usize) -> Result<(), StoreError>
    ensures cut { (file : List ℕ)
        → IsCut S.tells S.seen S.shown S.may_leave S.moment S.left_since file len store.old store.new result }
    ensures told { S.tells store.old → S.tells store.new }
    ensures cause { HasCause (S.faults store.old) (S.faults store.new) result }
{
    store.cut(len)?;
    store.sync()
}

// The bytes of a journal, and how many of them the blocks have, where nothing is refused of it.
fn judged(bytes: Vec<u8>) -> Result<(Vec<u8>, usize), StoreError>
    ensures judged { (contents : List (List ℕ)) (stands : Stands contents bytes.items)
        → ReadsBlocks contents stands.end bytes.items result }
    ensures within { IfOk result (λ p. p.1 ≤ length p.0.items) }
    ensures known { IfErr result IsOfJournal }
{
    let end = blocks_len(&bytes);
    match end_refusal(&bytes[..end], &bytes[end..]) {
        Some(error) => Err(error),
        None => Ok((bytes, end)),
    }
}

// Reads the journal, and judges its end. It answers the bytes, and how many of them the blocks have.
fn read_judged<S: Store>(store: &mut S, alloc: Global) -> Result<(Vec<u8>, usize), StoreError>
    ensures read { (contents : List (List ℕ)) (found : IsFound S.tells S.seen S.may_leave contents store.old)
        → IsRead S.tells S.seen S.shown S.may_leave S.moment S.left_since contents found.stands.end store.old store.new result }
    ensures within { IfOk result (λ p. p.1 ≤ length p.0.items) }
    ensures told { S.tells store.old → S.tells store.new }
    ensures read_well { IsErrOf result StoreError.Failed → ⊥ }
    ensures unread { IsErrOf result StoreError.Unread → HasRisen (S.faults store.old) (S.faults store.new) }
    ensures later { S.faults store.old ≤ S.faults store.new }
{
    match store.read(alloc) {
        Ok(bytes) => judged(bytes),
        Err(StoreError::Failed) => Err(StoreError::Unread),
        Err(_) => Err(StoreError::OutOfMemory),
    }
}

impl<S: Store> Journal<S> {
    /// The journal of a store. It is to be recovered before a block is committed.
    pub fn new(store: S) -> Journal<S>
        ensures { result.store ≡ store }
    {
        Journal { store, end: 0 }
    }

    /// Reads the journal that a crash may have left, and repairs its end: it cuts behind the whole blocks and closes the gate
    /// there. It answers the blocks, one behind the other. It may crash too, at any moment. At `Err` the journal is to be
    /// recovered again.
    pub fn recover(&mut self, alloc: Global) -> Result<Vec<u8>, StoreError>
        ensures blocks { (contents : List (List ℕ)) → IsFound S.tells S.seen S.may_leave contents self.old.store
            → IfOk result (λ bytes. bytes.items ≡ flat_map block contents) }
        ensures at_rest { (contents : List (List ℕ)) → IsFound S.tells S.seen S.may_leave contents self.old.store
            → OnOk result (IsAtRest S.tells S.seen S.may_leave contents self.new) }

        // A crash at any moment leaves the same blocks, and an end that is repaired.
        ensures any_moment { (contents : List (List ℕ)) (found : IsFound S.tells S.seen S.may_leave contents self.old.store)
            → LeavesOnly S.moment S.left_since self.old.store self.new.store
            (StillKeeps contents found.stands.end (S.shown self.old.store)) }
        ensures shown { (contents : List (List ℕ)) → IsFound S.tells S.seen S.may_leave contents self.old.store
            → S.shown self.new.store ≡ S.shown self.old.store }
        ensures told { S.tells self.old.store → S.tells self.new.store }

        // What is refused is left as it stands.
        ensures judged { (contents : List (List ℕ)) (found : IsFound S.tells S.seen S.may_leave contents self.old.store)
            → IsJudged contents found.stands.end result }
        ensures untouched { (contents : List (List ℕ)) (found : IsFound S.tells S.seen S.may_leave contents self.old.store)
            → refusal contents found.stands.end ≢ None → Untouched S.seen S.may_leave self.old.store self.new.store }

        // What could not be read is left as it stands, too.
        ensures unread { IsErrOf result StoreError.Unread → HasRisen (S.faults self.old.store) (S.faults self.new.store) }
        ensures unread_left { (contents : List (List ℕ)) → IsFound S.tells S.seen S.may_leave contents self.old.store
            → IsErrOf result StoreError.Unread → Untouched S.seen S.may_leave self.old.store self.new.store }

        // It does not fail by itself.
        ensures failed { IsErrOf result StoreError.Failed → HasRisen (S.faults self.old.store) (S.faults self.new.store) }
        ensures later { S.faults self.old.store ≤ S.faults self.new.store }
    {
        let (mut bytes, end) = read_judged(&mut self.store, alloc)?;
        // The cut has to be on the disk first: behind a gate that is torn open, what was there would count.
        cut_synced(&mut self.store, end)?;
        write_synced(&mut self.store, end, &[CLOSED_GATE])?;
        bytes.truncate(end);
        self.end = end;
        Ok(bytes)
    }

    /// Adds a block. At `Ok` each later crash leaves it. At `Err` the journal is to be recovered again.
    pub fn commit(&mut self, alloc: Global, content: &[u8]) -> Result<(), StoreError>
        ensures acknowledged { (contents : List (List ℕ)) → IsAtRest S.tells S.seen S.may_leave contents self.old
            → OnOk result (IsAtRest S.tells S.seen S.may_leave (contents ++ content.now ∷ []) self.new) }

        // A crash at any moment leaves the blocks from before, or one more.
        ensures any_moment { (contents : List (List ℕ)) → IsAtRest S.tells S.seen S.may_leave contents self.old
            → LeavesOnly S.moment S.left_since self.old.store self.new.store
            (IsBeforeOrAfter contents content.now (S.shown self.old.store)) }
        ensures shown { (contents : List (List ℕ)) → IsAtRest S.tells S.seen S.may_leave contents self.old
            → S.shown self.new.store ≡ S.shown self.old.store }
        ensures told { S.tells self.old.store → S.tells self.new.store }

        // It does not fail by itself, and is full exactly where the journal would be too long.
        ensures failed { IsErrOf result StoreError.Failed → HasRisen (S.faults self.old.store) (S.faults self.new.store) }
        ensures later { S.faults self.old.store ≤ S.faults self.new.store }
        ensures full { IsErrOf result StoreError.Full → largest_journal < self.old.end + length (block content.now) + 1 }
        ensures room { OnOk result (self.old.end + length (block content.now) + 1 ≤ largest_journal) }
        ensures known { IfErr result IsOfCommit }
    {
        if content.len() >= LARGEST_JOURNAL {
            return Err(StoreError::Full);
        }
        let bytes = staged(alloc, content)?;
        let gate = self.end;
        if gate >= LARGEST_JOURNAL || bytes.len() >= LARGEST_JOURNAL - gate {
            return Err(StoreError::Full);
        }
        write_synced(&mut self.store, gate + 1, &bytes)?;
        write_synced(&mut self.store, gate, &[OPEN_GATE])?;
        self.end = gate + bytes.len();
        Ok(())
    }
}
