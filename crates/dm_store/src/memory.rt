//! A store in memory, which fails and tears as it is told.
ghost use Rattle.std.specs.Prelude.{◌≡◌, ◌+◌, ◌<◌, ◌≤◌, ◌++◌, ℕ, List, [], length, map, min, IfOk, OnOk, slice_set, slice_index_or, false};
ghost use Rattle.dm_outside.specs.Faults.{HasRisen};
ghost use Rattle.dm_store.specs.Calls.{LeavesJournal, HasCause, Torn, Cut, written, shown_behind};
ghost use Rattle.dm_store.specs.Memory.{step_of, image_of, shown_then, shown_after};

use crate::{Store, StoreError};
use dm_outside::Calls;
use std::alloc::{AllocError, Global};

/// A call that a store in memory was given.
#[derive(Drop)]
pub enum Done {
    /// Bytes were written at this offset of the journal.
    Wrote(usize, Vec<u8>),
    /// The journal was cut to this length.
    CutTo(usize),
    /// The journal was synced with these bytes.
    Synced(Vec<u8>),
    /// The reply file of this feed has shown these bytes.
    Showed(usize, Vec<u8>),
    /// The reply file of this feed was put anew with this text.
    Renewed(usize, Vec<u8>),
}

/// What a crash makes of a call of the journal that no sync followed.
#[derive(Clone, Copy)]
pub enum Tear {
    /// Nothing of it was done.
    Nothing,
    /// All of it was done.
    All,
    /// A front of so many bytes was written, or as many bytes more than the cut asked for stand.
    Front(usize),
    /// Zeros stand where bytes were to be written.
    Zeros,
    /// This byte stands wherever bytes were to be written.
    Other(u8),
}

/// A store in memory. It keeps every call, so that a crash at any moment of its life can be looked at. Of the calls that fail a
/// write and a cut are done all the same, a sync and a text put anew are not, and half of what was to be shown is shown.
#[derive(Drop)]
pub struct MemStore {
    alloc: Global,
    first: Vec<u8>,
    replies: Vec<Vec<u8>>,
    seen: Vec<u8>,
    done: Vec<Done>,
    fails: Vec<u64>,
    calls: Calls,
}

impl MemStore {
    ghost use Rattle.dm_store.specs.Memory.{tells_of, seen_of, shown_of, was_shown_of, left_of};

    /// A store with this journal on the disk and these reply files. The calls whose numbers are in `fails`, counted from 1,
    /// fail.
    pub fn new(
        alloc: Global,
        journal: Vec<u8>,
        replies: Vec<Vec<u8>>,
        fails: Vec<u64>,
    ) -> Result<MemStore, AllocError>
        ensures told { IfOk result tells_of }
        ensures seen { IfOk result (λ store. seen_of store ≡ journal.items) }
        ensures was_shown { IfOk result (λ store. was_shown_of store ≡ map (λ reply. reply.items) replies.items) }
        ensures shown { IfOk result (λ store. shown_of store ≡ was_shown_of store) }
        ensures durable { IfOk result (λ store. LeavesJournal (seen_of store) (left_of store)) }
    {
        Ok(MemStore {
            alloc,
            first: journal.to_vec(alloc)?,
            replies,
            seen: journal,
            done: Vec::new(alloc),
            fails,
            calls: Calls::new(),
        })
    }

    /// The bytes that a read returns.
    pub fn seen(&self) -> &[u8]
        ensures { result.now ≡ seen_of self.now }
    {
        &self.seen
    }

    /// Of each reply file, what it had shown when the store was made.
    pub fn was_shown(&self) -> &[Vec<u8>]
        ensures { map (λ reply. reply.items) result.now ≡ was_shown_of self.now }
    {
        &self.replies
    }

    /// What a crash at this moment leaves, as a new store, whose calls are counted anew. Each call of the journal behind the
    /// last sync is torn so. What a reply file had shown is what it was when the new store was made.
    pub fn after_crash(
        &self,
        alloc: Global,
        tear: Tear,
        fails: Vec<u64>,
    ) -> Result<MemStore, StoreError>
        ensures left { IfOk result (λ store. left_of self.now (record { journal = seen_of store; shown = shown_of store })) }
        ensures told { IfOk result tells_of }
        ensures shown { IfOk result (λ store. shown_of store ≡ was_shown_of store) }
        ensures durable { IfOk result (λ store. LeavesJournal (seen_of store) (left_of store)) }
    {
        let mut journal = self.first.to_vec(alloc)?;
        let mut replies = copied(alloc, &self.replies)?;
        let synced = synced_len(&self.done);
        for place in 0..self.done.len() {
            let tear = if place < synced { Tear::All } else { tear };
            take_step(alloc, &self.done[place], tear, &mut journal, &mut replies)?;
        }
        Ok(MemStore::new(alloc, journal, replies, fails)?)
    }
}

// How many of so many bytes are shown, where the call fails and where it does not.
fn shown_len(fails: bool, len: usize) -> usize
    ensures within { result ≤ len }
    ensures whole { fails ≡ false → result ≡ len }
{
    if fails { len / 2 } else { len }
}

// Counts a fault.
fn fault(calls: &mut Calls) -> StoreError
    ensures failed { result ≡ StoreError.Failed }
    ensures risen { HasRisen calls.old.faults calls.new.faults }
    ensures later { calls.old.faults ≤ calls.new.faults }
{
    calls.add_fault();
    StoreError::Failed
}

// The answer of a call that was done.
fn answer(calls: &mut Calls, fails: bool) -> Result<(), StoreError>
    ensures cause { HasCause calls.old.faults calls.new.faults result }
    ensures well { OnOk result (fails ≡ false) }
{
    if fails { Err(fault(calls)) } else { Ok(()) }
}

// The old bytes with others from an offset on.
fn spliced(alloc: Global, old: &[u8], at: usize, bytes: &[u8]) -> Result<Vec<u8>, AllocError>
    requires { at ≤ length old.now }
    ensures { IfOk result (λ new. new.items ≡ written old.now at bytes.now) }
{
    let mut new = old[..at].to_vec(alloc)?;
    new.extend_from_slice(bytes)?;
    if bytes.len() < old.len() - at {
        new.extend_from_slice(&old[at + bytes.len()..])?;
    }
    Ok(new)
}

// How many calls stand in front of the last sync.
fn synced_len(done: &[Done]) -> usize {
    done.iter()
        .rposition(|call| matches!(call, Done::Synced(_)))
        .unwrap_or(0)
}

// Copies of the reply files.
fn copied(alloc: Global, replies: &[Vec<u8>]) -> Result<Vec<Vec<u8>>, AllocError>
    ensures { IfOk result (λ copies. map (λ reply. reply.items) copies.items ≡ map (λ reply. reply.items) replies.now) }
{
    let mut copies = Vec::new(alloc);
    for reply in replies {
        copies.push(reply.to_vec(alloc)?)?;
    }
    Ok(copies)
}

fn filled(alloc: Global, byte: u8, len: usize) -> Result<Vec<u8>, AllocError>
    ensures { IfOk result (λ bytes. length bytes.items ≡ len) }
{
    vec![in alloc; byte; len]
}

// The bytes that a write leaves, which a crash cut short.
fn torn(alloc: Global, bytes: &[u8], tear: Tear) -> Result<Vec<u8>, AllocError>
    ensures { IfOk result (λ left. length left.items ≤ length bytes.now) }
{
    match tear {
        Tear::Nothing => Ok(Vec::new(alloc)),
        Tear::All => bytes.to_vec(alloc),
        Tear::Front(len) => bytes[..len.min(bytes.len())].to_vec(alloc),
        Tear::Zeros => filled(alloc, 0, bytes.len()),
        Tear::Other(byte) => filled(alloc, byte, bytes.len()),
    }
}

// The journal after a write that a crash cut short.
fn torn_write(
    alloc: Global,
    old: &[u8],
    at: usize,
    bytes: &[u8],
    tear: Tear,
) -> Result<Vec<u8>, AllocError>
    requires { at ≤ length old.now }
    ensures { IfOk result (λ new. Torn at (length bytes.now) old.now new.items) }
{
    let left = torn(alloc, bytes, tear)?;
    spliced(alloc, old, at, &left)
}

// The length after a cut that a crash cut short.
fn torn_cut(old: usize, len: usize, tear: Tear) -> usize
    ensures low { min len old ≤ result }
    ensures high { result ≤ old }
{
    let least = len.min(old);
    match tear {
        Tear::Nothing => old,
        Tear::Front(more) => least + more.min(old - least),
        _ => least,
    }
}

// Puts another text in the place of a reply file.
fn put_reply(replies: &mut Vec<Vec<u8>>, feed: usize, text: Vec<u8>)
    requires { feed < length replies.old.items }
    ensures { map (λ reply. reply.items) replies.new.items ≡ slice_set (map (λ reply. reply.items) replies.old.items) feed text.items }
{
    replies[feed] = text;
}

// What a reply file has shown, and bytes behind it.
fn longer_reply(alloc: Global, reply: &[u8], bytes: &[u8]) -> Result<Vec<u8>, AllocError>
    ensures { IfOk result (λ longer. longer.items ≡ reply.now ++ bytes.now) }
{
    let mut longer = reply.to_vec(alloc)?;
    longer.extend_from_slice(bytes)?;
    Ok(longer)
}

// What a write makes of the journal, where a crash tears it so. Behind the end of what is left it is lost.
fn take_write(
    alloc: Global,
    journal: &mut Vec<u8>,
    at: usize,
    bytes: &[u8],
    tear: Tear,
) -> Result<(), StoreError>
    ensures { OnOk result (Torn at (length bytes.now) journal.old.items journal.new.items) }
{
    if at > journal.len() {
        return Ok(());
    }
    let torn = torn_write(alloc, journal, at, bytes, tear)?;
    *journal = torn;
    Ok(())
}

// What a cut makes of the journal, where a crash tears it so.
fn take_cut(journal: &mut Vec<u8>, len: usize, tear: Tear)
    ensures { Cut len journal.old.items journal.new.items }
{
    let keep = torn_cut(journal.len(), len, tear);
    journal.truncate(keep);
}

// What bytes that are shown make of the reply files.
fn take_show(
    alloc: Global,
    replies: &mut Vec<Vec<u8>>,
    feed: usize,
    bytes: &[u8],
) -> Result<(), StoreError>
    ensures { OnOk result (map (λ reply. reply.items) replies.new.items
        ≡ shown_behind (map (λ reply. reply.items) replies.old.items) feed bytes.now) }
{
    if feed >= replies.len() {
        return Err(StoreError::Failed);
    }
    let reply = longer_reply(alloc, &replies[feed], bytes)?;
    put_reply(replies, feed, reply);
    Ok(())
}

// What a text that a reply file is put anew with makes of the reply files.
fn take_renew(
    alloc: Global,
    replies: &mut Vec<Vec<u8>>,
    feed: usize,
    text: &[u8],
) -> Result<(), StoreError>
    ensures { OnOk result (map (λ reply. reply.items) replies.new.items
        ≡ slice_set (map (λ reply. reply.items) replies.old.items) feed text.now) }
{
    if feed >= replies.len() {
        return Err(StoreError::Failed);
    }
    let text = text.to_vec(alloc)?;
    put_reply(replies, feed, text);
    Ok(())
}

// What a call makes of the text that the reply file of the feed has shown.
fn add_shown(text: &mut Vec<u8>, call: &Done, feed: usize) -> Result<(), AllocError>
    ensures { (shown : List (List ℕ)) → feed < length shown → text.old.items ≡ slice_index_or shown feed []
        → OnOk result (text.new.items ≡ slice_index_or (shown_then call.now shown) feed []) }
{
    match call {
        Done::Showed(at, bytes) => {
            if *at == feed {
                text.extend_from_slice(bytes)?;
            }
        }
        Done::Renewed(at, anew) => {
            if *at == feed {
                text.clear();
                text.extend_from_slice(anew)?;
            }
        }
        Done::Wrote(..) | Done::CutTo(_) | Done::Synced(_) => {}
    }
    Ok(())
}

// All that the reply file of the feed has shown after these calls.
fn shown_text(
    alloc: Global,
    replies: &[Vec<u8>],
    done: &[Done],
    feed: usize,
) -> Result<Vec<u8>, AllocError>
    requires { feed < length replies.now }
    ensures { IfOk result (λ text. text.items
        ≡ slice_index_or (shown_after (map (λ reply. reply.items) replies.now) done.now) feed []) }
{
    let mut text = replies[feed].to_vec(alloc)?;
    for call in done {
        add_shown(&mut text, call, feed)?;
    }
    Ok(text)
}

// A journal that was synced with these bytes is just these.
fn take_sync(journal: &[u8], bytes: &[u8]) -> Result<(), StoreError>
    ensures { OnOk result (journal.now ≡ bytes.now) }
{
    if journal == bytes {
        Ok(())
    } else {
        Err(StoreError::Failed)
    }
}

// What a call makes of the journal and the reply files, where a crash tears it so.
fn take_step(
    alloc: Global,
    call: &Done,
    tear: Tear,
    journal: &mut Vec<u8>,
    replies: &mut Vec<Vec<u8>>,
) -> Result<(), StoreError>
    ensures { OnOk result (step_of call.now (image_of journal.old.items replies.old.items)
        (image_of journal.new.items replies.new.items)) }
{
    match call {
        Done::Wrote(at, bytes) => take_write(alloc, journal, *at, bytes, tear),
        Done::CutTo(len) => {
            take_cut(journal, *len, tear);
            Ok(())
        }
        Done::Synced(bytes) => take_sync(journal, bytes),
        Done::Showed(feed, bytes) => take_show(alloc, replies, *feed, bytes),
        Done::Renewed(feed, text) => take_renew(alloc, replies, *feed, text),
    }
}

impl Store for MemStore {
    ghost use Rattle.dm_store.specs.Memory.{tells_of, seen_of, shown_of, was_shown_of, left_of, moment_of, left_since_of};
    ghost use Rattle.dm_store.specs.Memory.{counted_now, since_now, all_show, grown_since};

    ghost tells = { tells_of };

    ghost seen = { seen_of };

    ghost shown = { shown_of };

    ghost may_leave = { left_of };

    ghost moment = { moment_of };

    ghost left_since = { left_since_of };

    ghost faults = { λ m. m.calls.faults };

    ghost shows_now = { λ m image told left. all_show m.first.items (was_shown_of m) m.done.items image left };

    ghost counts_now = { λ m t image told le left. counted_now m.first.items (was_shown_of m) m.done.items t image le left };

    ghost only_now = { λ m image told left. since_now m.first.items (was_shown_of m) m.done.items image left };

    ghost shows_on = { λ m t image told left. grown_since m.first.items (was_shown_of m) m.done.items t image told.1 left };

    ghost leaves_now = { λ m told. told.0 };

    fn read(&mut self, alloc: Global) -> Result<Vec<u8>, StoreError> {
        if self.calls.is_listed(&self.fails) {
            return Err(fault(&mut self.calls));
        }
        Ok(self.seen.to_vec(alloc)?)
    }

    fn write_at(&mut self, at: usize, bytes: &[u8]) -> Result<(), StoreError> {
        let fails = self.calls.is_listed(&self.fails);
        if at > self.seen.len() {
            return Err(fault(&mut self.calls));
        }
        let copy = bytes.to_vec(self.alloc)?;
        let journal = spliced(self.alloc, &self.seen, at, bytes)?;
        self.done.push(Done::Wrote(at, copy))?;
        self.seen = journal;
        answer(&mut self.calls, fails)
    }

    fn cut(&mut self, len: usize) -> Result<(), StoreError> {
        let fails = self.calls.is_listed(&self.fails);
        if len > self.seen.len() {
            return Err(fault(&mut self.calls));
        }
        self.done.push(Done::CutTo(len))?;
        self.seen.truncate(len);
        answer(&mut self.calls, fails)
    }

    fn sync(&mut self) -> Result<(), StoreError> {
        if self.calls.is_listed(&self.fails) {
            return Err(fault(&mut self.calls));
        }
        let copy = self.seen.to_vec(self.alloc)?;
        self.done.push(Done::Synced(copy))?;
        Ok(())
    }

    fn read_shown(&mut self, alloc: Global, feed: usize) -> Result<Vec<u8>, StoreError> {
        let fails = self.calls.is_listed(&self.fails);
        if fails || feed >= self.replies.len() {
            return Err(fault(&mut self.calls));
        }
        Ok(shown_text(alloc, &self.replies, &self.done, feed)?)
    }

    fn show(&mut self, feed: usize, bytes: &[u8]) -> Result<(), StoreError> {
        let fails = self.calls.is_listed(&self.fails);
        if feed >= self.replies.len() {
            return Err(fault(&mut self.calls));
        }
        let copy = bytes[..shown_len(fails, bytes.len())].to_vec(self.alloc)?;
        self.done.push(Done::Showed(feed, copy))?;
        answer(&mut self.calls, fails)
    }

    fn renew(&mut self, feed: usize, text: &[u8]) -> Result<(), StoreError> {
        let fails = self.calls.is_listed(&self.fails);
        if fails || feed >= self.replies.len() {
            return Err(fault(&mut self.calls));
        }
        let copy = text.to_vec(self.alloc)?;
        self.done.push(Done::Renewed(feed, copy))?;
        Ok(())
    }
}
