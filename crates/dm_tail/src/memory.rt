//! A feed in memory, which grows and fails as it is told.
ghost use Rattle.std.specs.Prelude.{◌≡◌, ◌+◌, ◌≤◌, ◌↔◌, ◌++◌, [], Some, length, take, drop, min, IfOk, OnErr, IsErr};
ghost use Rattle.dm_outside.specs.Faults.{Counts};
ghost use Rattle.dm_tail.specs.Memory.{bytes_of, given_of, gives_front, left_now, stands_now, IsListedNext};

use crate::growing::Growing;
use dm_outside::{Calls, Failed};

/// A feed in memory. It has all its bytes from the beginning, and tells how many of them others have appended by each read.
#[derive(Drop)]
pub struct MemFeed {
    bytes: Vec<u8>,
    at: usize,
    stands: Vec<usize>,
    reads: usize,
    fails: Vec<u64>,
    calls: Calls,
}

impl MemFeed {
    /// A feed that others append these bytes to, and that has given none yet. `stands` has how many of them stand by each read, by
    /// read; behind those reads all stand. The calls whose numbers are in `fails`, counted from 1, fail.
    pub fn new(bytes: Vec<u8>, stands: Vec<usize>, fails: Vec<u64>) -> MemFeed
        ensures bytes { bytes_of result ≡ bytes.items }
        ensures none { given_of result ≡ [] }
    {
        MemFeed {
            bytes,
            at: 0,
            stands,
            reads: 0,
            fails,
            calls: Calls::new(),
        }
    }

    // How many bytes stand by the next read.
    fn next_stand(&self) -> usize
        ensures { result ≡ stands_now self.now }
    {
        match self.stands.get(self.reads) {
            Some(stands) => (*stands).min(self.bytes.len()),
            None => self.bytes.len(),
        }
    }
}

// So many bytes from a place on.
fn bytes_at(bytes: &[u8], at: usize, count: usize) -> &[u8]
    requires { at + count ≤ length bytes.now }
    ensures { result.now ≡ take count (drop at bytes.now) }
{
    let behind = &bytes[at..];
    &behind[..count]
}

impl Growing for MemFeed {
    ghost given = { λ feed. Some (given_of feed) };

    ghost source = { λ feed. Some (bytes_of feed) };

    ghost from_source = { gives_front };

    ghost faults = { λ feed. feed.calls.faults };

    fn read(&mut self, buf: &mut [u8]) -> Result<usize, Failed>
        ensures count { IfOk result (λ n. n ≤ length buf.old) }
        ensures gives { IfOk result (λ n. Some (given_of self.new) ≡ Some (given_of self.old ++ take n buf.new)) }
        ensures keeps { OnErr result (Some (given_of self.new) ≡ Some (given_of self.old)) }
        ensures cause { Counts self.old.calls.faults self.new.calls.faults result }

        // It fails at the listed calls alone, and else gives as much as stands and fits. All its bytes stay.
        ensures fails { IsErr result ↔ IsListedNext self.old }
        ensures exact { IfOk result (λ n. n ≡ min (length buf.old) (left_now self.old)) }
        ensures source { Some (bytes_of self.new) ≡ Some (bytes_of self.old) }
    {
        let count = buf.len().min(self.next_stand().saturating_sub(self.at));
        self.reads = self.reads.saturating_add(1);
        if self.calls.is_listed(&self.fails) {
            self.calls.add_fault();
            return Err(Failed);
        }
        if count == 0 {
            return Ok(0);
        }
        buf[..count].copy_from_slice(bytes_at(&self.bytes, self.at, count));
        self.at += count;
        Ok(count)
    }

    fn sync(&mut self) -> Result<(), Failed> {
        if self.calls.is_listed(&self.fails) {
            self.calls.add_fault();
            return Err(Failed);
        }
        Ok(())
    }
}
