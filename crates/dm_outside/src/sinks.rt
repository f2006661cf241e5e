//! Where bytes go.
ghost use Rattle.std.specs.Prelude.{◌≡◌, ◌⊎◌, ℕ, ◌-◌, ◌<◌, ◌≤◌, ◌↔◌, List, [], Option, Some, length, min, IfOk, OnOk, OnErr, IsErr};
ghost use Rattle.std.specs.Io.KnownBytes.{WriteAppends};
ghost use Rattle.dm_outside.specs.Faults.{Counts};
ghost use Rattle.dm_outside.specs.Calls.{IsListed, next_call};

use crate::Failed;
use crate::calls::Calls;
use std::alloc::{AllocError, Global};
use std::marker::Model;

/// What takes bytes, each piece behind the ones before it.
pub trait Sink {
    /// The bytes that it took, where the sink tells them.
    ghost taken: { Self → Option (List ℕ) };

    /// How many of its writes have failed: it never falls.
    ghost faults: { Self → ℕ };

    /// Takes the first bytes and answers how many, at least one where there are any. After a failed
    /// write it has taken nothing of them.
    fn write(&mut self, bytes: &[u8]) -> Result<usize, Failed>
        ensures count { IfOk result (λ n. n ≤ length bytes.now) }
        ensures some { IfOk result (λ n. 0 < length bytes.now → 0 < n) }
        ensures appends { WriteAppends (taken self.old) (taken self.new) result bytes.now }
        ensures cause { Counts (faults self.old) (faults self.new) result };
}

/// A sink in memory. All its memory is taken when it is made.
#[derive(Drop)]
pub struct MemSink {
    bytes: Vec<u8>,
    room: usize,
    piece: usize,
    fails: Vec<u64>,
    calls: Calls,
}

impl Model for MemSink {
    ghost use Rattle.std.specs.Prelude.{ℕ, ◌<◌, ◌≤◌, vec_len, vec_capacity};
    ghost use Rattle.dm_outside.specs.Memory.{SinkValue};

    ghost Value = { SinkValue };

    ghost view = { λ sink. record {
      taken = sink.bytes.items;
      room = sink.room;
      piece = sink.piece;
      fails = sink.fails.items;
      made = sink.calls.made;
      faults = sink.calls.faults;
    } };

    ghost invariant = { λ sink.
        (0 < sink.piece) × (vec_len sink.bytes ≤ sink.room) × (sink.room ≤ vec_capacity sink.bytes) };
}

impl MemSink {
    /// A sink that takes at most `room` bytes in all and at most `piece` bytes at a write. The
    /// writes whose numbers are in `fails`, counted from 1, fail, and so does each write of bytes
    /// once `room` bytes were taken. The error is want of memory for `room` bytes.
    pub fn new(
        alloc: Global,
        room: usize,
        piece: usize,
        fails: Vec<u64>,
    ) -> Result<MemSink, AllocError>
        requires { 0 < piece }
        ensures { IfOk result (λ sink. sink ≡ record {
          taken = [];
          room = room;
          piece = piece;
          fails = fails.items;
          made = 0;
          faults = 0;
        }) }
    {
        Ok(MemSink {
            bytes: Vec::with_capacity(alloc, room)?,
            room,
            piece,
            fails,
            calls: Calls::new(),
        })
    }

    /// The bytes that it took.
    pub fn taken(&self) -> &[u8]
        ensures { result.now ≡ self.now.taken }
    {
        &self.bytes
    }
}

impl Sink for MemSink {
    ghost taken = { λ sink. Some sink.taken };

    ghost faults = { λ sink. sink.faults };

    fn write(&mut self, bytes: &[u8]) -> Result<usize, Failed>
        ensures count { IfOk result (λ n. n ≤ length bytes.now) }
        ensures some { IfOk result (λ n. 0 < length bytes.now → 0 < n) }
        ensures appends { WriteAppends (Some self.old.taken) (Some self.new.taken) result bytes.now }
        ensures cause { Counts self.old.faults self.new.faults result }

        // It fails at the listed calls and where no byte fits, and else takes as much as may be.
        ensures fails { IsErr result
            ↔ (IsListed self.old.made self.old.fails ⊎ ((self.old.room ≤ length self.old.taken) × (0 < length bytes.now))) }
        ensures exact { IfOk result (λ n. n ≡ min self.old.piece (min (length bytes.now) (self.old.room - length self.old.taken))) }

        // It counts each call, and each fault. But for what it took all else stays.
        ensures counted { self.new.made ≡ next_call self.old.made }
        ensures faultless { OnOk result (self.new.faults ≡ self.old.faults) }
        ensures faulted { OnErr result (self.new.faults ≡ next_call self.old.faults) }
        ensures same_room { self.new.room ≡ self.old.room }
        ensures same_piece { self.new.piece ≡ self.old.piece }
        ensures same_fails { self.new.fails ≡ self.old.fails }
    {
        if self.calls.is_listed(&self.fails) {
            self.calls.add_fault();
            return Err(Failed);
        }
        let count = self
            .piece
            .min(bytes.len().min(self.room - self.bytes.len()));
        if count == 0 && !bytes.is_empty() {
            self.calls.add_fault();
            return Err(Failed);
        }
        let Ok(()) = self.bytes.extend_from_slice(&bytes[..count]) else {
            unreachable!();
        };
        Ok(count)
    }
}
