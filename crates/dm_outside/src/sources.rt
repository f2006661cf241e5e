//! Where bytes come from.
ghost use Rattle.std.specs.Prelude.{◌≡◌, ℕ, ◌<◌, ◌≤◌, ◌↔◌, List, Option, length, min, IfOk, OnOk, OnErr, IsOk, IsErr};
ghost use Rattle.std.specs.Io.KnownBytes.{ReadConsumes};
ghost use Rattle.dm_outside.specs.Faults.{Counts};
ghost use Rattle.dm_outside.specs.Calls.{IsListed, NoneListed, next_call};

use crate::Failed;
use crate::calls::Calls;
use std::marker::Model;

/// Bytes that are read once, from front to end.
pub trait Source {
    /// The bytes that are left, where the source tells them.
    ghost left: { Self → Option (List ℕ) };

    /// How many of its reads have failed: it never falls.
    ghost faults: { Self → ℕ };

    /// What it tells of its own soundness: where this holds, no later read fails.
    ghost is_sound: { Self → Type 0 };

    /// Reads the next bytes into the front of `buf` and answers how many. No bytes into a `buf` that
    /// is not empty are the end, which comes only where nothing is left. After a failed read the
    /// same bytes are left.
    fn read(&mut self, buf: &mut [u8]) -> Result<usize, Failed>
        ensures count { IfOk result (λ n. n ≤ length buf.old) }
        ensures bytes { ReadConsumes (left self.old) (left self.new) result buf.new }
        ensures cause { Counts (faults self.old) (faults self.new) result }
        ensures sound { is_sound self.old → IsOk result }
        ensures stays_sound { is_sound self.old → is_sound self.new };
}

/// A source in memory.
#[derive(Drop)]
pub struct MemSource<'a> {
    rest: &'a [u8],
    piece: usize,
    fails: &'a [u64],
    calls: Calls,
}

impl<'a> Model for MemSource<'a> {
    ghost use Rattle.std.specs.Prelude.{ℕ, ◌<◌};
    ghost use Rattle.dm_outside.specs.Memory.{SourceValue};

    ghost Value = { SourceValue };

    ghost view = { λ source. record {
      left = source.rest.now;
      piece = source.piece;
      fails = source.fails.now;
      made = source.calls.made;
      faults = source.calls.faults;
    } };

    ghost invariant = { λ source. 0 < source.piece };
}

impl<'a> MemSource<'a> {
    /// A source of these bytes. A read gives at most `piece` of them. The reads whose numbers are in
    /// `fails`, counted from 1, fail.
    pub fn new(bytes: &'a [u8], piece: usize, fails: &'a [u64]) -> MemSource<'a>
        requires { 0 < piece }
        ensures { result ≡ record { left = bytes.now; piece = piece; fails = fails.now; made = 0; faults = 0 } }
    {
        MemSource {
            rest: bytes,
            piece,
            fails,
            calls: Calls::new(),
        }
    }
}

impl Source for MemSource<'_> {
    ghost use Rattle.std.specs.Prelude.{Some};

    ghost left = { λ source. Some source.left };

    ghost faults = { λ source. source.faults };

    ghost is_sound = { λ source. NoneListed source.made source.fails };

    fn read(&mut self, buf: &mut [u8]) -> Result<usize, Failed>
        ensures count { IfOk result (λ n. n ≤ length buf.old) }
        ensures bytes { ReadConsumes (Some self.old.left) (Some self.new.left) result buf.new }
        ensures cause { Counts self.old.faults self.new.faults result }
        ensures sound { NoneListed self.old.made self.old.fails → IsOk result }
        ensures stays_sound { NoneListed self.old.made self.old.fails → NoneListed self.new.made self.new.fails }

        // It fails at the listed calls alone, and else gives as much as may be.
        ensures fails { IsErr result ↔ IsListed self.old.made self.old.fails }
        ensures exact { IfOk result (λ n. n ≡ min self.old.piece (min (length buf.old) (length self.old.left))) }

        // It counts each call, and each fault. But for what is left all else stays.
        ensures counted { self.new.made ≡ next_call self.old.made }
        ensures faultless { OnOk result (self.new.faults ≡ self.old.faults) }
        ensures faulted { OnErr result (self.new.faults ≡ next_call self.old.faults) }
        ensures same_piece { self.new.piece ≡ self.old.piece }
        ensures same_fails { self.new.fails ≡ self.old.fails }
    {
        if self.calls.is_listed(self.fails) {
            self.calls.add_fault();
            return Err(Failed);
        }
        let count = self.piece.min(buf.len().min(self.rest.len()));
        buf[..count].copy_from_slice(&self.rest[..count]);
        self.rest = &self.rest[count..];
        Ok(count)
    }
}
