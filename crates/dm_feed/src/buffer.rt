//! Bytes that were taken from a source and wait to be looked at.
ghost use Rattle.std.specs.Prelude.{◌≡◌, ◌+◌, ◌-◌, ◌<◌, ◌≤◌, [], length, take, drop, IfOk, OnErr, IsErr};
ghost use Rattle.std.specs.Io.KnownBytes.{Keeps};
ghost use Rattle.dm_outside.specs.Faults.{Counts};
ghost use Rattle.dm_outside.specs.Taking.{TakesPiece};

use dm_outside::{Failed, Source};
use std::marker::Model;

/// How many bytes fit. A line that is too long is known before they are full.
const SIZE: usize = 4096;

/// Bytes that are put in behind and let go in front. Bytes are moved only where there is no room behind.
#[derive(Drop)]
pub(crate) struct Buffer {
    bytes: [u8; SIZE],
    start: usize,
    end: usize,
}

impl Model for Buffer {
    ghost use Rattle.std.specs.Prelude.{List, ℕ, take, drop, ◌-◌, ◌≤◌};

    ghost Value = { List ℕ };

    ghost view = { λ buffer. take (buffer.end - buffer.start) (drop buffer.start buffer.bytes) };

    ghost invariant = { λ buffer. (buffer.start ≤ buffer.end) × (buffer.end ≤ 4096) };
}

// Moves the bytes between two places to the front.
fn move_to_front(bytes: &mut [u8], start: usize, end: usize)
    requires order { start ≤ end }
    requires within { end ≤ length bytes.old }
    ensures { take (end - start) bytes.new ≡ take (end - start) (drop start bytes.old) }
{
    bytes.copy_within(start..end, 0);
}

// Reads up to so many bytes from the source, behind the first ones.
fn read_behind<S: Source>(
    source: &mut S,
    bytes: &mut [u8],
    held: usize,
    most: usize,
) -> Result<usize, Failed>
    requires some { 0 < most }
    requires room { held + most ≤ length bytes.old }
    ensures short { IfOk result (λ count. count ≤ most) }
    ensures ok { IfOk result (λ count. TakesPiece (S.left source.old) (S.left source.new) (take held bytes.old)
        (take (held + count) bytes.new) count) }
    ensures kept { take held bytes.new ≡ take held bytes.old }
    ensures err { OnErr result (Keeps (S.left source.old) (S.left source.new)) }
    ensures cause { Counts (S.faults source.old) (S.faults source.new) result }
    ensures sound { IsErr result → S.is_sound source.old → ⊥ }
    ensures stays_sound { S.is_sound source.old → S.is_sound source.new }
{
    source.read(&mut bytes[held..held + most])
}

impl Buffer {
    /// A buffer without bytes.
    pub(crate) fn new() -> Buffer
        ensures { result ≡ [] }
    {
        Buffer {
            bytes: [0; SIZE],
            start: 0,
            end: 0,
        }
    }

    /// The bytes that wait.
    pub(crate) fn as_slice(&self) -> &[u8]
        ensures same { result.now ≡ self.now }
        ensures short { length self.now ≤ 4096 }
    {
        &self.bytes[self.start..self.end]
    }

    /// Lets the first bytes go.
    pub(crate) fn drop_front(&mut self, count: usize)
        requires { count ≤ length self.old }
        ensures { self.new ≡ drop count self.old }
    {
        self.start += count;
    }

    /// Lets all bytes go.
    pub(crate) fn clear(&mut self)
        ensures { self.new ≡ [] }
    {
        self.start = 0;
        self.end = 0;
    }

    /// Takes the next bytes of the source, at most so many. No bytes are the end of the source.
    pub(crate) fn read_from<S: Source>(
        &mut self,
        source: &mut S,
        most: usize,
    ) -> Result<usize, Failed>
        requires some { 0 < most }
        requires room { length self.old < 4096 }
        ensures short { IfOk result (λ count. count ≤ most) }
        ensures ok { IfOk result (λ count. TakesPiece (S.left source.old) (S.left source.new) self.old self.new count) }
        ensures err { OnErr result (self.new ≡ self.old) }
        ensures err_kept { OnErr result (Keeps (S.left source.old) (S.left source.new)) }
        ensures cause { Counts (S.faults source.old) (S.faults source.new) result }
        ensures sound { IsErr result → S.is_sound source.old → ⊥ }
        ensures stays_sound { S.is_sound source.old → S.is_sound source.new }
    {
        if self.end == SIZE {
            move_to_front(&mut self.bytes, self.start, self.end);
            self.end -= self.start;
            self.start = 0;
        }
        let room = most.min(SIZE - self.end);
        let Ok(count) = read_behind(source, &mut self.bytes, self.end, room) else {
            return Err(Failed);
        };
        self.end += count;
        Ok(count)
    }
}
