//! A feed that grows, and the part of it that is not yet answered.
ghost use Rattle.std.specs.Prelude.{◌≡◌, ◌+◌, ◌≤◌, ◌++◌, false, [], length, drop, None, IfOk, OnOk};
ghost use Rattle.dm_feed.specs.Feeds.{IsUnended};

use crate::growing::Growing;
use dm_feed::FeedStop;
use std::alloc::{AllocError, Global};

/// The most bytes that are read of a feed: behind them it is read no further.
pub const LARGEST_FEED: usize = 67_108_864;

/// The most bytes that are read of a feed at once.
pub const PIECE: usize = 65_536;

/// A feed that grows, and what of it is not yet answered.
#[derive(Drop)]
pub struct Tail<T: Growing + Drop> {
    pub feed: T,

    /// What was read and not yet passed.
    pub pending: Vec<u8>,

    /// How many bytes were read.
    pub taken: usize,

    /// Whether a line that ends may be pending.
    pub has_line: bool,

    /// Why the feed is read no further.
    pub stop: Option<FeedStop>,
}

impl<T: Growing + Drop> Tail<T> {
    ghost use Rattle.dm_tail.specs.Watching.{Takes, HasCause, KnowsLines, largest_feed};

    /// The tail of a feed of which nothing was read.
    pub fn new(alloc: Global, feed: T) -> Tail<T>
        ensures feed { result.feed ≡ feed }
        ensures none { result.pending.items ≡ [] }
        ensures taken { result.taken ≡ 0 }
        ensures stop { result.stop ≡ None }
        ensures lines { KnowsLines result }
    {
        Tail {
            feed,
            pending: Vec::new(alloc),
            taken: 0,
            has_line: false,
            stop: None,
        }
    }

    /// Reads the next bytes, as many as the buffer holds at most, unless a line that ends may be pending or the feed is read no
    /// further. It answers how many came. A failed read ends the feed, and so do as many bytes as may be.
    pub fn look(&mut self, buffer: &mut [u8]) -> Result<usize, AllocError>
        requires bytes { self.old.taken ≤ largest_feed }
        requires lines { KnowsLines self.old }
        ensures takes { IfOk result (Takes T.given self.old self.new) }
        ensures bytes { OnOk result (self.new.taken ≤ largest_feed) }
        ensures lines { OnOk result (KnowsLines self.new) }
        ensures cause { OnOk result (HasCause T.faults self.old self.new self.new.stop) }
        ensures source { T.source self.new.feed ≡ T.source self.old.feed }
    {
        if self.has_line || self.stop.is_some() {
            return Ok(0);
        }
        let most = buffer.len().min(LARGEST_FEED - self.taken);
        let Ok(count) = self.feed.read(&mut buffer[..most]) else {
            self.stop = Some(FeedStop::Fault);
            return Ok(0);
        };
        self.take(&buffer[..count])?;
        Ok(count)
    }

    // Takes bytes that were read.
    fn take(&mut self, bytes: &[u8]) -> Result<(), AllocError>
        requires room { self.old.taken + length bytes.now ≤ largest_feed }
        requires lines { KnowsLines self.old }
        requires none { self.old.has_line ≡ false }
        ensures same { self.new.feed ≡ self.old.feed }
        ensures taken { self.new.taken ≡ self.old.taken + length bytes.now }
        ensures pending { OnOk result (self.new.pending.items ≡ self.old.pending.items ++ bytes.now) }
        ensures lines { OnOk result (KnowsLines self.new) }
        ensures cause { OnOk result (HasCause T.faults self.old self.new self.new.stop) }
    {
        self.taken += bytes.len();
        if self.taken == LARGEST_FEED {
            self.stop = Some(FeedStop::Long);
        }
        self.pending.extend_from_slice(bytes)?;
        self.has_line = ends_line(bytes);
        Ok(())
    }

    /// Skips the first bytes that are pending.
    pub fn skip(&mut self, count: usize)
        requires { count ≤ length self.old.pending.items }
        ensures pending { self.new.pending.items ≡ drop count self.old.pending.items }
        ensures feed { self.new.feed ≡ self.old.feed }
        ensures taken { self.new.taken ≡ self.old.taken }
        ensures has_line { self.new.has_line ≡ self.old.has_line }
        ensures stop { self.new.stop ≡ self.old.stop }
    {
        let left = self.pending.len() - count;
        self.pending.copy_within(count.., 0);
        self.pending.truncate(left);
    }
}

/// Whether a line ends in the bytes.
fn ends_line(bytes: &[u8]) -> bool
    ensures { result ≡ false → IsUnended bytes.now }
{
    bytes.contains(&b'\n')
}
