//! The first line of bytes that are in memory.
ghost use Rattle.std.specs.Prelude.{MatchOption};
ghost use Rattle.dm_feed.specs.Feeds.{IsUnended};
ghost use Rattle.dm_feed.specs.Joined.{HearsFirst};

use crate::grammar::Heard;
use crate::reader::{hear_ended, line_feed};

/// What is heard in the first line of the bytes, and the bytes behind its line feed. None where no line ends with one. It takes
/// no memory.
pub fn hear_first(bytes: &[u8]) -> Option<(Heard, &[u8])>
    ensures { MatchOption result (IsUnended bytes.now) (λ first. HearsFirst bytes.now first.0 first.1.now) }
{
    let Some(at) = line_feed(bytes, 0) else {
        return None;
    };
    Some((hear_ended(&bytes[..at]), &bytes[at + 1..]))
}
