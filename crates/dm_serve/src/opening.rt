//! The feeds of a server at its start.
ghost use Rattle.std.specs.Prelude.{◌≡◌, IfOk, IfErr, IfSome, drop, slice_get};
ghost use Rattle.dm_words.specs.Asked.{names_in};
ghost use Rattle.dm_serve.specs.Inside.Opening.{AreUnread, IsUnopened, IsUnread};

use dm_tail::{Growing, Tail, Watched};
use dm_words::Names;
use std::alloc::Global;

/// Why feeds are not read.
#[derive(Clone, Copy, PartialEq, Eq)]
pub enum Unopened {
    OutOfMemory,

    /// The feed of this place, from 0, was not opened.
    Feed(usize),
}

/// The feeds, of which nothing was read.
pub fn watched_of<T: Growing + Drop>(
    alloc: Global,
    feeds: Vec<Option<T>>,
) -> Result<Vec<Watched<T>>, Unopened>
    ensures unread { IfOk result (λ unread. AreUnread feeds.items unread.items) }
    ensures unopened { IfErr result (IsUnopened feeds.items) }
{
    let Ok(mut all) = Vec::with_capacity(alloc, feeds.len()) else {
        return Err(Unopened::OutOfMemory);
    };
    for feed in feeds {
        let Some(feed) = feed else {
            return Err(Unopened::Feed(all.len()));
        };
        let watched = unread(alloc, feed);
        let Ok(()) = all.push(watched) else {
            return Err(Unopened::OutOfMemory);
        };
    }
    Ok(all)
}

/// A feed of which nothing was read.
fn unread<T: Growing + Drop>(alloc: Global, feed: T) -> Watched<T>
    ensures feed { result.tail.feed ≡ feed }
    ensures unread { IsUnread result }
{
    Watched {
        tail: Tail::new(alloc, feed),
        lines: 0,
        log: Vec::new(alloc),
        shown: 0,
    }
}

/// The name at this place, from 0, or no name.
pub fn name_at<'a>(names: Names<'a>, place: usize) -> &'a str
    ensures { IfSome (slice_get (names_in names.entry) place) (λ name. result.now ≡ name) }
{
    let mut rest = names;
    for _item in 0..place {
        rest = behind_first(rest);
    }
    match rest.split_first() {
        Some((name, _)) => name,
        None => "",
    }
}

/// The names behind the first, or none.
fn behind_first<'a>(names: Names<'a>) -> Names<'a>
    ensures { names_in result ≡ drop 1 (names_in names.entry) }
{
    match names.split_first() {
        Some((_, rest)) => rest,
        None => names,
    }
}
