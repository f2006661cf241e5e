//! The feeds of a run, opened in order.

ghost use Rattle.std.specs.Prelude.{◌≡◌, map, IfOk};
ghost use Rattle.dm_input.specs.Stops.{IsKept};
ghost use Rattle.dm_words.specs.Asked.{names_in};
ghost use Rattle.dm_commands.specs.Inside.Stages.{AreOpened, IsOpened};

use dm_outside::Shelf;
use dm_words::Names;
use std::alloc::{AllocError, Global};

/// The names of feeds, in their order.
pub fn names_of<'a>(alloc: Global, feeds: Names<'a>) -> Result<Vec<&'a str>, AllocError>
    ensures { IfOk result (λ names. map (λ name. name.now) names.items ≡ names_in feeds.entry) }
{
    let mut names = Vec::new(alloc);
    let mut rest = feeds;
    while let Some((name, others)) = rest.split_first() {
        match names.push(name) {
            Ok(()) => {}
            Err(error) => return Err(error.into()),
        }
        rest = others;
    }
    Ok(names)
}

/// Opens the feeds of these names, one after the other. One that cannot be opened is `None`.
pub fn open_feeds<H: Shelf>(
    alloc: Global,
    shelf: &mut H,
    names: &[&str],
) -> Result<Vec<Option<H::Src>>, AllocError>
    ensures kept { IsKept H.files H.is_sound shelf.old shelf.new }
    ensures opened { IfOk result (λ feeds. AreOpened H.Src.left H.Src.is_sound (H.files shelf.old) (H.is_sound shelf.old)
        (map (λ name. name.now) names.now) feeds.items) }
{
    let mut feeds = Vec::with_capacity(alloc, names.len())?;
    for name in names {
        let feed = open_feed(shelf, name);
        match feeds.push(feed) {
            Ok(()) => {}
            Err(error) => return Err(error.into()),
        }
    }
    Ok(feeds)
}

fn open_feed<H: Shelf>(shelf: &mut H, name: &str) -> Option<H::Src>
    ensures kept { IsKept H.files H.is_sound shelf.old shelf.new }
    ensures opened { IsOpened H.Src.left H.Src.is_sound (H.files shelf.old) (H.is_sound shelf.old) name.now result }
{
    match shelf.open(name) {
        Ok(source) => Some(source),
        Err(_) => None,
    }
}
