//! New items, which a journal can keep.
ghost use Rattle.std.specs.Prelude.{◌≤◌, All, length};
ghost use Rattle.dm_items.specs.Holding.{IsHeldPart};
ghost use Rattle.dm_watch.specs.Settled.{new_items};

use dm_items::items_are_held;
use dm_tail::{Growing, Watched};

/// The items of a feed that were not yet shown: it only reads them, and tells a proof that types and memory hold them.
fn new_is_held<T: Growing + Drop>(watched: &Watched<T>)
    requires { watched.now.shown ≤ length watched.now.log.items }
    ensures { IsHeldPart (new_items watched.now) }
{
    items_are_held(&watched.log[watched.shown..]);
}

/// The same of feeds.
pub(crate) fn new_are_held<T: Growing + Drop>(feeds: &[Watched<T>])
    requires { All (λ w. w.shown ≤ length w.log.items) feeds.now }
    ensures { All (λ w. IsHeldPart (new_items w)) feeds.now }
{
    for watched in feeds {
        new_is_held(watched);
    }
}
