//! The walk by which an event is reached.
ghost use Rattle.std.specs.Prelude.{ℕ, ◌≡◌, ◌<◌, Bool, true, length, IfOk};
ghost use Rattle.dm_journey.specs.Inside.Reaching.{reach_at, by_of, IsExactly, AreReached, IsTraced};

use crate::reaching::Reach;
use dm_graph::search::Search;
use dm_network::Network;
use std::alloc::{AllocError, Global};

/// The walk by which an event is reached, from its beginning on.
pub fn walk_to(
    alloc: Global,
    net: &Network,
    search: &Search,
    reached: &[Option<Reach>],
    last: usize,
) -> Result<Vec<usize>, AllocError>
    requires reached { AreReached net.now (λ e. true) (λ a. true) search.now.ranks reached.now }
    requires ranks { length search.now.ranks ≡ length net.now.events }
    requires is_event { last < length net.now.events }
    ensures { (n : ℕ) (begins usable : ℕ → Bool) → IsExactly (reach_at reached.now last) n →
        AreReached net.now begins usable search.now.ranks reached.now →
        IfOk result (λ v. IsTraced net.now begins usable last v.items n) }
{
    net.reveal();
    let ranks = search.ranks();
    let mut walk = Vec::new(alloc);
    let mut event = last;
    while let Some(a) = activity_to(reached, event) {
        let tail = net.activity(a).tail;
        prove!(ranks[tail] < ranks[event]);
        walk.push(a)?;
        event = tail;
    }
    walk.reverse();
    Ok(walk)
}

/// The activity by which an event is reached, or `None` where it is not, or the walk begins there.
fn activity_to(reached: &[Option<Reach>], event: usize) -> Option<usize>
    requires { event < length reached.now }
    ensures { result ≡ by_of (reach_at reached.now event) }
{
    reached[event]?.by
}
