//! The changes of a network, by place.
ghost use Rattle.std.specs.Prelude.{◌≡◌, ◌+◌, ◌<◌, ◌++◌, [], ◌∷◌, length, IfOk};
ghost use Rattle.dm_network.specs.Net.{activity_at, is_change};
ghost use Rattle.dm_check_times.specs.Changes.{AreChangesTo};

use dm_base::ActKind;
use dm_network::Network;
use std::alloc::{AllocError, Global};

/// The places of a network's changes.
pub fn changes_of(alloc: Global, net: &Network) -> Result<Vec<usize>, AllocError>
    ensures { IfOk result (λ changes. AreChangesTo net.now (length net.now.activities) changes.items) }
{
    let mut changes = Vec::new(alloc);
    for a in 0..net.activities() {
        changes = with_change(net, a, changes)?;
    }
    Ok(changes)
}

/// The places with that of an activity, if it is a change.
fn with_change(net: &Network, a: usize, changes: Vec<usize>) -> Result<Vec<usize>, AllocError>
    requires is_activity { a < length net.now.activities }
    requires changes { AreChangesTo net.now a changes.items }
    ensures { IfOk result (λ more. AreChangesTo net.now (a + 1) more.items) }
{
    if is_change(net, a) {
        pushed(changes, a)
    } else {
        Ok(changes)
    }
}

/// Whether an activity is a change.
fn is_change(net: &Network, a: usize) -> bool
    requires { a < length net.now.activities }
    ensures { result ≡ is_change (activity_at net.now a).kind }
{
    net.reveal();
    matches!(net.activity(a).kind, ActKind::Change)
}

/// The places with one more.
fn pushed(places: Vec<usize>, a: usize) -> Result<Vec<usize>, AllocError>
    ensures { IfOk result (λ more. more.items ≡ places.items ++ a ∷ []) }
{
    let mut places = places;
    places.push(a)?;
    Ok(places)
}
