//! Choices by place.
ghost use Rattle.std.specs.Prelude.{◌<◌, IfSome, IfNone};
ghost use Rattle.dm_paths.specs.Places.{IsPlaceOf, HasNoPlace};

use dm_base::{ActId, EventId};
use dm_network::Network;
use dm_rows::Choice;

/// Where a choice stands in a network.
#[derive(Clone, Copy)]
pub enum ChoicePlace {
    /// The place of the activity that is the change.
    Change(usize),

    /// The place of the pair.
    Pair(usize),
}

/// The place of a choice, or None where it is none of the network's.
pub fn place_of_choice(net: &Network, choice: Choice) -> Option<ChoicePlace>
    ensures some { IfSome result (IsPlaceOf net.now choice) }
    ensures none { IfNone result (HasNoPlace net.now choice) }
{
    match choice {
        Choice::Change(a) => place_of_change(net, a),
        Choice::Pair(i, j) => place_of_pair(net, i, j),
    }
}

/// The place of a change, or None where there is no such activity.
fn place_of_change(net: &Network, a: ActId) -> Option<ChoicePlace>
    ensures some { IfSome result (IsPlaceOf net.now (Choice.Change a)) }
    ensures none { IfNone result (HasNoPlace net.now (Choice.Change a)) }
{
    net.reveal();
    match net.act_place(a) {
        Some(place) => Some(ChoicePlace::Change(place)),
        None => None,
    }
}

/// The place of a pair by the id of its small event and that of its large one, or None where there is none.
fn place_of_pair(net: &Network, i: EventId, j: EventId) -> Option<ChoicePlace>
    ensures some { IfSome result (IsPlaceOf net.now (Choice.Pair i j)) }
    ensures none { IfNone result (HasNoPlace net.now (Choice.Pair i j)) }
{
    net.reveal();
    let Some(x) = net.place_of(i) else {
        return None;
    };
    let Some(y) = net.place_of(j) else {
        return None;
    };
    let Some(pair) = net.pair_of(x, y) else {
        return None;
    };
    if net.pair(pair).small != x {
        return None;
    }
    Some(ChoicePlace::Pair(pair))
}
