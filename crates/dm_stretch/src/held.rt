//! Which choices are held.
ghost use Rattle.std.specs.Prelude.{◌≡◌, ◌<◌, map, length, Some, IfOk, IfErr};
ghost use Rattle.dm_stretch.specs.Held.{choice_at, choice_named, MakesNoChoice};

use dm_base::{ActId, ActKind, Items};
use dm_network::Network;
use dm_rows::{Choice, choice_of_pair};
use std::alloc::Global;

/// Why choices cannot be held.
#[derive(Drop)]
pub enum HeldFault {
    /// The id of the first activity that there is not, or that makes no choice.
    NoChoice(u32),

    /// There is not enough memory.
    OutOfMemory,
}

/// The choices of the activities with these ids, in their order: of a change whether it is kept, of a headway which event of its pair goes
/// first.
pub fn held_choices(alloc: Global, net: &Network, ids: &[u32]) -> Result<Items<Choice>, HeldFault>
    ensures held { IfOk result (λ held. map (choice_named net.now) ids.now ≡ map Some held) }
    ensures refused { IfErr result (MakesNoChoice net.now ids.now) }
{
    let mut held = Vec::new(alloc);
    for id in ids {
        let Some(choice) = choice_named(net, *id) else {
            return Err(HeldFault::NoChoice(*id));
        };
        let Ok(()) = held.push(choice) else {
            return Err(HeldFault::OutOfMemory);
        };
    }
    Ok(Items::from_vec(held))
}

/// The choice of the activity with this id.
fn choice_named(net: &Network, id: u32) -> Option<Choice>
    ensures { result ≡ choice_named net.now id }
{
    match net.act_place(ActId(id)) {
        Some(a) => choice_at(net, a),
        None => None,
    }
}

/// The choice of the activity at a place.
fn choice_at(net: &Network, a: usize) -> Option<Choice>
    requires { a < length net.now.activities }
    ensures { result ≡ choice_at net.now a }
{
    net.reveal();
    let activity = net.activity(a);
    if activity.kind == ActKind::Change {
        return Some(Choice::Change(activity.id));
    }
    match activity.pair {
        Some(p) => Some(choice_of_pair(net, p)),
        None => None,
    }
}
