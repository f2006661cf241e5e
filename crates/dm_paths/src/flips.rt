//! What a decision of a free choice names.
ghost use Rattle.std.specs.Prelude.{◌≡◌, Some, Contains};
ghost use Rattle.dm_network.specs.Net.{event_place};
ghost use Rattle.dm_rows.specs.Decide.{free_choices_of, choice_of};
ghost use Rattle.dm_rows.specs.Resolve.{flip_named, first_named};
ghost use Rattle.dm_paths.specs.Decisions.{ReachesNet};
ghost use Rattle.dm_paths.specs.Decisions.{IsFlipOf};

use dm_base::EventId;
use dm_network::Network;
use dm_rows::{Decision, Flip, Rows};

/// The flip of a decision of a free choice.
pub fn flip_of(net: &Network, rows: &Rows, decision: Decision) -> Flip
    requires { Contains (free_choices_of net.now rows.now) (choice_of decision) }
    ensures flip { IsFlipOf net.now rows.now decision result }
    ensures named { flip_named net.now decision ≡ Some result }
    ensures reaches { ReachesNet net.now result }
{
    net.reveal();
    let Some(flip) = flip_named(net, decision) else {
        unreachable!();
    };
    flip
}

/// The decision by place, or None where what it names is not there.
fn flip_named(net: &Network, decision: Decision) -> Option<Flip>
    ensures { result ≡ flip_named net.now decision }
{
    match decision {
        Decision::Keep(a) => match net.act_place(a) {
            Some(act) => Some(Flip::Keep { act }),
            None => None,
        },
        Decision::Drop(a) => match net.act_place(a) {
            Some(act) => Some(Flip::Drop { act }),
            None => None,
        },
        Decision::First(i, j) => first_named(net, i, j),
    }
}

/// The first of two events goes first in their pair, or None where they form none.
fn first_named(net: &Network, i: EventId, j: EventId) -> Option<Flip>
    ensures { result ≡ first_named net.now (event_place net.now i) (event_place net.now j) }
{
    let x = net.place_of(i)?;
    let y = net.place_of(j)?;
    let pair = net.pair_of(x, y)?;
    Some(Flip::First {
        pair,
        small: net.pair(pair).small == x,
    })
}
