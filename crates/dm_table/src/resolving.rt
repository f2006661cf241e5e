//! An adopted list by place, in room that was made before.
ghost use Rattle.std.specs.Prelude.{◌≡◌, ◌≤◌, [], All, OnOk, IfErr, length, Some, vec_capacity};
ghost use Rattle.dm_rows.specs.Reach.{ReachesFlip};
ghost use Rattle.dm_rows.specs.Refuse.{RefusesNothing, RefusesSome};
ghost use Rattle.dm_rows.specs.Resolve.{flips_named};
ghost use Rattle.dm_rows.specs.Rows.{IsSized};

use dm_network::Network;
use dm_rows::{Decision, Flip, Refusal, Rows, flip_of};

/// Puts the flips of a list of decisions, in order, into room for as many. The first decision that is refused stops it.
pub fn resolve(
    net: &Network,
    rows: &Rows,
    decisions: &[Decision],
    flips: &mut Vec<Flip>,
) -> Result<(), Refusal>
    requires sized { IsSized net.now rows.now }
    requires empty { flips.old.items ≡ [] }
    requires room { length decisions.now ≤ vec_capacity flips.old }
    ensures named { OnOk result (flips_named net.now decisions.now ≡ Some flips.new.items) }
    ensures reach { OnOk result (All (ReachesFlip rows.now) flips.new.items) }
    ensures passes { OnOk result (RefusesNothing (RefusesSome net.now rows.now decisions.now)) }
    ensures refused { IfErr result (RefusesSome net.now rows.now decisions.now) }
    ensures room { vec_capacity flips.new ≡ vec_capacity flips.old }
{
    for decision in decisions {
        match flip_of(net, rows, decision) {
            Ok(flip) => flips.push_reserved(flip),
            Err(refusal) => return Err(refusal),
        }
    }
    Ok(())
}
