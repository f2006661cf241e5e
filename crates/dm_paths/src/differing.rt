//! Which decisions differ from the rows.
ghost use Rattle.std.specs.Prelude.{◌≡◌, Some, Contains};
ghost use Rattle.dm_rows.specs.Rows.{IsSized};
ghost use Rattle.dm_rows.specs.Decide.{free_choices_of, choice_of};
ghost use Rattle.dm_tree.specs.Plans.{is_set};
ghost use Rattle.dm_paths.specs.Decisions.{ReachesNet, differs_from};

use crate::flips::flip_of;
use dm_network::Network;
use dm_rows::{Decision, Flip, Rows};

/// Whether a decision of a free choice differs from the rows.
pub fn differs_from(net: &Network, rows: &Rows, decision: Decision) -> bool
    requires sized { IsSized net.now rows.now }
    requires free { Contains (free_choices_of net.now rows.now) (choice_of decision) }
    ensures { result ≡ differs_from net.now rows.now decision }
{
    !is_set(net, rows, flip_of(net, rows, decision))
}

fn is_set(net: &Network, rows: &Rows, flip: Flip) -> bool
    requires sized { IsSized net.now rows.now }
    requires reaches { ReachesNet net.now flip }
    ensures { result ≡ is_set rows.now (Some flip) }
{
    let _places = net.activities();
    match flip {
        Flip::Keep { act } => rows.kept(act),
        Flip::Drop { act } => !rows.kept(act),
        Flip::First { pair, small } => {
            if small {
                rows.small_first(pair)
            } else {
                !rows.small_first(pair)
            }
        }
    }
}
