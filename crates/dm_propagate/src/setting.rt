//! Decisions that are set one after another.
ghost use Rattle.std.specs.Prelude.{◌≡◌, All, fold};
ghost use Rattle.dm_network.specs.Net.{Net};
ghost use Rattle.dm_rows.specs.Reach.{ReachesFlip};
ghost use Rattle.dm_rows.specs.Resolve.{after_flip};
ghost use Rattle.dm_rows.specs.Rows.{IsSized};

use dm_rows::{Change, Flip, Rows};

/// Sets each decision in turn.
pub fn set_flips(rows: &mut Rows, flips: &[Flip])
    requires { All (ReachesFlip rows.old) flips.now }
    ensures set { rows.new ≡ fold after_flip rows.old flips.now }
    ensures sizes { (net : Net) → IsSized net rows.old → IsSized net rows.new }
{
    for flip in flips {
        rows.apply(&Change::Flipped(*flip));
    }
}
