//! Which directions of pairs a timetable does not meet.
ghost use Rattle.std.specs.Prelude.{◌≡◌, ◌==◌, ◌<◌, length, IfOk};
ghost use Rattle.dm_network.specs.Net.{activity_at};
ghost use Rattle.dm_rows.specs.Rows.{IsSized};
ghost use Rattle.dm_rows.specs.Relax.{has_unmet_from};
ghost use Rattle.dm_paths.specs.Flags.{AreFlags};
ghost use Rattle.dm_relax.specs.Inside.Flags.{end_of};

use dm_network::Network;
use dm_rows::Rows;
use dm_times::{Times, comes_too_early};
use std::alloc::{AllocError, Global};

/// Of which pairs some headway out of the small event, or out of the large one, is not met.
pub fn unmet_from(
    alloc: Global,
    net: &Network,
    rows: &Rows,
    times: &Times,
    small: bool,
) -> Result<Vec<bool>, AllocError>
    requires sized { IsSized net.now rows.now }
    requires size { length times.now ≡ length net.now.events }
    ensures { IfOk result (λ flags. AreFlags (λ p. has_unmet_from net.now rows.now times.now p (end_of net.now small p))
        (length net.now.pairs) flags.items) }
{
    net.reveal();
    let mut flags = vec![in alloc; false; net.pairs()]?;
    for a in 0..net.activities() {
        if let Some(p) = net.activity(a).pair {
            if goes_out_of(net, a, p, small) && comes_too_early(net, rows, times, a) {
                flags[p] = true;
            }
        }
    }
    Ok(flags)
}

/// Whether the activity leaves the small event of a pair, or the large one.
fn goes_out_of(net: &Network, a: usize, p: usize, small: bool) -> bool
    requires is_activity { a < length net.now.activities }
    requires is_pair { p < length net.now.pairs }
    ensures { result ≡ ((activity_at net.now a).tail == end_of net.now small p) }
{
    let pair = net.pair(p);
    let end = if small { pair.small } else { pair.large };
    net.activity(a).tail == end
}
