//! The verdict on a text, and what it says of runs.
ghost use Rattle.std.specs.Prelude.{◌≤◌, ◌↔◌, length, IfOk};
ghost use Rattle.dm_base.specs.declared.limits.TheConstants.{TEXT, PENALTY};
ghost use Rattle.dm_rows.specs.Rows.{IsSized};
ghost use Rattle.dm_cert.specs.declared.limits.TheConstants.{PLANS};
ghost use Rattle.dm_cert.specs.Runs.{IsRunText};
ghost use Rattle.dm_check.specs.FalseRecords.{IsVerdict};
ghost use Rattle.dm_check.specs.Truth.{SaysGood};

use crate::checking::verdict_on;
use crate::verdicts::Verdict;
use dm_network::Network;
use dm_rows::Rows;
use std::alloc::{AllocError, Global};

/// What is told of the text of a run of this network, from these rows at the start and at this penalty, in seconds for each
/// passenger and at most 1,000,000, where a feed may have so many plans, at most 4,096. It is good, with its numbers of entries
/// and plans, exactly where the text is, in one of the versions, that of a true run; else the first record that breaks its rule is
/// told. The text has at most 536,870,912 bytes, and nothing else is asked of it. `Err` is want of memory alone; it is taken for
/// the network and for what the text holds, and not by a number that it names.
pub fn check(
    alloc: Global,
    net: &Network,
    start: &Rows,
    penalty: u64,
    plans: u32,
    text: &[u8],
) -> Result<Verdict, AllocError>
    requires sized { IsSized net.now start.now }
    requires penalty { penalty ≤ PENALTY }
    requires plans { plans ≤ PLANS }
    requires short { length text.now ≤ TEXT }
    ensures verdict { IfOk result (IsVerdict net.now start.now penalty plans text.now) }
    ensures good { IfOk result (λ verdict. SaysGood verdict ↔ IsRunText net.now start.now penalty plans text.now) }
{
    net.reveal();
    start.is_within_limits();
    match verdict_on(alloc, net, start, penalty, plans, text) {
        Ok(verdict) => Ok(verdict),
        Err(AllocError) => Err(AllocError),
    }
}
