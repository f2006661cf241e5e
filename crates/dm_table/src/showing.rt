//! Why rows were refused.
ghost use Rattle.std.specs.Prelude.{ℕ, ◌<◌, ◌≤◌, OnOk, OnErr, IfErr, IsOk, length, slice_index};
ghost use Rattle.dm_base.specs.declared.limits.TheConstants.{ENTRIES as MOST};
ghost use Rattle.dm_rows.specs.Rows.{RowsValue};
ghost use Rattle.dm_rows.specs.declared.messages.Message.{Message as MessageValue};
ghost use Rattle.dm_table.specs.Answers.{RefusesPost};
ghost use Rattle.dm_table.specs.Inside.Trying.{IsTried, IsAccepted, ShowsPlaces};

use dm_base::limits::ENTRIES;
use dm_graph::search::Cyclic;
use dm_network::Network;
use dm_rows::Refusal;
use dm_settle::ids_of;
use std::alloc::{AllocError, Global};

/// The answer to a message whose rows were tried at a history of so many entries: a cycle of these goes before a full
/// history.
pub fn answer(
    alloc: Global,
    net: &Network,
    cycle: &[usize],
    outcome: Result<(), Cyclic>,
    entries: u32,
) -> Result<(), Refusal>
    requires few { entries ≤ MOST }
    requires cycle { OnErr outcome ((k : ℕ) → k < length cycle.now → slice_index cycle.now k < length net.now.activities) }
    ensures made { OnOk result (IsOk outcome) }
    ensures accepted { OnOk result ((rows : RowsValue) (m : MessageValue) → IsTried net.now rows m cycle.now outcome
        → IsAccepted net.now rows entries m) }
    ensures full { OnErr result (OnOk outcome (MOST ≤ entries)) }
    ensures refused { IfErr result (λ r. (rows : RowsValue) (m : MessageValue) → IsTried net.now rows m cycle.now outcome
        → RefusesPost net.now rows entries m r) }
{
    match outcome {
        Ok(()) => {
            if entries < ENTRIES {
                Ok(())
            } else {
                Err(Refusal::Full(entries))
            }
        }
        Err(Cyclic) => Err(cycle_refusal(alloc, net, cycle)),
    }
}

/// The refusal for a cycle: the ids of its activities, unless there is not enough memory for them.
fn cycle_refusal(alloc: Global, net: &Network, cycle: &[usize]) -> Refusal
    requires { (k : ℕ) → k < length cycle.now → slice_index cycle.now k < length net.now.activities }
    ensures { ShowsPlaces net.now cycle.now result }
{
    match ids_of(alloc, net, cycle) {
        Ok(ids) => Refusal::Cycle(ids),
        Err(AllocError) => Refusal::OutOfMemory,
    }
}
