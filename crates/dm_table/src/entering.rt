//! One message that is entered, or refused.
ghost use Rattle.std.specs.Prelude.{◌≡◌, ◌≤◌, [], All, fold, length, OnOk, OnErr, IfErr, vec_capacity};
ghost use Rattle.dm_base.specs.declared.limits.TheConstants.{ENTRIES as MOST};
ghost use Rattle.dm_propagate.specs.Engine.{IsEngineOf, times_of};
ghost use Rattle.dm_propagate.specs.Moved.{TakesInMoved, TakesInCancelled};
ghost use Rattle.dm_rows.specs.Reach.{Reaches, ReachesFlip};
ghost use Rattle.dm_rows.specs.Refuse.{IsAdopt};
ghost use Rattle.dm_rows.specs.Resolve.{after, after_change, after_flip};
ghost use Rattle.dm_table.specs.Value.{decisions_in};
ghost use Rattle.dm_table.specs.Answers.{RefusesPost};
ghost use Rattle.dm_table.specs.Inside.Trying.{IsUnmoved, HasTried, IsAccepted};

use crate::resolving::resolve;
use crate::showing::answer;
use dm_base::Steps;
use dm_base::limits::ENTRIES;
use dm_graph::search::Cyclic;
use dm_network::Network;
use dm_propagate::Engine;
use dm_rows::{Change, Decision, Flip, Message, Refusal, admit};
use std::alloc::Global;
use std::sync::ledger::Ledger;

/// Makes the change of a message that comes at a history of so many entries, or says why it is refused: then the engine's
/// rows and times are as before. The engine notes the events whose times move, and those that are cancelled or restored. The
/// flips of an adopted list stand meanwhile in room that was made for them.
pub fn enter<L: Ledger>(
    alloc: Global,
    net: &Network,
    engine: &mut Engine,
    flips: &mut Vec<Flip>,
    entries: u32,
    message: &Message,
    steps: &mut Steps<L>,
) -> Result<(), Refusal>
    requires engine { IsEngineOf net.now engine.old }
    requires few { entries ≤ MOST }
    requires empty { flips.old.items ≡ [] }
    requires room { decisions_in message.now ≤ vec_capacity flips.old }
    ensures engine { IsEngineOf net.now engine.new }
    ensures empty { flips.new.items ≡ [] }
    ensures room { vec_capacity flips.new ≡ vec_capacity flips.old }
    ensures rows { OnOk result (engine.new.rows ≡ after net.now engine.old.rows message.now) }
    ensures accepted { OnOk result (IsAccepted net.now engine.old.rows entries message.now) }
    ensures unmoved { OnErr result (IsUnmoved engine.old engine.new) }
    ensures refused { IfErr result (RefusesPost net.now engine.old.rows entries message.now) }
    ensures moved { TakesInMoved engine.old.moved.flags engine.new.moved.flags (times_of engine.old) (times_of engine.new) }
    ensures cancelled { TakesInCancelled engine.new.moved.flags engine.old.rows engine.new.rows }
{
    match message {
        Message::Adopt(decisions) => enter_list(
            alloc,
            net,
            engine,
            flips,
            entries,
            decisions.as_slice(),
            steps,
        ),
        _ => enter_one(alloc, net, engine, entries, message, steps),
    }
}

/// The same for a message that is no adopted list.
#[tactic(auto, using(crate::proofs::Noting::cancelled_stay))]
fn enter_one<L: Ledger>(
    alloc: Global,
    net: &Network,
    engine: &mut Engine,
    entries: u32,
    message: &Message,
    steps: &mut Steps<L>,
) -> Result<(), Refusal>
    requires engine { IsEngineOf net.now engine.old }
    requires few { entries ≤ MOST }
    requires no_list { IsAdopt message.now → ⊥ }
    ensures engine { IsEngineOf net.now engine.new }
    ensures rows { OnOk result (engine.new.rows ≡ after net.now engine.old.rows message.now) }
    ensures accepted { OnOk result (IsAccepted net.now engine.old.rows entries message.now) }
    ensures unmoved { OnErr result (IsUnmoved engine.old engine.new) }
    ensures refused { IfErr result (RefusesPost net.now engine.old.rows entries message.now) }
    ensures moved { TakesInMoved engine.old.moved.flags engine.new.moved.flags (times_of engine.old) (times_of engine.new) }
    ensures cancelled { TakesInCancelled engine.new.moved.flags engine.old.rows engine.new.rows }
{
    let change = match admit(alloc, net, engine.rows(), message) {
        Ok(change) => change,
        Err(refusal) => return Err(refusal),
    };
    let outcome = try_change(net, engine, entries, &change, steps);
    answer(alloc, net, engine.last_cycle(), outcome, entries)
}

/// The same for an adopted list.
#[tactic(auto, using(crate::proofs::Noting::cancelled_stay))]
fn enter_list<L: Ledger>(
    alloc: Global,
    net: &Network,
    engine: &mut Engine,
    flips: &mut Vec<Flip>,
    entries: u32,
    decisions: &[Decision],
    steps: &mut Steps<L>,
) -> Result<(), Refusal>
    requires engine { IsEngineOf net.now engine.old }
    requires few { entries ≤ MOST }
    requires empty { flips.old.items ≡ [] }
    requires room { length decisions.now ≤ vec_capacity flips.old }
    ensures engine { IsEngineOf net.now engine.new }
    ensures empty { flips.new.items ≡ [] }
    ensures room { vec_capacity flips.new ≡ vec_capacity flips.old }
    ensures rows { OnOk result (engine.new.rows ≡ after net.now engine.old.rows (Message.Adopt decisions.now)) }
    ensures accepted { OnOk result (IsAccepted net.now engine.old.rows entries (Message.Adopt decisions.now)) }
    ensures unmoved { OnErr result (IsUnmoved engine.old engine.new) }
    ensures refused { IfErr result (RefusesPost net.now engine.old.rows entries (Message.Adopt decisions.now)) }
    ensures moved { TakesInMoved engine.old.moved.flags engine.new.moved.flags (times_of engine.old) (times_of engine.new) }
    ensures cancelled { TakesInCancelled engine.new.moved.flags engine.old.rows engine.new.rows }
{
    match resolve(net, engine.rows(), decisions, flips) {
        Ok(()) => {
            let outcome = try_flips(net, engine, entries, flips, steps);
            flips.clear();
            answer(alloc, net, engine.last_cycle(), outcome, entries)
        }
        Err(refusal) => {
            flips.clear();
            Err(refusal)
        }
    }
}

/// Makes a change where a history of so many entries takes one more, and else only tries it.
#[tactic(auto, using(crate::proofs::Noting::cancelled_stay))]
fn try_change<L: Ledger>(
    net: &Network,
    engine: &mut Engine,
    entries: u32,
    change: &Change,
    steps: &mut Steps<L>,
) -> Result<(), Cyclic>
    requires engine { IsEngineOf net.now engine.old }
    requires reaches { Reaches engine.old.rows change.now }
    ensures tried { HasTried net.now entries (after_change engine.old.rows change.now) engine.old engine.new result }
    ensures moved { TakesInMoved engine.old.moved.flags engine.new.moved.flags (times_of engine.old) (times_of engine.new) }
    ensures cancelled { TakesInCancelled engine.new.moved.flags engine.old.rows engine.new.rows }
{
    if entries < ENTRIES {
        engine.update(net, change, steps)
    } else {
        engine.try_update(net, change, steps)
    }
}

/// The same for the decisions of an adopted list.
#[tactic(auto, using(crate::proofs::Noting::cancelled_stay))]
fn try_flips<L: Ledger>(
    net: &Network,
    engine: &mut Engine,
    entries: u32,
    flips: &[Flip],
    steps: &mut Steps<L>,
) -> Result<(), Cyclic>
    requires engine { IsEngineOf net.now engine.old }
    requires reach { All (ReachesFlip engine.old.rows) flips.now }
    ensures tried { HasTried net.now entries (fold after_flip engine.old.rows flips.now) engine.old engine.new result }
    ensures moved { TakesInMoved engine.old.moved.flags engine.new.moved.flags (times_of engine.old) (times_of engine.new) }
    ensures cancelled { TakesInCancelled engine.new.moved.flags engine.old.rows engine.new.rows }
{
    if entries < ENTRIES {
        engine.adopt(net, flips, steps)
    } else {
        engine.try_adopt(net, flips, steps)
    }
}
