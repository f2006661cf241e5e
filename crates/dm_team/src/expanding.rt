//! One node of a search whose workers share the least cost that they have found.
ghost use Rattle.std.specs.Prelude.{◌≡◌, ◌≤◌, ◌++◌, min, IfOk, OnErr};
ghost use Rattle.dm_base.specs.declared.limits.TheConstants.{PENALTY};
ghost use Rattle.dm_rows.specs.Decide.{IsChoiceList};
ghost use Rattle.dm_rows.specs.Rows.{IsSized};
ghost use Rattle.dm_bound.specs.Words.{nothing_looked};
ghost use Rattle.dm_task.specs.Tasks.{task_of, IsPosedTask};
ghost use Rattle.dm_traverse.specs.Moving.{IsOver};
ghost use Rattle.dm_team.specs.Expanding.{limit_of, telling, IsExpanded, IsSeenBy, HasOnlyLooked, IsSameHand};

use dm_base::Cost;
use dm_bound::{BoundWord, Hand};
use dm_evaluate::Evaluator;
use dm_network::Network;
use dm_rows::{Choice, Decision, Snapshot};
use dm_task::Task;
use dm_traverse::{Outcome, step, step_by};
use std::alloc::{AllocError, Global};

/// What a search does with a path over the rows of a snapshot, where the best choices so far cost what the word tells: it looks
/// at the word once, and where nothing is violated it lowers the word by the cost. Where it wants memory it has looked at the word,
/// and lowered it by nothing. The path decides free choices, none twice. The penalty is in seconds for each passenger, at most
/// 1,000,000.
pub fn expand(
    alloc: Global,
    net: &Network,
    penalty: u64,
    snapshot: &Snapshot,
    path: &[Decision],
    word: &BoundWord,
    hand: &mut Hand,
) -> Result<Outcome, AllocError>
    requires sized { IsSized net.now snapshot.now.rows }
    requires penalty { penalty ≤ PENALTY }
    requires list { IsChoiceList net.now snapshot.now.rows path.now }
    requires word { hand.old.word ≡ word.now.id }
    ensures expanded { IfOk result (IsExpanded net.now snapshot.now.rows path.now penalty hand.old hand.new) }
    ensures wanting { OnErr result (HasOnlyLooked hand.old hand.new) }
    ensures hand { IsSameHand hand.old hand.new }
{
    let seen = word.look(hand);
    match step(alloc, net, penalty, snapshot, path, limit(seen)) {
        Ok(outcome) => {
            tell(word, hand, &outcome);
            Ok(outcome)
        }
        Err(fault) => Err(fault),
    }
}

/// The same for a path behind the base of a task, by an evaluator that goes there from where it stands, with the value that the
/// word had. It branches on the choice that it is hinted at, where that one is violated, and else on the first. This is what workers
/// call.
pub fn expand_with(
    task: &Task<'_>,
    evaluator: &mut Evaluator,
    path: &[Decision],
    hint: Option<Choice>,
    word: &BoundWord,
    hand: &mut Hand,
) -> Result<(u64, Outcome), AllocError>
    requires posed { IsPosedTask task.now }
    requires evaluator { IsOver (task_of task.now) evaluator.old }
    requires list { IsChoiceList task.now.net.now task.now.rows.now (task.now.base.now ++ path.now) }
    requires word { hand.old.word ≡ word.now.id }
    ensures seen { IfOk result (λ r. IsSeenBy task.now.net.now task.now.rows.now (task.now.base.now ++ path.now) task.now.penalty hint
        hand.old hand.new r.0 r.1) }
    ensures wanting { OnErr result (HasOnlyLooked hand.old hand.new) }
    ensures evaluator { IsOver (task_of task.now) evaluator.new }
    ensures hand { IsSameHand hand.old hand.new }
{
    let seen = word.look(hand);
    match step_by(task, evaluator, path, limit(seen), hint) {
        Ok(outcome) => {
            tell(word, hand, &outcome);
            Ok((seen, outcome))
        }
        Err(fault) => Err(fault),
    }
}

/// Lowers the word by the cost of what is solved.
fn tell(word: &BoundWord, hand: &mut Hand, outcome: &Outcome)
    requires word { hand.old.word ≡ word.now.id }
    ensures { hand.new ≡ telling hand.old outcome.now }
{
    match outcome {
        Outcome::Cycle => {}
        Outcome::Pruned(_cost) => {}
        Outcome::Solved(cost, _choices) => word.lower(hand, capped(*cost)),
        Outcome::Branch(_cost, _choice) => {}
    }
}

/// The cost from which on the value of a word prunes: the greatest value prunes nothing.
fn limit(seen: u64) -> Cost
    ensures { result ≡ limit_of seen }
{
    if seen == u64::MAX {
        Cost::MAX
    } else {
        seen as Cost
    }
}

/// A cost as a word holds it: one above the greatest value is passed as that value.
pub fn capped(cost: Cost) -> u64
    ensures { result ≡ min cost nothing_looked }
{
    if cost < u64::MAX as Cost {
        cost as u64
    } else {
        u64::MAX
    }
}
