//! What the workers of a search find.
ghost use Rattle.std.specs.Prelude.{◌≡◌, ◌+◌, ◌<◌, ◌≤◌, [], length, min, All, IfOk, IfSome};
ghost use Rattle.dm_base.specs.declared.limits.TheConstants.{WORKERS};
ghost use Rattle.dm_bound.specs.Words.{nothing_looked};
ghost use Rattle.dm_task.specs.Tasks.{task_of, IsPosedTask};
ghost use Rattle.dm_rows.specs.Active.{HasNoCycle};
ghost use Rattle.dm_traverse.specs.Moving.{IsOver};
ghost use Rattle.dm_team.specs.Nodes.{guided_by, PicksNodes};
ghost use Rattle.dm_team.specs.Accounts.{IsAccounted, IsDrained};
ghost use Rattle.dm_team.specs.Found.{IsOwnCost, AreKept, IsFound};
ghost use Rattle.dm_team.specs.Inside.Teams.{IsNewIn, AreHandedInBy};
ghost use Rattle.dm_team.specs.Inside.Together.{AreDone, IsFirstHand};

use crate::expanding::capped;
use crate::gathering::{Gathered, drain_all, gather, nothing_gathered, settle_all};
use crate::mustering::{enlist, equip, muster};
use crate::pace::Pace;
use crate::working::{Best, Path, Team, Worker};
use dm_base::Cost;
use dm_bound::{BoundWord, Hand};
use dm_deques::{Grown, Owner};
use dm_desk::HoldPoint;
use dm_evaluate::Evaluator;
use dm_task::{Guide, Task};
use dm_tree::Leaf;
use std::alloc::AllocError;
use std::sync::Wait;
use std::thread;
use std::thread::Threads;

/// What workers begin with: how many they are, what the rows cost by themselves, choices that are kept, a hand of the word, and
/// evaluators of the task, which are lent to the workers while there are any. Who has none makes one.
#[derive(Drop)]
pub struct Beginning {
    pub workers: u32,
    pub own: Cost,
    pub best: Best,
    pub hand: Hand,
    pub evaluators: Vec<Evaluator>,
}

/// The deques, which are empty, the leaves that workers have handed in, the paths that were given up, the cheapest choices that
/// were found, the hands made one, and an evaluator of the task that comes back from a worker, if any does.
#[derive(Drop)]
pub struct Found<F: Grown<Path>> {
    pub owners: Vec<Owner<Path, F>>,
    pub leaves: Vec<Leaf>,
    pub given_up: Vec<Path>,
    pub best: Best,
    pub hand: Hand,
    pub evaluator: Option<Evaluator>,
}

/// What workers find of a guide's tree, 1 to 16 of them, each on a deque of its own and on those of the others, which hold nodes. They
/// begin with the root, with what the rows cost by themselves, where the word starts, and with choices that are kept. Each node that
/// was put on a deque was taken, once, and was handed in with a leaf, or given up, or it branched. No leaf's path is a front of
/// another's. The choices cost no more than those that they began with, and than each cost by which the word was lowered. All
/// seats of the hand come back.
pub fn find<F: Grown<Path> + Send + Sync, R: Threads + Wait + Sync, H: HoldPoint + Sync>(
    rt: &R,
    task: &Task<'_>,
    guide: &Guide,
    beginning: Beginning,
    word: &BoundWord,
    gate: &H,
) -> Result<Found<F>, AllocError>
    requires posed { IsPosedTask task.now }
    requires no_cycle { HasNoCycle task.now.net.now task.now.rows.now }
    requires workers { (1 ≤ beginning.workers) × (beginning.workers ≤ WORKERS) }
    requires picks { PicksNodes (guided_by task.now guide.now) F.fits }
    requires own { IsOwnCost (task_of task.now) beginning.own }
    requires kept { AreKept (task_of task.now) beginning.own beginning.best.choices beginning.best.cost }
    requires word { (beginning.hand.word ≡ word.now.id) × (beginning.hand.start ≡ min beginning.own nothing_looked) }
    requires new { (beginning.hand.lowered ≡ []) × (beginning.workers < beginning.hand.room) }
    requires evaluators { All (IsOver (task_of task.now)) beginning.evaluators.items }
    ensures found { IfOk result (λ found. IsFound (guided_by task.now guide.now) beginning.own found.hand
        found.leaves.items found.best.choices found.best.cost) }
    ensures accounted { IfOk result (λ found. IsAccounted (guided_by task.now guide.now) found.owners.items
        found.leaves.items found.given_up.items) }
    ensures drained { IfOk result (λ found. All IsDrained found.owners.items) }
    ensures owners { IfOk result (λ found. length found.owners.items ≡ beginning.workers) }
    ensures no_dearer { IfOk result (λ found. found.best.cost ≤ beginning.best.cost) }
    ensures word { IfOk result (λ found. (found.hand.word ≡ word.now.id) × (found.hand.room ≡ beginning.hand.room)) }
    ensures evaluator { IfOk result (λ found. IfSome found.evaluator (IsOver (task_of task.now))) }
{
    let alloc = task.alloc;
    task.net.reveal();
    let Beginning {
        workers,
        own,
        best,
        mut hand,
        evaluators,
    } = beginning;
    let start = capped(own);
    word.lower(&mut hand, capped(best.cost));
    let (owners, thieves) = enlist::<F>(alloc, workers)?;
    let equipped = equip(alloc, owners)?;
    let mustered = muster(alloc, word, &mut hand, own, equipped, evaluators)?;
    let share = task.budget.saturating_sub(1) / (2 * workers as u64);
    let pace = Pace::new(workers);
    let team = Team {
        task,
        guide,
        own,
        word,
        start,
        thieves: &thieves,
        pace: &pace,
        share,
    };
    let worked = work_all(rt, &team, mustered, gate)?;
    put_together(task, guide, own, best, word, hand, worked)
}

/// All workers do their work at once, each in a thread of its own where one can be made.
fn work_all<F: Grown<Path> + Send + Sync, R: Threads + Wait + Sync, H: HoldPoint + Sync>(
    rt: &R,
    team: &Team<'_, '_, F>,
    mustered: Vec<Worker<F>>,
    gate: &H,
) -> Result<Vec<Result<Worker<F>, AllocError>>, AllocError>
    requires posed { IsPosedTask team.now.task.now }
    requires picks { PicksNodes (guided_by team.now.task.now team.now.guide.now) F.fits }
    requires no_cycle { HasNoCycle team.now.task.now.net.now team.now.task.now.rows.now }
    requires own { IsOwnCost (task_of team.now.task.now) team.now.own }
    requires new { All (IsNewIn team.now) mustered.items }
    ensures { IfOk result (λ worked. AreHandedInBy team.now mustered.items worked.items) }
{
    thread::map_vec(
        rt,
        mustered,
        &|worker: Worker<F>| worker.work(rt, team, gate),
    )
}

/// What all workers have found, each node that they put taken once.
fn put_together<F: Grown<Path>>(
    task: &Task<'_>,
    guide: &Guide,
    own: Cost,
    best: Best,
    word: &BoundWord,
    hand: Hand,
    worked: Vec<Result<Worker<F>, AllocError>>,
) -> Result<Found<F>, AllocError>
    requires kept { AreKept (task_of task.now) own best.choices best.cost }
    requires hand { IsFirstHand own best.cost word.now.id hand }
    requires worked { AreDone (guided_by task.now guide.now) own word.now.id hand.start worked.items }
    ensures found { IfOk result (λ found.
        IsFound (guided_by task.now guide.now) own found.hand found.leaves.items found.best.choices found.best.cost) }
    ensures accounted { IfOk result (λ found. IsAccounted (guided_by task.now guide.now) found.owners.items
        found.leaves.items found.given_up.items) }
    ensures drained { IfOk result (λ found. All IsDrained found.owners.items) }
    ensures owners { IfOk result (λ found. length found.owners.items ≡ length worked.items) }
    ensures no_dearer { IfOk result (λ found. found.best.cost ≤ best.cost) }
    ensures word { IfOk result (λ found. (found.hand.word ≡ word.now.id) × (found.hand.room ≡ hand.room + length worked.items)) }
    ensures evaluator { IfOk result (λ found. IfSome found.evaluator (IsOver (task_of task.now))) }
{
    let first = nothing_gathered(task.alloc, best, hand);
    let all = gather(word, first, worked)?;
    let Gathered {
        owners,
        tallies,
        hand,
        leaves,
        mut given_up,
        best,
        evaluator,
    } = all;
    let settled = settle_all(task.alloc, owners, tallies)?;
    let owners = drain_all(task.alloc, settled, &mut given_up)?;
    Ok(Found {
        owners,
        leaves,
        given_up,
        best,
        hand,
        evaluator,
    })
}
