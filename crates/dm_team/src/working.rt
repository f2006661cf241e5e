//! What one worker does.
ghost use Rattle.std.specs.Prelude.{ℕ, ◌≡◌, ◌++◌, [], ◌∷◌, map, All, IfOk, IfSome, IfNone, OnOk};
ghost use Rattle.dm_rows.specs.Active.{HasNoCycle};
ghost use Rattle.dm_rows.specs.Sides.{first_decision, second_decision};
ghost use Rattle.dm_task.specs.Tasks.{task_of, IsPosedTask};
ghost use Rattle.dm_traverse.specs.Moving.{IsOver};
ghost use Rattle.dm_tree.specs.Plans.{Task as PlanTask};
ghost use Rattle.dm_deques.specs.Sharing.{deque_of};
ghost use Rattle.dm_team.specs.Accounts.{Weight};
ghost use Rattle.dm_team.specs.Nodes.{guided_by, IsNode, PicksNodes};
ghost use Rattle.dm_team.specs.Inside.Workers.{HasTaken, HasStolen, HasFoundNone, IsHandedTo, HasGivenUp, IsBetterOf, HasBranched, IsSameWorker};
ghost use Rattle.dm_team.specs.Inside.Teams.{WorksIn, IsNewIn, IsDoneIn};
ghost use Rattle.dm_team.specs.Found.{IsOwnCost};
ghost use Rattle.dm_team.specs.Inside.Working.{nothing, only};

use crate::expanding::expand_with;
use crate::hints::{branching, is_hinted};
use crate::pace::Pace;
use dm_base::{Cost, Items};
use dm_bound::{BoundWord, Hand};
use dm_deques::{Grown, Owner, Tally, Thief};
use dm_desk::HoldPoint;
use dm_evaluate::Evaluator;
use dm_rows::{Choice, Decision};
use dm_task::{Guide, Task};
use dm_traverse::{Outcome, evaluator_at_base};
use dm_tree::{Leaf, Node};
use std::alloc::{AllocError, Global};
use std::sync::Wait;
use std::thread;

// The points of the gate that a worker passes.
const STARTS: u32 = 3;

const ENDS: u32 = 4;

const EXPANDS: u32 = 5;

/// A path from the root.
pub type Path = Items<Decision>;

/// Choices that differ from the rows, and what the rows cost with them.
#[derive(Drop)]
pub struct Best {
    pub choices: Items<Decision>,
    pub cost: Cost,
}

impl Best {
    /// The rows' own: no choices.
    pub fn of_rows(alloc: Global, own: Cost) -> Best
        ensures { (result.choices ≡ []) × (result.cost ≡ own) }
    {
        Best {
            choices: Items::from_vec(Vec::new(alloc)),
            cost: own,
        }
    }
}

/// One worker of a search: its number from 1, how many branchings it has made, its deque, what it has taken from all deques, its
/// hand of the word, the leaves that it hands in, the nodes that it has given up, its best choices, and an evaluator of the task
/// that is lent to it, if any is.
#[derive(Drop)]
pub(crate) struct Worker<F: Grown<Path>> {
    pub(crate) who: u32,
    pub(crate) branched: u64,
    pub(crate) owner: Owner<Path, F>,
    pub(crate) tallies: Vec<Tally<Path>>,
    pub(crate) hand: Hand,
    pub(crate) leaves: Vec<Leaf>,
    pub(crate) given_up: Vec<Path>,
    pub(crate) best: Best,
    pub(crate) evaluator: Option<Evaluator>,
}

/// What the workers share: what is searched and by which guide, what the rows cost by themselves, the word, the deques, when they
/// stop, and how many branchings each may make.
#[derive(Drop)]
pub(crate) struct Team<'s, 't, F: Grown<Path>> {
    pub(crate) task: &'s Task<'t>,
    pub(crate) guide: &'s Guide,
    pub(crate) own: Cost,
    pub(crate) word: &'s BoundWord,

    /// The value at which the word starts.
    pub(crate) start: u64,
    pub(crate) thieves: &'s Vec<Thief<Path, F>>,
    pub(crate) pace: &'s Pace,
    pub(crate) share: u64,
}

/// Takes the first path of a deque of some thief.
fn steal_any<F: Grown<Path>>(
    thieves: &[Thief<Path, F>],
    tallies: &mut Vec<Tally<Path>>,
) -> Option<Path>
    requires deques { map deque_of tallies.old.items ≡ thieves.now }
    ensures stolen { IfSome result (λ path. F.fits path × HasStolen tallies.old.items tallies.new.items path) }
    ensures none { IfNone result (tallies.new.items ≡ tallies.old.items) }
{
    for place in 0..thieves.len() {
        if let Some(path) = thieves[place].steal(&mut tallies[place]) {
            return Some(path);
        }
    }
    None
}

impl<F: Grown<Path>> Worker<F> {
    /// The last path of its own deque, or the first of another's.
    fn next(&mut self, thieves: &[Thief<Path, F>]) -> Option<Path>
        requires deques { map deque_of self.old.tallies.items ≡ thieves.now }
        ensures taken { IfSome result (λ path. F.fits path × HasTaken self.old self.new path) }
        ensures none { IfNone result (HasFoundNone self.old self.new) }
    {
        match self.owner.take() {
            Some(path) => Some(path),
            None => steal_any(thieves, &mut self.tallies),
        }
    }

    /// Puts a leaf to the others.
    fn hand_in(&mut self, pace: &Pace, path: Path, node: Node) -> Result<(), AllocError>
        ensures handed { OnOk result (IsHandedTo self.old self.new path node) }
        ensures hand { self.new.hand ≡ self.old.hand }
    {
        pace.done();
        self.leaves.push(Leaf { path, node })?;
        Ok(())
    }

    /// Leaves a node to the search that follows.
    fn give_up(&mut self, pace: &Pace, path: Path) -> Result<(), AllocError>
        ensures given_up { OnOk result (HasGivenUp self.old self.new path) }
        ensures hand { self.new.hand ≡ self.old.hand }
    {
        pace.done();
        self.given_up.push(path)?;
        Ok(())
    }

    /// Keeps choices where they cost less than those that it has.
    fn keep(&mut self, cost: Cost, choices: Items<Decision>)
        ensures { IsBetterOf self.old self.new cost choices }
    {
        if cost < self.best.cost {
            self.best = Best { choices, cost };
        }
    }

    /// Puts the two paths below a choice on its deque.
    fn branch(
        &mut self,
        team: &Team<'_, '_, F>,
        path: Path,
        choice: Choice,
    ) -> Result<(), AllocError>
        requires first { F.fits (path ++ first_decision choice ∷ []) }
        requires second { F.fits (path ++ second_decision choice ∷ []) }
        ensures put { OnOk result (HasBranched self.old self.new path choice) }
        ensures hand { self.new.hand ≡ self.old.hand }
    {
        let mut first = Vec::from_slice(team.task.alloc, path.as_slice())?;
        first.push(choice.first())?;
        let mut second = path.into_vec();
        second.push(choice.second())?;
        team.pace.branch();
        self.branched = self.branched.saturating_add(1);
        if self.branched == team.share {
            team.pace.spend();
        }
        let Ok(()) = self.owner.put(Items::from_vec(second)) else {
            return Err(AllocError);
        };
        let Ok(()) = self.owner.put(Items::from_vec(first)) else {
            return Err(AllocError);
        };
        Ok(())
    }

    /// Expands a node: it becomes a leaf, or two nodes where the guide's tree goes on.
    fn expand(
        &mut self,
        team: &Team<'_, '_, F>,
        evaluator: &mut Evaluator,
        path: Path,
    ) -> Result<(), AllocError>
        requires posed { IsPosedTask team.now.task.now }
        requires picks { PicksNodes (guided_by team.now.task.now team.now.guide.now) F.fits }
        requires own { IsOwnCost (task_of team.now.task.now) team.now.own }
        requires node { IsNode (guided_by team.now.task.now team.now.guide.now) path }
        requires evaluator { IsOver (task_of team.now.task.now) evaluator.old }
        requires word { self.old.hand.word ≡ team.now.word.now.id }
        ensures evaluator { IsOver (task_of team.now.task.now) evaluator.new }
        ensures same { OnOk result (IsSameWorker self.old self.new) }
        ensures works { OnOk result ((given : Weight → ℕ) (start : ℕ)
            → WorksIn team.now start given (only path) self.old
            → WorksIn team.now start given nothing self.new) }
    {
        let task = team.task;
        task.net.reveal();
        let hint = branching(team.guide, path.as_slice());
        let (seen, outcome) = expand_with(
            task,
            evaluator,
            path.as_slice(),
            hint,
            team.word,
            &mut self.hand,
        )?;
        match outcome {
            Outcome::Cycle => self.hand_in(team.pace, path, Node::Cycle),
            Outcome::Pruned(cost) => {
                if seen < u64::MAX {
                    self.hand_in(team.pace, path, Node::Bound(cost))
                } else if team.own <= cost {
                    self.hand_in(team.pace, path, Node::Bound(cost))
                } else {
                    // No cost is so great.
                    self.give_up(team.pace, path)
                }
            }
            Outcome::Solved(cost, choices) => {
                self.keep(cost, choices);
                self.hand_in(team.pace, path, Node::Bound(cost))
            }
            Outcome::Branch(cost, choice) => {
                if team.own <= cost {
                    self.hand_in(team.pace, path, Node::Bound(cost))
                } else if is_hinted(hint, choice) {
                    self.branch(team, path, choice)
                } else {
                    self.hand_in(team.pace, path, Node::Open(cost))
                }
            }
        }
    }

    /// Works until no node is left, or until some worker wants memory. What is taken and not expanded is given up.
    fn work_on<R: Wait, H: HoldPoint>(
        self,
        rt: &R,
        team: &Team<'_, '_, F>,
        gate: &H,
    ) -> Result<Worker<F>, AllocError>
        requires posed { IsPosedTask team.now.task.now }
        requires picks { PicksNodes (guided_by team.now.task.now team.now.guide.now) F.fits }
        requires own { IsOwnCost (task_of team.now.task.now) team.now.own }
        requires deques { map deque_of self.tallies.items ≡ team.now.thieves.now.items }
        requires word { self.hand.word ≡ team.now.word.now.id }
        requires evaluator { IfSome self.evaluator (IsOver (task_of team.now.task.now)) }
        ensures evaluator { IfOk result (λ w. IfSome w.evaluator (IsOver (task_of team.now.task.now))) }
        ensures same { IfOk result (IsSameWorker self) }
        ensures works { IfOk result (λ w. (given : Weight → ℕ) (start : ℕ)
            → WorksIn team.now start given nothing self
            → WorksIn team.now start given nothing w) }
    {
        let mut worker = self;
        let mut evaluator = made(team.task, worker.evaluator.take())?;
        worker.take_all(rt, team, &mut evaluator, gate)?;
        worker.evaluator = Some(evaluator);
        Ok(worker)
    }

    /// Takes nodes until none is left.
    fn take_all<R: Wait, H: HoldPoint>(
        &mut self,
        rt: &R,
        team: &Team<'_, '_, F>,
        evaluator: &mut Evaluator,
        gate: &H,
    ) -> Result<(), AllocError>
        requires posed { IsPosedTask team.now.task.now }
        requires picks { PicksNodes (guided_by team.now.task.now team.now.guide.now) F.fits }
        requires own { IsOwnCost (task_of team.now.task.now) team.now.own }
        requires evaluator { IsOver (task_of team.now.task.now) evaluator.old }
        requires deques { map deque_of self.old.tallies.items ≡ team.now.thieves.now.items }
        requires word { self.old.hand.word ≡ team.now.word.now.id }
        ensures evaluator { IsOver (task_of team.now.task.now) evaluator.new }
        ensures same { OnOk result (IsSameWorker self.old self.new) }
        ensures works { OnOk result ((given : Weight → ℕ) (start : ℕ)
            → WorksIn team.now start given nothing self.old
            → WorksIn team.now start given nothing self.new) }
    {
        if team.share == 0 {
            team.pace.spend();
        }
        for _ in rt.forever() {
            // Who may not branch leaves nodes to those who may.
            if self.branched >= team.share && team.pace.others_go_on() {
                thread::yield_now();
                continue;
            }
            match self.next(team.thieves) {
                Some(path) => self.take_on(team, evaluator, path, gate)?,
                None => {
                    if team.pace.has_ended() {
                        return Ok(());
                    }
                    thread::yield_now();
                    continue;
                }
            }
        }
        unreachable!()
    }

    /// Expands a node, or gives it up where no further one is expanded.
    fn take_on<H: HoldPoint>(
        &mut self,
        team: &Team<'_, '_, F>,
        evaluator: &mut Evaluator,
        path: Path,
        gate: &H,
    ) -> Result<(), AllocError>
        requires posed { IsPosedTask team.now.task.now }
        requires picks { PicksNodes (guided_by team.now.task.now team.now.guide.now) F.fits }
        requires own { IsOwnCost (task_of team.now.task.now) team.now.own }
        requires fits { F.fits path }
        requires evaluator { IsOver (task_of team.now.task.now) evaluator.old }
        requires word { self.old.hand.word ≡ team.now.word.now.id }
        ensures evaluator { IsOver (task_of team.now.task.now) evaluator.new }
        ensures same { OnOk result (IsSameWorker self.old self.new) }
        ensures works { OnOk result ((given : Weight → ℕ) (start : ℕ)
            → WorksIn team.now start given (only path) self.old
            → WorksIn team.now start given nothing self.new) }
    {
        if self.branched >= team.share || !team.pace.goes_on() {
            return self.give_up(team.pace, path);
        }
        gate.hold_up(self.who, EXPANDS);
        self.expand(team, evaluator, path)
    }
}

/// The last of some evaluators, if there are any.
pub(crate) fn lend(evaluators: &mut Vec<Evaluator>) -> Option<Evaluator>
    ensures { (task : PlanTask) → All (IsOver task) evaluators.old.items
        → IfSome result (IsOver task) × All (IsOver task) evaluators.new.items }
{
    match evaluators.pop() {
        Some(evaluator) => Some(evaluator),
        None => None,
    }
}

/// An evaluator of the task, made where there is none yet.
pub(crate) fn made(task: &Task<'_>, evaluator: Option<Evaluator>) -> Result<Evaluator, AllocError>
    requires posed { IsPosedTask task.now }
    requires evaluator { IfSome evaluator (IsOver (task_of task.now)) }
    ensures { IfOk result (IsOver (task_of task.now)) }
{
    match evaluator {
        Some(evaluator) => Ok(evaluator),
        None => evaluator_at_base(task),
    }
}

impl<F: Grown<Path>> Worker<F> {
    /// Does the worker's part of a search. Where it wants memory the others stop too.
    pub(crate) fn work<R: Wait, H: HoldPoint>(
        self,
        rt: &R,
        team: &Team<'_, '_, F>,
        gate: &H,
    ) -> Result<Worker<F>, AllocError>
        requires posed { IsPosedTask team.now.task.now }
        requires picks { PicksNodes (guided_by team.now.task.now team.now.guide.now) F.fits }
        requires no_cycle { HasNoCycle team.now.task.now.net.now team.now.task.now.rows.now }
        requires own { IsOwnCost (task_of team.now.task.now) team.now.own }
        requires new { IsNewIn team.now self }
        ensures { IfOk result (IsDoneIn team.now self) }
    {
        let who = self.who;
        gate.hold_up(who, STARTS);
        let worked = self.work_from_root(rt, team, gate);
        if worked.is_err() {
            team.pace.stop();
        }
        gate.hold_up(who, ENDS);
        worked
    }

    fn work_from_root<R: Wait, H: HoldPoint>(
        self,
        rt: &R,
        team: &Team<'_, '_, F>,
        gate: &H,
    ) -> Result<Worker<F>, AllocError>
        requires posed { IsPosedTask team.now.task.now }
        requires picks { PicksNodes (guided_by team.now.task.now team.now.guide.now) F.fits }
        requires no_cycle { HasNoCycle team.now.task.now.net.now team.now.task.now.rows.now }
        requires own { IsOwnCost (task_of team.now.task.now) team.now.own }
        requires new { IsNewIn team.now self }
        ensures { IfOk result (IsDoneIn team.now self) }
    {
        match self.work_on(rt, team, gate) {
            Ok(done) => Ok(done),
            Err(fault) => Err(fault),
        }
    }
}
