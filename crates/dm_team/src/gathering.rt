//! What the workers hand in, put together.
ghost use Rattle.std.specs.Prelude.{ℕ, ◌≡◌, ◌+◌, ◌<◌, ◌≤◌, ◌⊎◌, List, [], ◌∷◌, ◌++◌, length, map, sum_by, All, IfOk, IfSome, None, OnOk};
ghost use Rattle.atomic_blocks.specs.Lent.{RowsId};
ghost use Rattle.dm_deques.specs.Sharing.{deque_of};
ghost use Rattle.dm_traverse.specs.Moving.{IsOver};
ghost use Rattle.dm_tree.specs.Plans.{Task};
ghost use Rattle.dm_team.specs.Nodes.{GuidedTask};
ghost use Rattle.dm_team.specs.Accounts.{Weight, IsDrained, owners_put, owners_taken};
ghost use Rattle.dm_team.specs.Inside.Working.{nothing};
ghost use Rattle.dm_team.specs.Inside.Workers.{IsWorking};
ghost use Rattle.dm_team.specs.Inside.Gathering.{all_taken, HasLent, HasLeft};
ghost use Rattle.dm_team.specs.Inside.Together.{IsGathered, IsGatheredFrom, AreHandedIn};

use crate::working::{Best, Path, Worker};
use dm_base::{Cost, Items};
use dm_bound::{BoundWord, Hand};
use dm_deques::{Grown, Owner, Tally, settle_each};
use dm_evaluate::Evaluator;
use dm_tree::Leaf;
use std::alloc::{AllocError, Global};

/// What all workers have: their deques, what each has taken from all of them, their hands made one, their leaves, the nodes that
/// they have given up, the cheapest of their choices, and the evaluator of one that has any.
#[derive(Drop)]
pub(crate) struct Gathered<F: Grown<Path>> {
    pub(crate) owners: Vec<Owner<Path, F>>,
    pub(crate) tallies: Vec<Items<Tally<Path>>>,
    pub(crate) hand: Hand,
    pub(crate) leaves: Vec<Leaf>,
    pub(crate) given_up: Vec<Path>,
    pub(crate) best: Best,
    pub(crate) evaluator: Option<Evaluator>,
}

impl<F: Grown<Path>> Gathered<F> {
    /// Takes in what a worker has done.
    fn take_in(self, word: &BoundWord, worker: Worker<F>) -> Result<Gathered<F>, AllocError>
        requires word { (self.hand.word ≡ word.now.id) × (worker.hand.word ≡ word.now.id) }
        ensures word { IfOk result (λ g. g.hand.word ≡ word.now.id) }
        ensures owners { IfOk result (λ g. g.owners.items ≡ self.owners.items ++ worker.owner ∷ []) }
        ensures tallies { IfOk result (λ g. g.tallies.items ≡ self.tallies.items ++ worker.tallies.items ∷ []) }
        ensures no_dearer { IfOk result (λ g. g.best.cost ≤ self.best.cost) }
        ensures evaluator { IfOk result (λ g. (task : Task) → IfSome self.evaluator (IsOver task)
            → IfSome worker.evaluator (IsOver task) → IfSome g.evaluator (IsOver task)) }
        ensures gathered { IfOk result (λ g. (task : GuidedTask) (own start rooms : ℕ) (given more : Weight → ℕ)
            → IsGathered task own word.now.id start rooms given self
            → IsWorking task own word.now.id start more nothing worker
            → IsGathered task own word.now.id start (rooms + 1) (λ h. given h + more h) g) }
    {
        let Gathered {
            mut owners,
            mut tallies,
            mut hand,
            mut leaves,
            mut given_up,
            best,
            evaluator,
        } = self;
        let Worker {
            who: _,
            branched: _,
            owner,
            tallies: taken,
            hand: other,
            leaves: mut more,
            given_up: mut left,
            best: found,
            evaluator: lent,
        } = worker;
        word.join(&mut hand, other);
        owners.push(owner)?;
        tallies.push(Items::from_vec(taken))?;
        leaves.append(&mut more)?;
        given_up.append(&mut left)?;
        let best = cheaper(best, found);
        Ok(Gathered {
            owners,
            tallies,
            hand,
            leaves,
            given_up,
            best,
            evaluator: either(evaluator, lent),
        })
    }
}

/// What is gathered before any worker's, with a hand and choices that are kept.
pub(crate) fn nothing_gathered<F: Grown<Path>>(alloc: Global, best: Best, hand: Hand) -> Gathered<F>
    ensures nothing { (result.owners.items ≡ []) × (result.tallies.items ≡ []) × (result.hand ≡ hand)
        × (result.leaves.items ≡ []) × (result.given_up.items ≡ []) × (result.best.choices ≡ best.choices) × (result.best.cost ≡ best.cost) }
    ensures evaluator { result.evaluator ≡ None }
{
    Gathered {
        owners: Vec::new(alloc),
        tallies: Vec::new(alloc),
        hand,
        leaves: Vec::new(alloc),
        given_up: Vec::new(alloc),
        best,
        evaluator: None,
    }
}

/// Puts together what all workers have done, where none of them wanted memory.
pub(crate) fn gather<F: Grown<Path>>(
    word: &BoundWord,
    first: Gathered<F>,
    worked: Vec<Result<Worker<F>, AllocError>>,
) -> Result<Gathered<F>, AllocError>
    requires word { first.hand.word ≡ word.now.id }
    requires words { All (λ r. IfOk r (λ w. w.hand.word ≡ word.now.id)) worked.items }
    ensures no_dearer { IfOk result (λ g. g.best.cost ≤ first.best.cost) }
    ensures evaluator { IfOk result (λ g. (task : Task) → IfSome first.evaluator (IsOver task)
        → All (λ r. IfOk r (λ w. IfSome w.evaluator (IsOver task))) worked.items → IfSome g.evaluator (IsOver task)) }
    ensures gathered { IfOk result (λ g. (task : GuidedTask) (own start rooms : ℕ) (theirs : List RowsId) (jobs : List (Worker F))
        → AreHandedIn task own word.now.id start theirs jobs worked.items
        → IsGatheredFrom task own word.now.id start rooms theirs [] first
        → IsGatheredFrom task own word.now.id start rooms theirs jobs g) }
{
    let mut gathered = first;
    for worker in worked {
        let done = worker?;
        gathered = gathered.take_in(word, done)?;
    }
    Ok(gathered)
}

/// The first of two evaluators, or the second where there is no first.
fn either(one: Option<Evaluator>, other: Option<Evaluator>) -> Option<Evaluator>
    ensures { (task : Task) → IfSome one (IsOver task) → IfSome other (IsOver task) → IfSome result (IsOver task) }
{
    match one {
        Some(evaluator) => Some(evaluator),
        None => other,
    }
}

/// The cheaper of two lists of choices.
fn cheaper(one: Best, other: Best) -> Best
    ensures { ((result ≡ other) × (other.cost < one.cost)) ⊎ ((result ≡ one) × (one.cost ≤ other.cost)) }
{
    if other.cost < one.cost {
        return other;
    }
    one
}

/// Has each owner take in what was taken from its deque.
pub(crate) fn settle_all<F: Grown<Path>>(
    alloc: Global,
    owners: Vec<Owner<Path, F>>,
    tallies: Vec<Items<Tally<Path>>>,
) -> Result<Vec<Owner<Path, F>>, AllocError>
    requires deques { All (λ ts. map deque_of ts ≡ map deque_of owners.items) tallies.items }
    ensures many { IfOk result (λ r. length r.items ≡ length owners.items) }
    ensures put { IfOk result (λ r. (h : Weight) → owners_put h r.items ≡ owners_put h owners.items) }
    ensures taken { IfOk result (λ r. (h : Weight)
        → owners_taken h r.items ≡ owners_taken h owners.items + all_taken h tallies.items) }
    ensures lent { IfOk result (λ r. (n : ℕ) → All (HasLent (n + length tallies.items)) owners.items → All (HasLent n) r.items) }
{
    let mut settled = owners;
    for each in tallies {
        let tallies = each.into_vec();
        settled = settle_each(alloc, settled, tallies)?;
    }
    Ok(settled)
}

/// The owners, with no tally out, once each has taken what is left on its deque, which is given up.
pub(crate) fn drain_all<F: Grown<Path>>(
    alloc: Global,
    owners: Vec<Owner<Path, F>>,
    given_up: &mut Vec<Path>,
) -> Result<Vec<Owner<Path, F>>, AllocError>
    requires { All (HasLent 0) owners.items }
    ensures drained { IfOk result (λ r. All IsDrained r.items) }
    ensures many { IfOk result (λ r. length r.items ≡ length owners.items) }
    ensures put { IfOk result (λ r. (h : Weight) → owners_put h r.items ≡ owners_put h owners.items) }
    ensures taken { IfOk result (λ r. (h : Weight) → owners_taken h r.items + sum_by h given_up.old.items
        ≡ owners_taken h owners.items + sum_by h given_up.new.items) }
{
    let mut drained = Vec::with_capacity(alloc, owners.len())?;
    for owner in owners {
        let mut owner = owner;
        drain(&mut owner, given_up)?;
        drained.push(owner)?;
    }
    Ok(drained)
}

/// Has an owner with no tally out take what is left on its deque, which is given up.
fn drain<F: Grown<Path>>(
    owner: &mut Owner<Path, F>,
    given_up: &mut Vec<Path>,
) -> Result<(), AllocError>
    requires { HasLent 0 owner.old }
    ensures drained { OnOk result (IsDrained owner.new) }
    ensures left { OnOk result (HasLeft owner.old owner.new given_up.old.items given_up.new.items) }
{
    let many = owner.count();
    for _path in 0..many {
        match owner.take() {
            Some(path) => given_up.push(path)?,
            None => return Ok(()),
        }
    }
    let _none = owner.count();
    Ok(())
}
