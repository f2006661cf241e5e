//! The workers of a search, before it begins.
ghost use Rattle.std.specs.Prelude.{◌≡◌, ◌-◌, ◌<◌, ◌≤◌, List, [], ◌∷◌, map, All, length, IfOk, OnOk};
ghost use Rattle.dm_deques.specs.Sharing.{deque_of, new_tally};
ghost use Rattle.dm_team.specs.Accounts.{Weight, owners_put};
ghost use Rattle.dm_team.specs.Inside.Gathering.{HasTakenNothing, HasLentOnly, AreEquipped};
ghost use Rattle.dm_traverse.specs.Moving.{IsOver};
ghost use Rattle.dm_tree.specs.Plans.{Task};
ghost use Rattle.dm_team.specs.Inside.Workers.{IsNewWorker, owner_of};

use crate::working::{Best, Path, Worker, lend};
use dm_base::{Cost, Items};
use dm_bound::{BoundWord, Hand};
use dm_deques::{Grown, Lent, Owner, Tally, Thief, lend_each};
use dm_evaluate::Evaluator;
use std::alloc::{AllocError, Global};

/// The deques of so many workers, with the root on the first, and a thief of each.
pub(crate) fn enlist<F: Grown<Path>>(
    alloc: Global,
    workers: u32,
) -> Result<(Vec<Owner<Path, F>>, Vec<Thief<Path, F>>), AllocError>
    requires root { F.fits [] }
    requires some { 1 ≤ workers }
    ensures many { IfOk result (λ r. length r.0.items ≡ workers) }
    ensures thieves { IfOk result (λ r. map deque_of r.0.items ≡ r.1.items) }
    ensures root { IfOk result (λ r. (h : Weight) → owners_put h r.0.items ≡ h []) }
    ensures new { IfOk result (λ r. All (HasLentOnly 0) r.0.items) }
{
    let first = begin(alloc)?;
    let mut owners = Vec::with_capacity(alloc, workers as usize)?;
    let mut thieves = Vec::with_capacity(alloc, workers as usize)?;
    thieves.push(first.thief()?)?;
    owners.push(first)?;
    for _other in 1..workers {
        let owner = Owner::new(alloc)?;
        thieves.push(owner.thief()?)?;
        owners.push(owner)?;
    }
    Ok((owners, thieves))
}

/// A deque that holds the root.
fn begin<F: Grown<Path>>(alloc: Global) -> Result<Owner<Path, F>, AllocError>
    requires root { F.fits [] }
    ensures new { IfOk result (HasLentOnly 0) }
    ensures root { IfOk result (λ o. (h : Weight) → owners_put h (o ∷ []) ≡ h []) }
{
    let mut owner = Owner::new(alloc)?;
    let Ok(()) = owner.put(Items::from_vec(Vec::new(alloc))) else {
        return Err(AllocError);
    };
    Ok(owner)
}

/// Owners that have each lent every worker a tally, and the tallies of each worker, one of each deque.
#[derive(Drop)]
pub(crate) struct Equipped<F: Grown<Path>> {
    pub(crate) owners: Vec<Owner<Path, F>>,
    pub(crate) purses: Vec<Items<Tally<Path>>>,
}

/// Has each deque lend a tally to each worker, of whom there are as many as deques.
pub(crate) fn equip<F: Grown<Path>>(
    alloc: Global,
    owners: Vec<Owner<Path, F>>,
) -> Result<Equipped<F>, AllocError>
    requires new { All (HasLentOnly 0) owners.items }
    ensures { IfOk result (λ r. AreEquipped owners.items r.owners.items (length owners.items) r.purses.items) }
{
    let many = owners.len();
    let mut owners = owners;
    let mut purses = Vec::with_capacity(alloc, many)?;
    for _worker in 0..many {
        let Lent {
            owners: lent,
            tallies,
        } = lend_each(alloc, owners)?;
        owners = lent;
        purses.push(Items::from_vec(tallies))?;
    }
    Ok(Equipped { owners, purses })
}

/// A worker for each deque, with tallies, a hand that is split from the first one, the rows' own choices, and one of the evaluators
/// while there are any.
pub(crate) fn muster<F: Grown<Path>>(
    alloc: Global,
    word: &BoundWord,
    hand: &mut Hand,
    own: Cost,
    equipped: Equipped<F>,
    evaluators: Vec<Evaluator>,
) -> Result<Vec<Worker<F>>, AllocError>
    requires word { hand.old.word ≡ word.now.id }
    requires room { length equipped.owners.items < hand.old.room }
    requires nothing { All HasTakenNothing equipped.owners.items }
    requires purses { All (λ ts. ts ≡ map new_tally (map deque_of equipped.owners.items)) equipped.purses.items }
    requires many { length equipped.purses.items ≡ length equipped.owners.items }
    ensures hand { OnOk result (hand.new ≡ record hand.old { room = hand.old.room - length equipped.owners.items }) }
    ensures owners { IfOk result (λ ws. map owner_of ws.items ≡ equipped.owners.items) }
    ensures new { IfOk result (λ ws. (task : Task) → All (IsOver task) evaluators.items
        → All (IsNewWorker task own word.now.id hand.old.start (map deque_of equipped.owners.items)) ws.items) }
{
    let Equipped { owners, purses } = equipped;
    let mut purses = purses;
    let mut evaluators = evaluators;
    let mut workers = Vec::with_capacity(alloc, owners.len())?;
    let mut who: u32 = 0;
    for owner in owners {
        let Some(tallies) = purses.pop() else {
            unreachable!()
        };
        who = who.saturating_add(1);
        let part = word.split(hand);
        workers.push(Worker {
            who,
            branched: 0,
            owner,
            tallies: tallies.into_vec(),
            hand: part,
            leaves: Vec::new(alloc),
            given_up: Vec::new(alloc),
            best: Best::of_rows(alloc, own),
            evaluator: lend(&mut evaluators),
        })?;
    }
    Ok(workers)
}
