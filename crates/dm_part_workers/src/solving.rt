//! Jobs that several workers solve at once.
ghost use Rattle.std.specs.Prelude.{◌≡◌, ◌+◌, ◌∷◌, [], All, length, IfOk};
ghost use Rattle.std.specs.Thread.{IsSync};
ghost use Rattle.dm_deques.specs.Sharing.{new_tally};
ghost use Rattle.dm_part_workers.specs.Jobs.{WeighAlike};
ghost use Rattle.dm_part_workers.specs.Inside.Handing.{IsHand};

use crate::handing::{Hand, lend_all, put_all, settle_all, take_rest};
use crate::working::work;
use dm_deques::{Owner, Tally, Thief};
use dm_divide::{Job, in_turn};
use dm_probe::Mover;
use std::alloc::{AllocError, Global};
use std::marker::Brand;
use std::thread::{Threads, join};

/// The jobs, solved by the first mover and by each of the others in a thread of its own, where one can be made. However jobs are
/// weighed, those that come back weigh what those that were given did: each comes back once, of the same group and terms.
pub fn solve_all<R: Threads + Sync>(
    rt: &R,
    alloc: Global,
    jobs: Vec<Job>,
    first: &mut Mover<'_>,
    others: &mut [Mover<'_>],
) -> Result<Vec<Job>, AllocError>
    ensures same { IfOk result (λ back. WeighAlike back.items jobs.items) }
{
    if others.is_empty() {
        return in_turn(jobs, first, &mut []);
    }
    let many = jobs.len();
    let mut owner = Owner::<Job, Brand>::new(alloc)?;
    let thief = owner.thief()?;
    put_all(&mut owner, jobs)?;
    let tallies = lend_all(alloc, &mut owner, others.len() + 1)?;
    let hands = work_all(rt, alloc, &thief, many, tallies, first, others)?;
    let mut back = Vec::with_capacity(alloc, many)?;
    settle_all(&mut owner, hands, &mut back)?;
    take_rest(&mut owner, many, first, &mut back)?;
    Ok(back)
}

/// Each worker takes jobs, in a thread of its own where one can be made. This one starts them all, and works as the first then.
#[cycle(take)]
fn work_all<R: Threads + Sync>(
    rt: &R,
    alloc: Global,
    thief: &Thief<Job, Brand>,
    many: usize,
    tallies: Vec<Tally<Job>>,
    first: &mut Mover<'_>,
    others: &mut [Mover<'_>],
) -> Result<Vec<Hand>, AllocError>
    requires as_many { length tallies.items ≡ length others.old + 1 }
    requires new { All (λ t. t ≡ new_tally thief.now) tallies.items }
    ensures hands { IfOk result (λ hands. All (IsHand thief.now) hands.items) }
    ensures as_many { IfOk result (λ hands. length hands.items ≡ length tallies.items) }
{
    let mut tallies = tallies;
    let Some(tally) = tallies.pop() else {
        unreachable!()
    };
    let Some((last, rest)) = others.split_last_mut() else {
        return one_hand(alloc, work(alloc, thief, many, tally, first)?);
    };
    let (hand, before) = join(
        rt,
        move || -> Result<Hand, AllocError>
            requires { tally ≡ new_tally thief.now }
            ensures { IfOk result (IsHand thief.entry.now) }
        { work(alloc, thief, many, tally, last) },
        move || -> Result<Vec<Hand>, AllocError>
            requires { IsSync R.row × ((length tallies.items ≡ length rest.now + 1) × All (λ t. t ≡ new_tally thief.now) tallies.items) }
            ensures { IfOk result (λ hands. All (IsHand thief.entry.now) hands.items × (length hands.items ≡ length tallies.items)) }
        { work_all(rt, alloc, thief, many, tallies, first, rest) },
    );
    let mut hands = before?;
    hands.push(hand?)?;
    Ok(hands)
}

fn one_hand(alloc: Global, hand: Hand) -> Result<Vec<Hand>, AllocError>
    ensures { IfOk result (λ hands. hands.items ≡ hand ∷ []) }
{
    let mut hands = Vec::new(alloc);
    hands.push(hand)?;
    Ok(hands)
}
