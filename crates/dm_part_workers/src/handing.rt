//! A deque of jobs, and what workers take from it.
ghost use Rattle.std.specs.Prelude.{◌≡◌, ◌≤◌, [], length, All, IfOk, OnOk};
ghost use Rattle.dm_deques.specs.Sharing.{new_tally};
ghost use Rattle.dm_part_workers.specs.Inside.Handing.{HasPut, HasLent, HasSettled, IsEmptied, IsHand};

use dm_deques::{Owner, Tally};
use dm_divide::Job;
use dm_probe::Mover;
use std::alloc::{AllocError, Global};
use std::marker::Brand;

/// What a worker has taken from the deque, and the jobs that it has solved.
#[derive(Drop)]
pub(crate) struct Hand {
    pub(crate) tally: Tally<Job>,
    pub(crate) done: Vec<Job>,
}

/// Puts jobs on a deque.
pub(crate) fn put_all(owner: &mut Owner<Job, Brand>, jobs: Vec<Job>) -> Result<(), AllocError>
    ensures { OnOk result (HasPut owner.old owner.new jobs.items) }
{
    for job in jobs {
        let Ok(()) = owner.put(job) else {
            return Err(AllocError);
        };
    }
    Ok(())
}

/// So many tallies of a deque, of which none has taken anything.
pub(crate) fn lend_all(
    alloc: Global,
    owner: &mut Owner<Job, Brand>,
    many: usize,
) -> Result<Vec<Tally<Job>>, AllocError>
    ensures owner { OnOk result (HasLent many owner.old owner.new) }
    ensures tallies { IfOk result (λ ts. All (λ t. t ≡ new_tally owner.old.deque) ts.items) }
    ensures as_many { IfOk result (λ ts. length ts.items ≡ many) }
{
    let mut tallies = Vec::with_capacity(alloc, many)?;
    for _worker in 0..many {
        tallies.push(owner.tally())?;
    }
    Ok(tallies)
}

/// Takes in what workers have done.
pub(crate) fn settle_all(
    owner: &mut Owner<Job, Brand>,
    hands: Vec<Hand>,
    back: &mut Vec<Job>,
) -> Result<(), AllocError>
    requires { All (IsHand owner.old.deque) hands.items }
    ensures { OnOk result (HasSettled owner.old owner.new hands.items back.old.items back.new.items) }
{
    for hand in hands {
        let Hand { tally, mut done } = hand;
        owner.settle(tally);
        back.append(&mut done)?;
    }
    Ok(())
}

/// Solves what is left on a deque that held at most so many jobs, where no tally is out.
pub(crate) fn take_rest(
    owner: &mut Owner<Job, Brand>,
    many: usize,
    mover: &mut Mover<'_>,
    back: &mut Vec<Job>,
) -> Result<(), AllocError>
    requires none_out { owner.old.account.lent ≡ 0 }
    requires few { length owner.old.account.put ≤ many }
    ensures { OnOk result (IsEmptied owner.old owner.new back.old.items back.new.items) }
{
    for _job in 0..many {
        let Some(job) = owner.take() else {
            return Ok(());
        };
        back.push(job.solved(mover)?)?;
    }
    // It tells that nothing is left.
    let _left = owner.count();
    Ok(())
}
