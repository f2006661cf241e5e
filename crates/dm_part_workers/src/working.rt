//! What one worker does.
ghost use Rattle.std.specs.Prelude.{◌≡◌, IfOk, OnOk};
ghost use Rattle.dm_deques.specs.Rule.{fresh};
ghost use Rattle.dm_part_workers.specs.Inside.Handing.{IsHand};

use crate::handing::Hand;
use dm_deques::{Tally, Thief};
use dm_divide::Job;
use dm_probe::Mover;
use std::alloc::{AllocError, Global};
use std::marker::Brand;

/// How often a worker tries to steal beyond the number of jobs.
const SPARE: usize = 64;

/// Steals jobs, of which there are at most so many, and solves them.
pub(crate) fn work(
    alloc: Global,
    thief: &Thief<Job, Brand>,
    many: usize,
    tally: Tally<Job>,
    mover: &mut Mover<'_>,
) -> Result<Hand, AllocError>
    requires deque { tally.deque ≡ thief.now }
    requires new { tally.account ≡ fresh }
    ensures { IfOk result (IsHand thief.now) }
{
    let mut hand = Hand {
        tally,
        done: Vec::new(alloc),
    };
    for _try in 0..many.saturating_add(SPARE) {
        hand.take_one(thief, mover)?;
    }
    Ok(hand)
}

impl Hand {
    /// Steals a job and solves it, if there is one.
    fn take_one(
        &mut self,
        thief: &Thief<Job, Brand>,
        mover: &mut Mover<'_>,
    ) -> Result<(), AllocError>
        requires { IsHand thief.now self.old }
        ensures { OnOk result (IsHand thief.now self.new) }
    {
        let Some(job) = thief.steal(&mut self.tally) else {
            return Ok(());
        };
        self.done.push(job.solved(mover)?)?;
        Ok(())
    }
}
