//! An owner's deque, the thieves of other threads, and their tallies.
ghost use Rattle.std.specs.Prelude.{◌≡◌, List, [], ◌∷◌, length, IfOk, IfSome, IfNone, OnOk, IfErr};
ghost use Rattle.dm_deques.specs.Rule.{WasEmpty, Held, opening, fresh};
ghost use Rattle.dm_deques.specs.Deques.{lending, settled, having_put, having_taken};

use crate::account::Account;
use crate::rule::{Fair, Glue, Grown, Lend, Put, Steal, Take, Whole};
use crossbeam_deque::{Pass, Steal as Stolen, Stealer, Worker};
use std::alloc::{AllocError, Global};
use std::marker::Model;

// How many slots a deque begins with.
const SLOTS: usize = 64;

/// The thread that puts tasks on a deque and takes the last ones off.
#[derive(Drop)]
pub struct Owner<T: Drop, G: Grown<T>> {
    worker: Worker<T, Global, Account<T>, Fair<G>>,
}

impl<T: Drop, G: Grown<T>> Model for Owner<T, G> {
    ghost use Rattle.dm_deques.specs.Deques.{TallyValue};
    ghost use Rattle.dm_deques.specs.Inside.Steps.{owner_value, IsOwner};

    ghost Value = { TallyValue T };

    ghost view = { λ o. owner_value o.worker };

    ghost invariant = { λ o. IsOwner o.worker };
}

/// What takes tasks off another thread's deque, the first ones first.
#[derive(Drop)]
pub struct Thief<T: Drop, G: Grown<T>> {
    stealer: Stealer<T, Global, Account<T>, Fair<G>>,
}

impl<T: Drop, G: Grown<T>> Model for Thief<T, G> {
    ghost use Rattle.atomic_blocks.specs.Lent.{RowsId};
    ghost use Rattle.dm_deques.specs.Inside.Steps.{thief_deque};

    ghost Value = { RowsId };

    ghost view = { λ t. thief_deque t.stealer };
}

/// What a thief has taken. It has no bytes, and may go to another thread.
#[derive(Drop)]
pub struct Tally<T: Drop> {
    pass: Pass<T, Account<T>>,
}

impl<T: Drop> Model for Tally<T> {
    ghost use Rattle.dm_deques.specs.Deques.{TallyValue};
    ghost use Rattle.dm_deques.specs.Inside.Steps.{tally_value, IsTally};

    ghost Value = { TallyValue T };

    ghost view = { λ t. tally_value t.pass };

    ghost invariant = { λ t. IsTally t.pass };
}

impl<T: Drop, G: Grown<T>> Owner<T, G> {
    /// An empty deque.
    pub fn new(alloc: Global) -> Result<Owner<T, G>, AllocError>
        ensures { IfOk result (λ o. o.account ≡ opening) }
    {
        Ok(Owner {
            worker: Worker::lifo_as(alloc, SLOTS)?,
        })
    }

    /// A handle for other threads.
    pub fn thief(&self) -> Result<Thief<T, G>, AllocError>
        ensures { IfOk result (λ t. t ≡ self.now.deque) }
    {
        Ok(Thief {
            stealer: self.worker.stealer()?,
        })
    }

    /// Lends a tally, which has taken nothing, to a thread that takes tasks off the deque.
    pub fn tally(&mut self) -> Tally<T>
        ensures owner { self.new ≡ record self.old { account = lending self.old.account } }
        ensures tally { result ≡ record { deque = self.old.deque; account = fresh } }
    {
        Tally {
            pass: self.worker.another::<Lend>(),
        }
    }

    /// Takes in a tally: what it took is the owner's.
    pub fn settle(&mut self, tally: Tally<T>)
        requires deque { tally.deque ≡ self.old.deque }
        ensures settled { self.new ≡ record self.old { account = settled self.old.account tally.account } }
    {
        let Tally { pass } = tally;
        self.worker.absorb::<Glue>(pass);
    }

    /// Puts a task behind the others, or hands it back where the deque cannot grow.
    pub fn put(&mut self, task: T) -> Result<(), T>
        requires fits { G.fits task }
        ensures put { OnOk result (self.new ≡ record self.old { account = having_put self.old.account (task ∷ []) }) }
        ensures refused { IfErr result (λ back. (back ≡ task) × (self.new ≡ self.old)) }
    {
        self.worker.push_as::<Put>(task)
    }

    /// Takes the last task, or finds the deque empty at one moment: where no tally is out, the owner has then taken all that it has
    /// put.
    pub fn take(&mut self) -> Option<T>
        ensures taken { IfSome result (λ task. G.fits task
            × (self.new ≡ record self.old { account = having_taken self.old.account (task ∷ []) })) }
        ensures none { IfNone result ((self.new ≡ self.old) × WasEmpty self.old.account) }
    {
        match self.worker.pop_as::<Take<G>>() {
            Some(task) => Some(task),
            None => None,
        }
    }

    /// How many tasks the deque holds at one moment: where no tally is out, as many as were put and not taken.
    pub fn count(&mut self) -> usize
        ensures same { self.new ≡ self.old }
        ensures counted { (items : List T) × (length items ≡ result) × Held self.old.account items }
    {
        self.worker.len_as::<Whole>()
    }
}

impl<T: Drop, G: Grown<T>> Thief<T, G> {
    /// Takes the first task. None may come although there is one, where others take at the same time.
    pub fn steal(&self, tally: &mut Tally<T>) -> Option<T>
        requires deque { tally.old.deque ≡ self.now }
        ensures taken { IfSome result (λ task. G.fits task
            × (tally.new ≡ record tally.old { account = having_taken tally.old.account (task ∷ []) })) }
        ensures none { IfNone result (tally.new ≡ tally.old) }
    {
        match self.stealer.steal_as::<Steal<G>>(&mut tally.pass) {
            Stolen::Success(task) => Some(task),
            Stolen::Empty | Stolen::Retry => None,
        }
    }
}
