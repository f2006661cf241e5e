//! The protocol of a deque, and what each kind of step tells.
use crate::account::Account;
use crossbeam_deque::protocol::{Join, Lesson, Outcome, Protocol, Split};
use std::marker::{Brand, PhantomData};

/// What every task of a deque is. Each search picks it.
pub trait Grown<T> {
    ghost fits: { T → Type 0 };
}

impl<T> Grown<T> for Brand {
    ghost fits = { λ _. Unit {0} };
}

/// The protocol: no task is lost or doubled, and every task fits.
pub struct Fair<G> {
    of: PhantomData<G>,
}

impl<T, G: Grown<T>> Protocol<T, Account<T>> for Fair<G> {
    ghost use Rattle.dm_deques.specs.Rule.{Balanced, opening, spent};

    ghost holds = { Balanced G.fits };

    ghost first = { opening };

    // No pass is made but by the owner.
    ghost guest = { spent };
}

/// A task is put.
pub struct Put;

impl<T> Outcome<T, Account<T>> for Put {
    ghost use Rattle.dm_deques.specs.Inside.Steps.{HasPut};

    ghost then = { HasPut };
}

/// A task is taken, which fits; or there was none at one moment.
pub struct Take<G> {
    of: PhantomData<G>,
}

impl<T, G: Grown<T>> Outcome<T, Account<T>> for Take<G> {
    ghost use Rattle.dm_deques.specs.Inside.Steps.{HasTaken};
    ghost use Rattle.dm_deques.specs.Rule.{WasEmpty};

    ghost then = { HasTaken G.fits };

    ghost empty = { WasEmpty };
}

/// A task is stolen, which fits.
pub struct Steal<G> {
    of: PhantomData<G>,
}

impl<T, G: Grown<T>> Outcome<T, Account<T>> for Steal<G> {
    ghost use Rattle.dm_deques.specs.Inside.Steps.{HasTaken};

    ghost then = { HasTaken G.fits };
}

/// The owner learns what the deque holds.
pub struct Whole;

impl<T> Lesson<T, Account<T>> for Whole {
    ghost use Rattle.dm_deques.specs.Inside.Steps.{HasWhole};

    ghost fact = { HasWhole };
}

/// A tally is lent.
pub struct Lend;

impl<T> Split<Account<T>> for Lend {
    ghost use Rattle.dm_deques.specs.Deques.{lending};
    ghost use Rattle.dm_deques.specs.Rule.{fresh};

    ghost left = { lending };

    ghost right = { λ _. fresh };
}

/// A tally is taken in.
pub struct Glue;

impl<T> Join<Account<T>> for Glue {
    ghost use Rattle.dm_deques.specs.Deques.{settled};
    ghost use Rattle.dm_deques.specs.Rule.{spent as left};

    ghost both = { settled };

    ghost spent = { left };
}
