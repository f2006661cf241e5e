//! The tallies of one thread with many deques.
ghost use Rattle.std.specs.Prelude.{◌≡◌, map, IfOk};
ghost use Rattle.dm_deques.specs.Sharing.{new_tally, having_lent, settling_each, deque_of};

use crate::deque::{Owner, Tally};
use crate::rule::Grown;
use std::alloc::{AllocError, Global};

/// Deques, in order, and a tally that each of them has lent.
#[derive(Drop)]
pub struct Lent<T: Drop, G: Grown<T>> {
    pub owners: Vec<Owner<T, G>>,
    pub tallies: Vec<Tally<T>>,
}

/// Each owner lends a tally, in order.
pub fn lend_each<T: Drop, G: Grown<T>>(
    alloc: Global,
    owners: Vec<Owner<T, G>>,
) -> Result<Lent<T, G>, AllocError>
    ensures owners { IfOk result (λ r. r.owners.items ≡ map having_lent owners.items) }
    ensures tallies { IfOk result (λ r. r.tallies.items ≡ map new_tally (map deque_of owners.items)) }
{
    let mut lent = Lent {
        owners: Vec::with_capacity(alloc, owners.len())?,
        tallies: Vec::with_capacity(alloc, owners.len())?,
    };
    for owner in owners {
        let mut owner = owner;
        lent.tallies.push(owner.tally())?;
        lent.owners.push(owner)?;
    }
    Ok(lent)
}

/// Each owner takes in the tally of its deque, in order.
pub fn settle_each<T: Drop, G: Grown<T>>(
    alloc: Global,
    owners: Vec<Owner<T, G>>,
    tallies: Vec<Tally<T>>,
) -> Result<Vec<Owner<T, G>>, AllocError>
    requires { map deque_of tallies.items ≡ map deque_of owners.items }
    ensures { IfOk result (λ r. r.items ≡ settling_each owners.items tallies.items) }
{
    let mut settled = Vec::with_capacity(alloc, owners.len())?;
    let mut due = tallies;
    due.reverse();
    for owner in owners {
        let mut owner = owner;
        let Some(tally) = due.pop() else {
            unreachable!()
        };
        owner.settle(tally);
        settled.push(owner)?;
    }
    Ok(settled)
}
