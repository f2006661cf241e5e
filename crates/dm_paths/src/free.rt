//! What is free, and so undecided where nothing is decided.
ghost use Rattle.std.specs.Prelude.{◌≡◌, ◌<◌, [], length, IfOk};
ghost use Rattle.dm_network.specs.Net.{activity_at};
ghost use Rattle.dm_rows.specs.Rows.{IsSized};
ghost use Rattle.dm_rows.specs.Relax.{is_undecided_change, is_undecided_pair, is_of_undecided, is_relaxed_active};
ghost use Rattle.dm_paths.specs.Flags.{AreFlags};

use crate::undecided::Undecided;
use dm_network::Network;
use dm_rows::{Rows, is_active, is_free_change, is_free_pair};
use std::alloc::{AllocError, Global};

/// Every free choice undecided.
pub fn all_undecided(alloc: Global, net: &Network, rows: &Rows) -> Result<Undecided, AllocError>
    requires { IsSized net.now rows.now }
    ensures changes { IfOk result (λ u. AreFlags (is_undecided_change net.now rows.now []) (length net.now.activities) u.changes.items) }
    ensures pairs { IfOk result (λ u. AreFlags (is_undecided_pair net.now rows.now []) (length net.now.pairs) u.pairs.items) }
{
    Ok(Undecided {
        changes: free_changes(alloc, net, rows)?,
        pairs: free_pairs(alloc, net, rows)?,
    })
}

/// Which activities bind where every free choice is undecided.
pub fn binding_flags(alloc: Global, net: &Network, rows: &Rows) -> Result<Vec<bool>, AllocError>
    requires { IsSized net.now rows.now }
    ensures { IfOk result (λ flags. AreFlags (is_relaxed_active net.now rows.now []) (length net.now.activities) flags.items) }
{
    let mut flags = Vec::with_capacity(alloc, net.activities())?;
    for a in 0..net.activities() {
        flags.push(binds(net, rows, a))?;
    }
    Ok(flags)
}

/// Whether an activity binds where every free choice is undecided.
pub fn binds(net: &Network, rows: &Rows, a: usize) -> bool
    requires sized { IsSized net.now rows.now }
    requires is_activity { a < length net.now.activities }
    ensures { result ≡ is_relaxed_active net.now rows.now [] a }
{
    if is_of_free(net, rows, a) {
        return false;
    }
    is_active(net, rows, a)
}

/// Whether an activity belongs to a free choice.
fn is_of_free(net: &Network, rows: &Rows, a: usize) -> bool
    requires sized { IsSized net.now rows.now }
    requires is_activity { a < length net.now.activities }
    ensures { result ≡ is_of_undecided net.now rows.now [] a (activity_at net.now a).pair }
{
    net.reveal();
    match net.activity(a).pair {
        None => is_free_change(net, rows, a),
        Some(p) => is_free_pair(net, rows, p),
    }
}

/// Which activities are free changes.
fn free_changes(alloc: Global, net: &Network, rows: &Rows) -> Result<Vec<bool>, AllocError>
    requires { IsSized net.now rows.now }
    ensures { IfOk result (λ flags. AreFlags (is_undecided_change net.now rows.now []) (length net.now.activities) flags.items) }
{
    let mut flags = Vec::with_capacity(alloc, net.activities())?;
    for a in 0..net.activities() {
        flags.push(is_free_change(net, rows, a))?;
    }
    Ok(flags)
}

/// Which pairs are free.
fn free_pairs(alloc: Global, net: &Network, rows: &Rows) -> Result<Vec<bool>, AllocError>
    requires { IsSized net.now rows.now }
    ensures { IfOk result (λ flags. AreFlags (is_undecided_pair net.now rows.now []) (length net.now.pairs) flags.items) }
{
    let mut flags = Vec::with_capacity(alloc, net.pairs())?;
    for p in 0..net.pairs() {
        flags.push(is_free_pair(net, rows, p))?;
    }
    Ok(flags)
}
