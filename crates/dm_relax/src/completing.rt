//! The completion of a path that violates nothing.
ghost use Rattle.std.specs.Prelude.{ℕ, ◌≡◌, ◌<◌, ◌++◌, length, None, IfOk};
ghost use Rattle.dm_rows.specs.Rows.{IsSized};
ghost use Rattle.dm_rows.specs.Decide.{IsChoiceList};
ghost use Rattle.dm_relax.specs.Relaxed.{IsRelaxed};
ghost use Rattle.dm_relax.specs.Complete.{completion_of, differences_from, completed_kept, completed_small_first};
ghost use Rattle.dm_relax.specs.Inside.Differing.{differing_change, differing_pair, differing_changes, differing_pairs};

use crate::relaxation::Relaxation;
use crate::relaxing::Relaxed;
use dm_network::Network;
use dm_paths::{change_decision, pair_decision, push_some};
use dm_rows::{Decision, Rows, is_free_change, is_free_pair};
use dm_times::Times;
use std::alloc::{AllocError, Global};

/// The completion of a path whose relaxed problem violates nothing, as what differs from the rows: the changes in ascending id
/// and then the pairs. The decisions of the path stand, every other change is kept, and every other pair goes in the order of
/// its times. With it the rows have the relaxed times and cost the relaxed cost.
pub fn complete(
    alloc: Global,
    net: &Network,
    rows: &Rows,
    path: &[Decision],
    relaxed: &Relaxed,
) -> Result<Vec<Decision>, AllocError>
    requires sized { IsSized net.now rows.now }
    requires list { IsChoiceList net.now rows.now path.now }
    requires relaxed { (penalty : ℕ) × IsRelaxed net.now rows.now path.now penalty relaxed.now }
    requires nothing_violated { relaxed.now.violated ≡ None }
    ensures { IfOk result (λ ds. ds.items ≡ differences_from net.now rows.now (completion_of net.now rows.now path.now relaxed.now.times)) }
{
    let relaxation = Relaxation::new(alloc, net, rows, path)?;
    let changes = differing_changes(alloc, &relaxation)?;
    with_differing_pairs(&relaxation, &relaxed.times, changes)
}

/// The changes of the completion that differ from the rows.
fn differing_changes(alloc: Global, relaxation: &Relaxation) -> Result<Vec<Decision>, AllocError>
    requires { IsSized relaxation.now.net.now relaxation.now.rows.now }
    ensures { IfOk result (λ ds. ds.items ≡ differing_changes relaxation.now.net.now relaxation.now.rows.now relaxation.now.path.now
        (length relaxation.now.net.now.activities)) }
{
    let mut decisions = Vec::new(alloc);
    for a in 0..relaxation.net.activities() {
        push_some(&mut decisions, differing_change(relaxation, a))?;
    }
    Ok(decisions)
}

/// These decisions, and behind them the pairs of the completion that differ from the rows.
fn with_differing_pairs(
    relaxation: &Relaxation,
    times: &Times,
    changes: Vec<Decision>,
) -> Result<Vec<Decision>, AllocError>
    requires sized { IsSized relaxation.now.net.now relaxation.now.rows.now }
    requires size { length times.now ≡ length relaxation.now.net.now.events }
    ensures { IfOk result (λ ds. ds.items ≡ changes.items ++ differing_pairs relaxation.now.net.now relaxation.now.rows.now
        relaxation.now.path.now times.now (length relaxation.now.net.now.pairs)) }
{
    let mut decisions = changes;
    for p in 0..relaxation.net.pairs() {
        push_some(&mut decisions, differing_pair(relaxation, times, p))?;
    }
    Ok(decisions)
}

/// The completion's decision of the activity at a place, where it is a free change and the decision differs from the rows.
fn differing_change(relaxation: &Relaxation, a: usize) -> Option<Decision>
    requires sized { IsSized relaxation.now.net.now relaxation.now.rows.now }
    requires is_activity { a < length relaxation.now.net.now.activities }
    ensures { result ≡ differing_change relaxation.now.net.now relaxation.now.rows.now relaxation.now.path.now a }
{
    relaxation.net.reveal();
    if !is_free_change(relaxation.net, relaxation.rows, a) {
        return None;
    }
    let kept = is_kept(relaxation, a);
    if kept == relaxation.rows.kept(a) {
        return None;
    }
    Some(change_decision(relaxation.net, a, kept))
}

/// The completion's decision of the pair at a place, where it is free and the decision differs from the rows.
fn differing_pair(relaxation: &Relaxation, times: &Times, p: usize) -> Option<Decision>
    requires sized { IsSized relaxation.now.net.now relaxation.now.rows.now }
    requires size { length times.now ≡ length relaxation.now.net.now.events }
    requires is_pair { p < length relaxation.now.net.now.pairs }
    ensures { result ≡ differing_pair relaxation.now.net.now relaxation.now.rows.now relaxation.now.path.now times.now p }
{
    relaxation.net.reveal();
    if !is_free_pair(relaxation.net, relaxation.rows, p) {
        return None;
    }
    let small = goes_small_first(relaxation, times, p);
    if small == relaxation.rows.small_first(p) {
        return None;
    }
    Some(pair_decision(relaxation.net, p, small))
}

/// Whether the completion keeps the change at a place.
fn is_kept(relaxation: &Relaxation, a: usize) -> bool
    requires { a < length relaxation.now.net.now.activities }
    ensures { result ≡ completed_kept relaxation.now.net.now relaxation.now.rows.now relaxation.now.path.now a }
{
    relaxation.undecided.changes[a] || relaxation.set.kept(a)
}

/// Whether the small event of the pair at a place goes first in the completion.
fn goes_small_first(relaxation: &Relaxation, times: &Times, p: usize) -> bool
    requires size { length times.now ≡ length relaxation.now.net.now.events }
    requires is_pair { p < length relaxation.now.net.now.pairs }
    ensures { result ≡ completed_small_first relaxation.now.net.now relaxation.now.rows.now relaxation.now.path.now times.now p }
{
    relaxation.net.reveal();
    if relaxation.undecided.pairs[p] {
        let pair = relaxation.net.pair(p);
        times.time(pair.small) < times.time(pair.large)
    } else {
        relaxation.set.small_first(p)
    }
}
