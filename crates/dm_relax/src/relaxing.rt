//! Relaxed problems solved.
ghost use Rattle.std.specs.Prelude.{◌≡◌, ◌<◌, ◌≤◌, length, IfOk, IfErr, OnOk, true, false};
ghost use Rattle.dm_base.specs.declared.limits.TheConstants.{PENALTY};
ghost use Rattle.dm_rows.specs.Rows.{IsSized};
ghost use Rattle.dm_rows.specs.Decide.{IsChoiceList};
ghost use Rattle.dm_rows.specs.Relax.{has_unmet_from};
ghost use Rattle.dm_paths.specs.Flags.{AreFlags};
ghost use Rattle.dm_relax.specs.Inside.Flags.{end_of};
ghost use Rattle.dm_relax.specs.Inside.First.{first_violated_change, first_violated_pair};
ghost use Rattle.dm_tree.specs.Relaxed.{HasNoRelaxedCycle};
ghost use Rattle.dm_relax.specs.Relaxed.{IsRelaxed, RefusesRelaxed, first_violated};

use crate::relaxation::Relaxation;
use crate::unmet::unmet_from;
use dm_base::Cost;
use dm_network::Network;
use dm_rows::{Choice, Decision, Rows, choice_of_pair};
use dm_times::{NoTimes, Times, comes_too_early, cost_charging, least_holding};
use std::alloc::{AllocError, Global};

/// What the relaxed problem of a path gives.
#[derive(Drop)]
pub struct Relaxed {
    /// Its least times.
    pub times: Times,

    /// What they cost, in thousandths of passenger seconds.
    pub cost: Cost,

    /// The first undecided choice that they violate, the changes in ascending id and then the pairs, or None where they
    /// violate nothing.
    pub violated: Option<Choice>,
}

/// The relaxed problem of a path, in time that is linear in the network and the path: the path's decisions are set, and each
/// free choice that it leaves undecided binds nothing and costs nothing. [`NoTimes::Cycle`] comes exactly where what then
/// binds has a cycle, and shows one; [`NoTimes::OutOfMemory`] where there is not enough memory. The penalty is in seconds for
/// each passenger, at most 1,000,000.
pub fn relax(
    alloc: Global,
    net: &Network,
    penalty: u64,
    rows: &Rows,
    path: &[Decision],
) -> Result<Relaxed, NoTimes>
    requires sized { IsSized net.now rows.now }
    requires penalty { penalty ≤ PENALTY }
    requires list { IsChoiceList net.now rows.now path.now }
    ensures relaxed { IfOk result (IsRelaxed net.now rows.now path.now penalty) }
    ensures no_cycle { OnOk result (HasNoRelaxedCycle net.now rows.now path.now) }
    ensures refused { IfErr result (RefusesRelaxed net.now rows.now path.now) }
{
    let relaxation = Relaxation::new(alloc, net, rows, path)?;
    let times = match least_holding(alloc, net, &relaxation.set, &relaxation) {
        Ok(times) => times,
        Err(no_times) => return Err(no_times),
    };
    let cost = cost_charging(net, &relaxation.set, &relaxation, &times, penalty);
    let violated = first_violated(alloc, &relaxation, &times)?;
    Ok(Relaxed {
        times,
        cost,
        violated,
    })
}

/// The first undecided choice that the times violate, the changes in ascending id and then the pairs.
fn first_violated(
    alloc: Global,
    relaxation: &Relaxation,
    times: &Times,
) -> Result<Option<Choice>, AllocError>
    requires sized { IsSized relaxation.now.net.now relaxation.now.rows.now }
    requires size { length times.now ≡ length relaxation.now.net.now.events }
    ensures { IfOk result (λ c. c ≡ first_violated relaxation.now.net.now relaxation.now.rows.now relaxation.now.path.now times.now) }
{
    let change = first_violated_change(relaxation, times);
    if change.is_some() {
        return Ok(change);
    }
    let small = unmet_from(alloc, relaxation.net, relaxation.rows, times, true)?;
    let large = unmet_from(alloc, relaxation.net, relaxation.rows, times, false)?;
    Ok(first_violated_pair(relaxation, times, &small, &large))
}

/// The first undecided change that the times violate.
fn first_violated_change(relaxation: &Relaxation, times: &Times) -> Option<Choice>
    requires sized { IsSized relaxation.now.net.now relaxation.now.rows.now }
    requires size { length times.now ≡ length relaxation.now.net.now.events }
    ensures { result ≡ first_violated_change relaxation.now.net.now relaxation.now.rows.now relaxation.now.path.now times.now }
{
    let net = relaxation.net;
    for a in 0..net.activities() {
        if relaxation.undecided.changes[a] && comes_too_early(net, relaxation.rows, times, a) {
            return Some(Choice::Change(net.activity(a).id));
        }
    }
    None
}

/// The first undecided pair of which neither direction is met.
fn first_violated_pair(
    relaxation: &Relaxation,
    times: &Times,
    small: &[bool],
    large: &[bool],
) -> Option<Choice>
    requires small { AreFlags (λ p. has_unmet_from relaxation.now.net.now relaxation.now.rows.now times.now p
        (end_of relaxation.now.net.now true p)) (length relaxation.now.net.now.pairs) small.now }
    requires large { AreFlags (λ p. has_unmet_from relaxation.now.net.now relaxation.now.rows.now times.now p
        (end_of relaxation.now.net.now false p)) (length relaxation.now.net.now.pairs) large.now }
    ensures { result ≡ first_violated_pair relaxation.now.net.now relaxation.now.rows.now relaxation.now.path.now times.now }
{
    let net = relaxation.net;
    for p in 0..net.pairs() {
        if relaxation.undecided.pairs[p] && small[p] && large[p] {
            return Some(choice_of_pair(net, p));
        }
    }
    None
}
