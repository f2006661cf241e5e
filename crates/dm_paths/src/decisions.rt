//! The decisions of the choice at a place, lists of decisions, and rows that have them.
ghost use Rattle.std.specs.Prelude.{◌≡◌, ◌<◌, ◌++◌, [], length, All, Contains, IfOk, OnOk};
ghost use Rattle.std.specs.List.{cons_option};
ghost use Rattle.dm_rows.specs.Rows.{IsSized};
ghost use Rattle.dm_rows.specs.Decide.{free_choices_of, choice_of, with_decisions};
ghost use Rattle.dm_paths.specs.Decisions.{change_decision, pair_decision};

use crate::flips::flip_of;
use dm_network::Network;
use dm_rows::{Change, Decision, Rows, choice_of_pair};
use std::alloc::AllocError;

/// The change at a place kept or dropped.
pub fn change_decision(net: &Network, a: usize, kept: bool) -> Decision
    requires { a < length net.now.activities }
    ensures { result ≡ change_decision net.now a kept }
{
    let id = net.activity(a).id;
    if kept {
        Decision::Keep(id)
    } else {
        Decision::Drop(id)
    }
}

/// The small or the large event of the pair at a place first.
pub fn pair_decision(net: &Network, p: usize, small: bool) -> Decision
    requires { p < length net.now.pairs }
    ensures { result ≡ pair_decision net.now p small }
{
    let choice = choice_of_pair(net, p);
    if small {
        choice.first()
    } else {
        choice.second()
    }
}

/// Pushes a decision, if there is one.
pub fn push_some(
    decisions: &mut Vec<Decision>,
    decision: Option<Decision>,
) -> Result<(), AllocError>
    ensures { OnOk result (decisions.new.items ≡ decisions.old.items ++ cons_option decision []) }
{
    if let Some(decision) = decision {
        decisions.push(decision)?;
    }
    Ok(())
}

/// The rows with decisions of free choices set.
pub fn with_decisions(
    net: &Network,
    rows: &Rows,
    decisions: &[Decision],
) -> Result<Rows, AllocError>
    requires sized { IsSized net.now rows.now }
    requires free { All (λ d. Contains (free_choices_of net.now rows.now) (choice_of d)) decisions.now }
    ensures set { IfOk result (λ set. set ≡ with_decisions net.now rows.now decisions.now) }
    ensures sized { IfOk result (IsSized net.now) }
{
    let mut set = match rows.copy() {
        Ok(set) => set,
        Err(full) => return Err(full),
    };
    for decision in decisions {
        let flip = flip_of(net, rows, *decision);
        set.apply(&Change::Flipped(flip));
    }
    Ok(set)
}
