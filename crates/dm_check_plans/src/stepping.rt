//! From a node of a tree to the next in preorder.
ghost use Rattle.std.specs.Prelude.{◌≡◌, [], ◌∷◌, IfOk, MatchBool, OnOk};
ghost use Rattle.dm_rows.specs.Rows.{IsSized};
ghost use Rattle.dm_tree.specs.Pending.{pending};
ghost use Rattle.dm_check_plans.specs.RelaxedProblems.{IsRelaxedProblemOf};
ghost use Rattle.dm_check_plans.specs.Visiting.{IsNextOpen, GoesOn};

use crate::relaxed_problem::RelaxedProblem;
use dm_network::Network;
use dm_rows::Rows;
use dm_tree::Node;
use std::alloc::AllocError;

/// Goes on from a node to the next place in preorder: to the first child of a choice, and from a leaf to the second child of the
/// last choice of which the path took the first. It is false where no place is left. `Err` is want of memory alone.
pub fn go_on(
    problem: &mut RelaxedProblem,
    net: &Network,
    rows: &Rows,
    node: Node,
) -> Result<bool, AllocError>
    requires sized { IsSized net.now rows.now }
    requires problem { IsRelaxedProblemOf net.now rows.now problem.old }
    requires open { IsNextOpen net.now rows.now problem.old.path node }
    ensures problem { OnOk result (IsRelaxedProblemOf net.now rows.now problem.new) }
    ensures next { IfOk result (λ more. GoesOn node more problem.old.path problem.new.path) }
{
    match node.choice() {
        Some(choice) => match problem.decide(net, rows, choice.first()) {
            Ok(()) => Ok(true),
            Err(full) => Err(full),
        },
        None => turn_back(problem, net, rows),
    }
}

/// Goes on from a leaf.
fn turn_back(problem: &mut RelaxedProblem, net: &Network, rows: &Rows) -> Result<bool, AllocError>
    requires sized { IsSized net.now rows.now }
    requires problem { IsRelaxedProblemOf net.now rows.now problem.old }
    ensures problem { OnOk result (IsRelaxedProblemOf net.now rows.now problem.new) }
    ensures next { IfOk result (λ more. MatchBool more (pending problem.old.path ≡ problem.new.path ∷ pending problem.new.path)
        (pending problem.old.path ≡ [])) }
{
    while let Some(decision) = problem.take_back(net, rows) {
        if decision.is_first() {
            return match problem.decide(net, rows, decision.other()) {
                Ok(()) => Ok(true),
                Err(full) => Err(full),
            };
        }
    }
    Ok(false)
}

/// Takes all decisions back.
pub fn go_back(problem: &mut RelaxedProblem, net: &Network, rows: &Rows)
    requires sized { IsSized net.now rows.now }
    requires problem { IsRelaxedProblemOf net.now rows.now problem.old }
    ensures problem { IsRelaxedProblemOf net.now rows.now problem.new }
    ensures path { problem.new.path ≡ [] }
{
    while let Some(_decision) = problem.take_back(net, rows) {}
}
