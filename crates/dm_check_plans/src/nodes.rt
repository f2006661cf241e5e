//! The nodes of a tree, each by the relaxed problem of its path.
ghost use Rattle.std.specs.Prelude.{ℕ, ◌≡◌, [], ◌∷◌, true, false, IfOk};
ghost use Rattle.dm_tree.specs.Plans.{IsTrueInner, IsTrueBound, IsTrueOpen};
ghost use Rattle.dm_tree.specs.Inside.Filling.{fills};
ghost use Rattle.dm_check_rows.specs.Claims.{Tells};
ghost use Rattle.dm_check_plans.specs.Inside.Judged.{task_of, IsOwn};
ghost use Rattle.dm_check_plans.specs.RelaxedProblems.{IsRelaxedProblemOf, IsSolved};
ghost use Rattle.dm_check_plans.specs.Inside.Visiting.{IsTrueNode, AreTrueNodes, is_cycle};

use crate::grounds::Grounds;
use crate::relaxed_problem::RelaxedProblem;
use crate::stepping::go_on;
use dm_base::Cost;
use dm_check_times::HeldCycle;
use dm_rows::Choice;
use dm_tree::Node;
use std::alloc::{AllocError, Global};

impl Grounds<'_> {
    /// Whether all nodes of a whole tree in preorder are true.
    pub fn are_all_true(&self, alloc: Global, nodes: &[Node]) -> Result<bool, AllocError>
        requires own { IsOwn self.now }
        requires whole { fills false 0 nodes.now ≡ true }
        ensures { IfOk result (λ b. (budget : ℕ)
            → Tells (AreTrueNodes (task_of self.now budget) self.now.plan ([] ∷ []) nodes.now) b) }
    {
        self.net.reveal();
        let mut problem = match RelaxedProblem::new(alloc, self.net, self.rows) {
            Ok(problem) => problem,
            Err(full) => return Err(full),
        };
        for node in nodes {
            if !self.is_true(&mut problem, *node) {
                return Ok(false);
            }
            match go_on(&mut problem, self.net, self.rows, *node) {
                Ok(true) => {}
                Ok(false) => return Ok(true),
                Err(full) => return Err(full),
            }
        }
        Ok(true)
    }

    /// Whether a node is true at the path.
    fn is_true(&self, problem: &mut RelaxedProblem, node: Node) -> bool
        requires own { IsOwn self.now }
        requires problem { IsRelaxedProblemOf self.now.net.now self.now.rows.now problem.old }
        ensures problem { IsRelaxedProblemOf self.now.net.now self.now.rows.now problem.new }
        ensures path { problem.new.path ≡ problem.old.path }
        ensures tells { (budget : ℕ) → Tells (IsTrueNode (task_of self.now budget) self.now.plan problem.old.path node) result }
    {
        self.net.reveal();
        match problem.solve(self.net, self.rows) {
            Ok(()) => self.is_true_solved(problem, node),
            Err(HeldCycle) => is_cycle(node),
        }
    }

    /// Whether a node is true at the path, where the relaxed problem has no cycle and is solved.
    fn is_true_solved(&self, problem: &RelaxedProblem, node: Node) -> bool
        requires own { IsOwn self.now }
        requires problem { IsRelaxedProblemOf self.now.net.now self.now.rows.now problem.now }
        requires solved { IsSolved self.now.net.now self.now.rows.now problem.now }
        ensures { (budget : ℕ) → Tells (IsTrueNode (task_of self.now budget) self.now.plan problem.now.path node) result }
    {
        match node {
            Node::Inner(choice) => self.is_true_inner(problem, choice),
            Node::Bound(cost) => self.is_true_bound(problem, cost),
            Node::Open(cost) => self.is_true_open(problem, cost),
            Node::Cycle => false,
            Node::Hole => false,
        }
    }

    /// Whether a choice is true at the path: it is violated there, and the relaxed cost is below that of the rows.
    fn is_true_inner(&self, problem: &RelaxedProblem, choice: Choice) -> bool
        requires own { IsOwn self.now }
        requires problem { IsRelaxedProblemOf self.now.net.now self.now.rows.now problem.now }
        requires solved { IsSolved self.now.net.now self.now.rows.now problem.now }
        ensures { (budget : ℕ) → Tells (IsTrueInner (task_of self.now budget) problem.now.path choice) result }
    {
        self.net.reveal();
        let Some(own) = self.own else {
            return false;
        };
        if own <= problem.cost(self.net, self.rows, self.penalty) {
            return false;
        }
        problem.is_violated(self.net, self.rows, choice)
    }

    /// Whether a `Bound` leaf is true at the path: it carries the relaxed cost, which is no less than the plan's.
    fn is_true_bound(&self, problem: &RelaxedProblem, cost: Cost) -> bool
        requires problem { IsRelaxedProblemOf self.now.net.now self.now.rows.now problem.now }
        requires solved { IsSolved self.now.net.now self.now.rows.now problem.now }
        ensures { (budget : ℕ) → Tells (IsTrueBound (task_of self.now budget) self.now.plan problem.now.path cost) result }
    {
        if cost < self.plan {
            return false;
        }
        problem.cost(self.net, self.rows, self.penalty) == cost
    }

    /// Whether an `Open` leaf is true at the path: it carries the relaxed cost, which is less than the plan's, and some choice is
    /// violated there.
    fn is_true_open(&self, problem: &RelaxedProblem, cost: Cost) -> bool
        requires problem { IsRelaxedProblemOf self.now.net.now self.now.rows.now problem.now }
        requires solved { IsSolved self.now.net.now self.now.rows.now problem.now }
        ensures { (budget : ℕ) → Tells (IsTrueOpen (task_of self.now budget) self.now.plan problem.now.path cost) result }
    {
        if self.plan <= cost {
            return false;
        }
        if problem.cost(self.net, self.rows, self.penalty) != cost {
            return false;
        }
        problem.is_any_violated(self.net, self.rows)
    }
}

/// Whether the node is a leaf of a cycle.
fn is_cycle(node: Node) -> bool
    ensures { result ≡ is_cycle node }
{
    match node {
        Node::Cycle => true,
        Node::Inner(_) | Node::Bound(_) | Node::Open(_) | Node::Hole => false,
    }
}
