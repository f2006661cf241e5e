//! Whole plans by parts.
ghost use Rattle.std.specs.Prelude.{◌≡◌, ◌+◌, ◌≤◌, [], All, sum_by, IfOk, OnOk};
ghost use Rattle.dm_base.specs.declared.limits.TheConstants.{PENALTY};
ghost use Rattle.dm_rows.specs.Rows.{IsSized};
ghost use Rattle.dm_tree.specs.Plans.{whole_task, CostsRelaxed};
ghost use Rattle.dm_tree.specs.Relaxed.{relaxed_cost_of};
ghost use Rattle.dm_parts.specs.Parts.{task_beside, shares_of, IsTruePart, IsTruePlanByParts};
ghost use Rattle.dm_parts.specs.Shares.{within, IsShare, AreApart};
ghost use Rattle.dm_parts.specs.Sizes.{ids_of, most_ids};
ghost use Rattle.dm_check_rows.specs.Claims.{Tells};
ghost use Rattle.dm_check_plans.specs.RelaxedProblems.{IsRelaxedProblemOf, IsSolved, times_of};
ghost use Rattle.dm_check_parts.specs.Inside.Grounds.{task_of};
ghost use Rattle.dm_check_parts.specs.Inside.Plans.{bounds_of, IsSum, HasSums, AreTrueTogether};

use crate::claiming::are_apart;
use crate::grounds::Grounds;
use dm_base::Cost;
use dm_check_plans::{RelaxedProblem, are_true_choices, go_back};
use dm_check_times::HeldCycle;
use dm_network::Network;
use dm_parts::{Part, PlanByParts, nodes_in};
use dm_rows::Rows;
use dm_tree::Mark;
use std::alloc::{AllocError, Global};

/// Whether a plan by parts is a true one of the rows whose parts may have so many nodes together. Nothing is asked of it but that
/// its shares have at most 65,536 ids together, and the rows may have a cycle. The penalty is in seconds for each passenger, at
/// most 1,000,000. `Err` is want of memory alone.
pub fn is_true_plan_by_parts(
    alloc: Global,
    net: &Network,
    penalty: u64,
    rows: &Rows,
    budget: u64,
    plan: &PlanByParts,
) -> Result<bool, AllocError>
    requires sized { IsSized net.now rows.now }
    requires penalty { penalty ≤ PENALTY }
    requires few { ids_of plan.now.parts ≤ most_ids }
    ensures { IfOk result (Tells (IsTruePlanByParts (whole_task net.now rows.now penalty budget) plan.now)) }
{
    if !has_sums(plan, budget) {
        return Ok(false);
    }
    match are_true_choices(
        alloc,
        net,
        penalty,
        rows,
        plan.choices.as_slice(),
        plan.cost,
    ) {
        Ok(true) => {}
        Ok(false) => return Ok(false),
        Err(AllocError) => return Err(AllocError),
    }
    let grounds = Grounds {
        net,
        rows,
        penalty,
        budget,
    };
    match grounds.are_true_together(alloc, plan.parts.as_slice(), plan.rest) {
        Ok(together) => Ok(together),
        Err(AllocError) => Err(AllocError),
    }
}

/// Whether the bound is the sum of the parts' bounds and of the rest, the mark is right, and the budget is kept to.
fn has_sums(plan: &PlanByParts, budget: u64) -> bool
    ensures { Tells (HasSums budget plan.now) result }
{
    let parts = plan.parts.as_slice();
    if nodes_in(parts) > budget as u128 {
        return false;
    }
    if is_optimal(plan.mark) != (plan.bound == plan.cost) {
        return false;
    }
    match total_bound(parts, plan.rest) {
        Some(total) => total == plan.bound,
        None => false,
    }
}

fn is_optimal(mark: Mark) -> bool
    ensures { Tells (mark ≡ Mark.Optimal) result }
{
    match mark {
        Mark::Optimal => true,
        Mark::Open => false,
    }
}

/// The sum of the parts' bounds and of the rest, or None where that is too large.
fn total_bound(parts: &[Part], rest: Cost) -> Option<Cost>
    ensures { IsSum (bounds_of parts.now + rest) result }
{
    let mut total = rest;
    for part in parts {
        total = match total.checked_add(part.bound) {
            Some(sum) => sum,
            None => return None,
        };
    }
    Some(total)
}

impl Grounds<'_> {
    /// Whether parts are true, no term stands in two of them, and the rest is the relaxed cost, with nothing decided, of the terms
    /// that stand in none.
    fn are_true_together(
        &self,
        alloc: Global,
        parts: &[Part],
        rest: Cost,
    ) -> Result<bool, AllocError>
        requires few { ids_of parts.now ≤ most_ids }
        ensures { IfOk result (Tells (AreTrueTogether (task_of self.now) parts.now rest)) }
    {
        let mut problem = match RelaxedProblem::new(alloc, self.net, self.rows) {
            Ok(problem) => problem,
            Err(AllocError) => return Err(AllocError),
        };
        match self.are_true_parts(alloc, &mut problem, parts) {
            Ok(true) => {}
            Ok(false) => return Ok(false),
            Err(AllocError) => return Err(AllocError),
        }
        match are_apart(alloc, parts) {
            Ok(true) => {}
            Ok(false) => return Ok(false),
            Err(AllocError) => return Err(AllocError),
        }
        go_back(&mut problem, self.net, self.rows);
        Ok(self.is_rest(&mut problem, parts, rest))
    }

    /// Whether all parts are true.
    fn are_true_parts(
        &self,
        alloc: Global,
        problem: &mut RelaxedProblem,
        parts: &[Part],
    ) -> Result<bool, AllocError>
        requires problem { IsRelaxedProblemOf self.now.net.now self.now.rows.now problem.old }
        requires few { ids_of parts.now ≤ most_ids }
        ensures problem { OnOk result (IsRelaxedProblemOf self.now.net.now self.now.rows.now problem.new) }
        ensures tells { IfOk result (Tells (All (IsTruePart (task_of self.now)) parts.now)) }
    {
        for part in parts {
            match self.is_true_part(alloc, problem, part) {
                Ok(true) => {}
                Ok(false) => return Ok(false),
                Err(AllocError) => return Err(AllocError),
            }
        }
        Ok(true)
    }

    /// Whether the terms that stand in no share cost this where nothing is decided.
    fn is_rest(&self, problem: &mut RelaxedProblem, parts: &[Part], rest: Cost) -> bool
        requires problem { IsRelaxedProblemOf self.now.net.now self.now.rows.now problem.old }
        requires path { problem.old.path ≡ [] }
        requires shares { All (λ part. IsShare self.now.net.now part.share) parts.now }
        requires apart { AreApart (shares_of parts.now) }
        requires few { ids_of parts.now ≤ most_ids }
        ensures { Tells (CostsRelaxed (task_beside (task_of self.now) (shares_of parts.now)) [] rest) result }
    {
        self.net.reveal();
        match problem.solve(self.net, self.rows) {
            Ok(()) => self.cost_beside(problem, parts) == rest,
            Err(HeldCycle) => false,
        }
    }

    /// What the terms that stand in no share cost, where the times are the least ones.
    fn cost_beside(&self, problem: &RelaxedProblem, parts: &[Part]) -> Cost
        requires problem { IsRelaxedProblemOf self.now.net.now self.now.rows.now problem.now }
        requires solved { IsSolved self.now.net.now self.now.rows.now problem.now }
        requires shares { All (λ part. IsShare self.now.net.now part.share) parts.now }
        requires apart { AreApart (shares_of parts.now) }
        requires few { ids_of parts.now ≤ most_ids }
        ensures { result + sum_by (λ part. relaxed_cost_of (within self.now.net.now part.share) self.now.rows.now problem.now.path
            (times_of problem.now) self.now.penalty) parts.now
            ≡ relaxed_cost_of self.now.net.now self.now.rows.now problem.now.path (times_of problem.now) self.now.penalty }
    {
        let mut left = problem.cost(self.net, self.rows, self.penalty);
        for part in parts {
            left -= self.cost_within(problem, &part.share);
        }
        left
    }
}
