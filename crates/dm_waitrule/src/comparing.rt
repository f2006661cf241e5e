//! A rule set beside a plan.
ghost use Rattle.std.specs.Prelude.{ℕ, ◌≡◌, ◌≤◌, IfOk};
ghost use Rattle.dm_base.specs.declared.limits.TheConstants.{DELAY, PENALTY};
ghost use Rattle.dm_rows.specs.Active.{HasNoCycle};
ghost use Rattle.dm_rows.specs.Rows.{IsSized};
ghost use Rattle.dm_tree.specs.Plans.{whole_task};
ghost use Rattle.dm_waitrule.specs.Kinds.{IsTrueAny};
ghost use Rattle.dm_waitrule.specs.Compared.{Compares};
ghost use Rattle.dm_waitrule.specs.Rules.{KeepsWithin};

use crate::choosing::{differences_to, ruled};
use crate::rule::WaitRule;
use dm_base::{Cost, Items};
use dm_network::Network;
use dm_parts::AnyPlan;
use dm_rows::{Decision, Snapshot};
use std::alloc::{AllocError, Global};

/// What a rule chooses for some rows and what they cost then, beside a plan for them.
#[derive(Drop)]
pub struct Comparison {
    /// The rule's choices: the changes that it decides otherwise than the rows, in ascending id.
    pub choices: Items<Decision>,

    /// What the rows cost with these, in thousandths of passenger seconds: no less than the plan's bound.
    pub cost: Cost,
    pub plan: AnyPlan,
}

/// A rule's choices for the rows of a snapshot, which have no cycle, with what they cost, beside a true plan of either kind for these
/// rows, which is handed on. The penalty is in seconds for each passenger, at most 1,000,000, and so is a number in the rule.
pub fn compare(
    alloc: Global,
    net: &Network,
    penalty: u64,
    snapshot: &Snapshot,
    rule: WaitRule,
    plan: AnyPlan,
) -> Result<Comparison, AllocError>
    requires sized { IsSized net.now snapshot.now.rows }
    requires no_cycle { HasNoCycle net.now snapshot.now.rows }
    requires penalty { penalty ≤ PENALTY }
    requires limit { KeepsWithin DELAY rule }
    ensures compares { (budget : ℕ) → IsTrueAny (whole_task net.now snapshot.now.rows penalty budget) plan
        → IfOk result (Compares net.now snapshot.now.rows penalty budget rule) }
    ensures plan { IfOk result (λ compared. compared.plan ≡ plan) }
{
    net.reveal();
    let engine = ruled(alloc, net, &snapshot.rows, rule)?;
    let cost = engine.cost(net, penalty);
    let choices = differences_to(alloc, net, &snapshot.rows, engine.rows())?;
    Ok(Comparison {
        choices: Items::from_vec(choices),
        cost,
        plan,
    })
}
