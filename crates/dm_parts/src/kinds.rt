//! Plans of either kind.

ghost use Rattle.std.specs.Prelude.{◌≡◌};
ghost use Rattle.dm_parts.specs.Kinds.{chosen_of};

use crate::PlanByParts;
use dm_rows::Decision;
use dm_tree::Plan;

/// A plan of either kind.
#[derive(Drop)]
pub enum AnyPlan {
    /// One tree for the whole cost.
    Whole(Plan),

    ByParts(PlanByParts),
}

impl AnyPlan {
    /// How many entries the history has whose rows the plan is for.
    pub fn entry(&self) -> u32
        ensures { result ≡ (chosen_of self.now).entry }
    {
        match self {
            AnyPlan::Whole(plan) => plan.entry,
            AnyPlan::ByParts(plan) => plan.entry,
        }
    }

    /// The decisions that differ from these rows.
    pub fn choices(&self) -> &[Decision]
        ensures { result.now ≡ (chosen_of self.now).choices }
    {
        match self {
            AnyPlan::Whole(plan) => plan.choices.as_slice(),
            AnyPlan::ByParts(plan) => plan.choices.as_slice(),
        }
    }
}
