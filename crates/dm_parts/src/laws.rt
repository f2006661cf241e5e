//! What holds of all shares. A law has no code: it is proved as the contract of an empty function.
ghost use Rattle.dm_parts.specs.Laws.{CostsAddUp, WeightsDecideNothing};
ghost use Rattle.dm_parts.specs.Sums.{CostsWithinAreSums};
ghost use Rattle.dm_parts.specs.Worked.{CountsNothingTwice, WorkedPlanByPartsIsTrue};

/// Networks that differ in weights alone have the same rows, activities that bind, cycles, choices and least times.
pub fn weights_decide_nothing()
    ensures { WeightsDecideNothing }
{}

/// Where no term stands in two shares, the costs within them and the cost beside them add up to the cost.
pub fn costs_add_up()
    ensures { CostsAddUp }
{}

/// The cost within a share is a sum over the ids of the share.
pub fn costs_within_are_sums()
    ensures { CostsWithinAreSums }
{}

/// Where two trains meet and the first is a minute late, one part for the second train and a rest for the first show that to drop
/// the change and to let the second train go first is optimal.
pub fn worked_plan_by_parts_is_true()
    ensures { WorkedPlanByPartsIsTrue }
{}

/// And a plan that counts the second train twice is not true.
pub fn counts_nothing_twice()
    ensures { CountsNothingTwice }
{}
