//! What holds of all relaxed problems. A law has no code: it is proved as the contract of an empty function.

ghost use Rattle.dm_relax.specs.Laws.{DifferencesComplete, RelaxedCostIsABound};

/// No choices that hold a path's decisions cost less than the relaxed problem of the path; and where it violates nothing,
/// the completion has the same times and the same cost.
pub fn relaxed_cost_is_a_bound()
    ensures { RelaxedCostIsABound }
{}

/// What differs from the rows in the completion has the same times and the same cost, in the order of the free choices.
pub fn differences_complete()
    ensures { DifferencesComplete }
{}
