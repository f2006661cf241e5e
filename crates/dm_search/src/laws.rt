//! What holds of all true plans. A law has no code: it is proved as the contract of an empty function.
ghost use Rattle.dm_traverse.specs.Finish.{AHoleIsAStart};
ghost use Rattle.dm_traverse.specs.Laws.{OptimalPlansAreOptimal};

/// The choices of a true plan that is marked optimal are optimal, and its bound is its cost; no choices cost less than the
/// bound of a true plan; and one with enough nodes for every choice is marked optimal.
pub fn optimal_plans_are_optimal()
    ensures { OptimalPlansAreOptimal }
{}

/// No leaves make a tree of one hole, and a search may begin with it and no choices where the rows have no cycle.
pub fn a_hole_is_a_start()
    ensures { AHoleIsAStart }
{}
