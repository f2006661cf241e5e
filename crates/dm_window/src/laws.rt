//! What holds of all plans of windows. A law has no code: it is proved as the contract of an empty function.
ghost use Rattle.dm_stretch.specs.Laws.{HoldingMoreCostsNoLess, WindowPlansAreOptimal, WindowPlansDecideOnce, WindowSolutionsAreOptimal};

/// Where a plan of a window is marked optimal no decisions in the window cost less, and its bound is its cost; no decisions in
/// the window cost less than the bound of a plan of it; and one with enough nodes for every choice in it is marked optimal.
pub fn window_plans_are_optimal()
    ensures { WindowPlansAreOptimal }
{}

/// No decisions in a window cost less than the bound of a plan by parts of it, nor than one that is marked optimal.
pub fn window_solutions_are_optimal()
    ensures { WindowSolutionsAreOptimal }
{}

/// A plan of a window costs no less than one of the same stretch that is marked optimal and in which less is held.
pub fn holding_more_costs_no_less()
    ensures { HoldingMoreCostsNoLess }
{}

/// A plan of a window, of either kind, decides no choice twice.
pub fn window_plans_decide_once()
    ensures { WindowPlansDecideOnce }
{}
