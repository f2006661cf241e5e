//! What holds of all trees and plans. A law has no code: it is proved as the contract of an empty function.
ghost use Rattle.dm_tree.specs.Laws.{TruePlansAreAdmitted};
ghost use Rattle.dm_tree.specs.Trees.{LeadsToWhatStands};
ghost use Rattle.dm_tree.specs.Worked.{LeavesNoneOpen, PresentChoicesAreNotShown, WorkedPlanIsTrue};

/// Where two trains meet and the first is a minute late, the root alone may not be left open at a budget of seven nodes.
pub fn leaves_none_open()
    ensures { LeavesNoneOpen }
{}

/// There a plan that drops the change and lets the second train go first is true, and marked optimal.
pub fn worked_plan_is_true()
    ensures { WorkedPlanIsTrue }
{}

/// And one that marks the present choices optimal, with the root as its one leaf at their cost, is not.
pub fn present_choices_are_not_shown()
    ensures { PresentChoicesAreNotShown }
{}

/// Where children lead from the root to a node, by their decisions, there the node stands at the path of these decisions.
pub fn leads_to_what_stands()
    ensures { LeadsToWhatStands }
{}

/// Nothing refuses the choices of a true plan, where the history has room for them.
pub fn true_plans_are_admitted()
    ensures { TruePlansAreAdmitted }
{}
