//! What holds of all answers, logs and texts. A law has no code: it is proved as the contract of an empty function.
ghost use Rattle.dm_cert.specs.CoreRun.{TrueLogsAreOneDispatchers};
ghost use Rattle.dm_cert.specs.Laws.{LogsStayTrue, TrueLogsHaveSortedEntries, DueLinesRise, LogsAnswerFirst, LeavesAreTheTrees};
ghost use Rattle.dm_cert.specs.PlanLaws.{PlansHaveOwnTexts, SolvedHaveOwnTexts};
ghost use Rattle.dm_cert.specs.Worked.{QuietRunIsSpelled, LateRunIsSpelled, PlannedRunIsSpelled, PlannedRunIsTrue, PlanIsSpelled, SolvedIsSpelled, SolvedRunIsTrue};

/// A log that is true of a history stays true as the history grows: an answer needs only the entries up to its number.
pub fn logs_stay_true()
    ensures { LogsStayTrue }
{}

/// In the entries of true logs that have a spelling, of a pair to lock or unlock the smaller id stands first.
#[tactic(auto, using(crate::proofs::SortedEntries::true_logs_have_sorted_entries))]
pub fn true_logs_have_sorted_entries()
    ensures { TrueLogsHaveSortedEntries }
{}

/// A legal history with true logs is exactly what one dispatcher reaches that answers the due items of the feeds in some order.
pub fn true_logs_are_one_dispatchers()
    ensures { TrueLogsAreOneDispatchers }
{}

/// The due items of a feed have rising lines, as one dispatcher's feeds must.
pub fn due_lines_rise()
    ensures { DueLinesRise }
{}

/// The log of a feed's bytes answers the first of their due items.
pub fn logs_answer_first()
    ensures { LogsAnswerFirst }
{}

/// The leaves that version 1 prints of a plan are those of its tree, each with its whole path.
#[tactic(auto, using(crate::proofs::Leaves::leaves_are_the_trees))]
pub fn leaves_are_the_trees()
    ensures { LeavesAreTheTrees }
{}

/// Where two trains meet and the feed says nothing, the text is the one that was worked out by hand.
pub fn quiet_run_is_spelled()
    ensures { QuietRunIsSpelled }
{}

/// And where the first train is a minute late.
pub fn late_run_is_spelled()
    ensures { LateRunIsSpelled }
{}

/// And where a plan is asked for besides, in version 1.
pub fn planned_run_is_spelled()
    ensures { PlannedRunIsSpelled }
{}

/// And that run is true from the start, so that its texts of both versions are those of a true run.
pub fn planned_run_is_true()
    ensures { PlannedRunIsTrue }
{}

/// And the plan in version 2.
pub fn plan_is_spelled()
    ensures { PlanIsSpelled }
{}

/// And a plan by parts.
pub fn solved_is_spelled()
    ensures { SolvedIsSpelled }
{}

/// And the run with it is true.
pub fn solved_run_is_true()
    ensures { SolvedRunIsTrue }
{}

/// Different plans for one entry have different texts in a version, none is a proper front of another, and what follows a
/// plan's text does not change how it is read.
pub fn plans_have_own_texts()
    ensures { PlansHaveOwnTexts }
{}

/// Different plans by parts for one entry have different texts, none is a proper front of another, and what follows such a text
/// does not change how it is read.
pub fn solved_have_own_texts()
    ensures { SolvedHaveOwnTexts }
{}
