//! What holds of all texts. A law has no code: it is proved as the contract of an empty function.
ghost use Rattle.dm_check.specs.Laws.{EmptyTextIsCut, VerdictsAreOne, GoodTextsAreSpelled, PlansAreToldOnce};
ghost use Rattle.dm_check.specs.Truth.{TrueTextsAreGood, GoodTextsAreTrue, RunTextsAreTheGoodOnes};

/// Of the empty text it is told that its first line is truncated, and nothing else.
pub fn empty_text_is_cut()
    ensures { EmptyTextIsCut }
{}

/// Of a text one verdict alone holds: that it is good, with its numbers of entries and plans, or the line and the kind of the
/// first record that breaks its rule.
pub fn verdicts_are_one()
    ensures { VerdictsAreOne }
{}

/// A good text is the spelling, in one of the versions, of the run that is told of it.
pub fn good_texts_are_spelled()
    ensures { GoodTextsAreSpelled }
{}

/// Of a place one thing alone is told about the plan whose text should begin there: the plan with the place behind it, or one
/// fault. So each fault of a plan that is read comes exactly where it is told.
pub fn plans_are_told_once()
    ensures { PlansAreToldOnce }
{}

/// The text, in either version, of a true run over a network is good, with the numbers of the run's entries and plans. So the
/// checker, which answers the one verdict that holds, finds no fault with what a sound dispatcher prints.
pub fn true_texts_are_good()
    ensures { TrueTextsAreGood }
{}

/// A good text, over a network and rows at the start within the limits, is that of a true run of this network from these rows at
/// this penalty, where a feed may have so many plans.
pub fn good_texts_are_true()
    ensures { GoodTextsAreTrue }
{}

/// Both ways: the run texts of a network, from rows at the start and at a penalty within the limits, and for any number of plans,
/// are exactly the texts in which no record breaks its rule.
pub fn run_texts_are_the_good_ones()
    ensures { RunTextsAreTheGoodOnes }
{}
