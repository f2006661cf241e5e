//! What holds of all lines, runs and texts. A law has no code: it is proved as the contract of an empty function.
ghost use Rattle.dm_records.specs.Laws.{LinesSpellOne, RunsHaveOwnTexts, TextsTellOneRun};

/// A line of each kind spells one record alone, so what is read of it is that record.
pub fn lines_spell_one()
    ensures { LinesSpellOne }
{}

/// Different runs over one network have different texts, one run has different texts in the two versions, no text of a run is
/// a proper front of another's, and what follows a run's text does not change how it is read.
pub fn runs_have_own_texts()
    ensures { RunsHaveOwnTexts }
{}

/// The text of a true run over a network tells the version and the whole run.
pub fn texts_tell_one_run()
    ensures { TextsTellOneRun }
{}
