//! What holds of all rounds. A law has no code: it is proved as the contract of an empty function.
ghost use Rattle.dm_tape.specs.Laws.{RoundsHaveOwnTexts};

/// Different rounds of as many feeds have different texts, no text of a round is a proper front of another's, and what follows a
/// round's text does not change how it is read.
pub fn rounds_have_own_texts()
    ensures { RoundsHaveOwnTexts }
{}
