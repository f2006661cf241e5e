//! What holds of every text. A law has no code: it is proved as the contract of an empty function.
ghost use Rattle.dm_text.specs.Laws.{LinesAreOne};

/// At a place begins one line at most, and where one begins the text is not cut.
pub fn lines_are_one()
    ensures { LinesAreOne }
{}
