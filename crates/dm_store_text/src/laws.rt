//! What holds of all journals. A law has no code: it is proved as the contract of an empty function.
ghost use Rattle.dm_store_text.specs.Laws.{TrueBooksAreNotRefused};

/// A journal that holds a true book, with an end that a crash may leave, is refused for want of memory or of room alone.
pub fn true_books_are_not_refused()
    ensures { TrueBooksAreNotRefused }
{}
