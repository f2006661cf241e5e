//! What holds of all books. A law has no code: it is proved as the contract of an empty function.
ghost use Rattle.dm_book.specs.Lives.{BooksAreOne, LivesAreOne};

/// Of two true books that have the same logs the histories are one too.
pub fn books_are_one()
    ensures { BooksAreOne }
{}

/// Along lives, each begun with a true book of the blocks that the one before left, the book only grows, and what any of them showed
/// at any of its moments is a front of the logs of the last.
pub fn lives_are_one()
    ensures { LivesAreOne }
{}
