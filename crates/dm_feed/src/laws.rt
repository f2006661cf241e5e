//! What follows from the definitions alone: each function here does nothing, and its clause is the law.
ghost use Rattle.dm_feed.specs.Laws.{AreHeardAsPrinted, HaveOneMeaning, HaveDueItems, AreOneMessage, HaveAllAhead, GiveItemsOfFeed, EndAsStopped, GoOnGiving, HaveFeeds, AreJoined};

/// A line that is printed is heard as itself.
#[tactic(auto, using(crate::proofs::Spelling::printed_is_heard))]
pub fn lines_are_heard_as_printed()
    ensures { AreHeardAsPrinted }
{}

/// Bytes have one meaning.
#[tactic(auto, using(crate::proofs::Spelling::one_meaning))]
pub fn lines_have_one_meaning()
    ensures { HaveOneMeaning }
{}

/// Lines have one list of due items.
#[tactic(auto, using(crate::proofs::Ahead::due_items))]
pub fn lines_have_due_items()
    ensures { HaveDueItems }
{}

/// A spelling is one message's, adopted lists too.
pub fn spellings_are_one_message()
    ensures { AreOneMessage }
{}

/// What a new reader has ahead is the feed's lines, so its answers are the feed's due items.
pub fn new_readers_have_all_ahead<S>()
    ensures { HaveAllAhead S }
{}

/// What a new reader gives call after call are the first due items of its feed.
pub fn new_readers_give_the_feeds_items<S>()
    ensures { GiveItemsOfFeed S }
{}

/// The stop behind them tells whether they are all, and the size of the feed.
pub fn stops_tell_what_was_given<S>()
    ensures { EndAsStopped S }
{}

/// A due line that is given after others is given behind them.
pub fn lines_are_given_in_turn<S>()
    ensures { GoOnGiving S }
{}

/// What a new reader gives up to its stop are the due items of some bytes, also where its source tells nothing.
pub fn given_lines_have_a_feed<S>()
    ensures { HaveFeeds S }
{}

/// The due lines of bytes that come in parts, each cut behind a line feed, are those of the whole, numbered on from the parts
/// before.
pub fn lines_are_joined()
    ensures { AreJoined }
{}
