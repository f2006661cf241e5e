//! What holds of all stores. A law has no code: it is proved as the contract of an empty function.
ghost use Rattle.dm_lives.specs.Growth.{FrontsAnswer, IsComplete, RoundsAnswer};
ghost use Rattle.dm_lives.specs.Laws.{IsCrashedLife, IsNewTakenUp, IsRefusedSo, IsTakenUpAgain};
ghost use Rattle.dm_lives.specs.Runs.{LivesAreARun};
ghost use Rattle.dm_lives.specs.Starts.{StartsSafely};
ghost use Rattle.dm_lives.specs.Texts.{IsTextRefusedSo};

use dm_outside::Shelf;
use dm_store::Store;
use dm_tail::Growing;

/// What a life left is taken up by the next one.
pub fn left_is_taken_up<S: Store>()
    ensures { IsTakenUpAgain S.Store }
{}

/// What a crash leaves of a life is that of a life that was crashed, as `lives_are_one` of dm_book speaks of it.
pub fn crashes_are_of_a_life<S: Store>()
    ensures { IsCrashedLife S.Store }
{}

/// A store in which nothing was served yet is taken up, with a book in which there is nothing.
pub fn new_is_taken_up<S: Store>()
    ensures { IsNewTakenUp S.Store }
{}

/// Where a store is synced before a life begins over it, what a crash leaves is safe from the start of the sync on.
pub fn synced_starts_are_safe<S: Store>()
    ensures { StartsSafely S.Store }
{}

/// A store that is taken up is refused for want of room or for a feed alone.
pub fn refused_for_room_or_feeds<S: Store, T: Growing>()
    ensures { IsRefusedSo S.Store T.given T.faults }
{}

/// Where each feed gives again all the bytes that a life answered, what that life left is refused for want of room alone.
pub fn grown_feeds_are_not_refused<S: Store, T: Growing>()
    ensures { IsComplete S.Store T.given T.faults }
{}

/// Between two rounds of a watch each log answers the due lines of a front of what its feed has given.
pub fn rounds_answer_feeds<T: Growing>()
    ensures { RoundsAnswer T.given }
{}

/// Where logs answer fronts of their feeds, all that grew to these logs do so.
pub fn fronts_answer_feeds()
    ensures { FrontsAnswer }
{}

/// The text of a store whose journal holds a true book, with an end that a crash may leave, is refused for want of room alone.
pub fn texts_are_refused_for_room<H: Shelf>()
    ensures { IsTextRefusedSo H.files H.is_sound }
{}

/// The book that is found after any lives over a store in which nothing was served before is that of a true run.
pub fn lives_are_a_run()
    ensures { LivesAreARun }
{}
