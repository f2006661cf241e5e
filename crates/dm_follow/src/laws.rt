//! What holds of all texts. A law has no code: it is proved as the contract of an empty function.
ghost use Rattle.dm_follow.specs.Laws.{FollowedIsOne, FrontsAreFollowed, TailsAreOne};

/// Bytes carry one followed history alone, and have one front fault at most.
pub fn followed_is_one()
    ensures { FollowedIsOne }
{}

/// Bytes have one tail alone: their journal stands whole, one line of it is torn, or one breaks its rule.
pub fn tails_are_one()
    ensures { TailsAreOne }
{}

/// The front of the text of a true run, of whatever length, has no front fault, and the history that is followed there is a front
/// of the run's.
pub fn fronts_are_followed()
    ensures { FrontsAreFollowed }
{}
