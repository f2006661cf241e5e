//! Laws of a server's lives over one store: what a crash leaves of one is taken up by the next.
//!
//! It stands on dm_serve for what the lives of a server are and how they end, on dm_store for stores, on dm_store_text for what
//! is not refused of a journal, on dm_catch_up for feeds that go on with their logs, on dm_watch for rounds, and on dm_cert for
//! runs. The law `lives_are_one` of dm_book says that along any number of lives the book only grows.
//!
//! # What is promised
//!
//! [`new_is_taken_up`]: a store in which nothing was served yet is found as one that was taken up, with an empty book.
//!
//! [`left_is_taken_up`]: a store that holds what a crash left of a life is found as one that was taken up. Its book goes on from
//! the first book of that life. A reply file may hold less than it showed, as what was not synced is lost.
//!
//! [`crashes_are_of_a_life`]: what a crash leaves of a life, with what it might have left at earlier moments, is that of a life that
//! was crashed, in the sense of `lives_are_one`. What was shown at the earlier moments is still shown.
//!
//! [`sync_first`] is for a start that reads what a killed process wrote and had not synced. Suppose that what is read holds a true
//! book, and that each image which a crash may leave is safe between an earlier book and this one. At `Ok` the store is found as one
//! that was taken up, with the book that was read. Until then a crash leaves what is safe between the two. So it is through the life
//! after that, between the earlier book and the last one ([`synced_starts_are_safe`]).
//!
//! [`lives_are_a_run`]: the book after any lives over a store in which nothing was served before is that of a true run.
//!
//! [`refused_for_room_or_feeds`]: a store that was found so is refused only for want of room, or for a feed that has another line
//! than was answered.
//!
//! [`grown_feeds_are_not_refused`]: suppose that each log of the last book of a life answers the due lines of a front of its
//! feed's bytes, and that a crash left any moment of that life. Then what is left is refused only for want of room, or for a
//! feed that does not give all these bytes again. Where such a feed gives a front of that, the refusal is for a line that
//! does not come.
//!
//! [`fronts_answer_feeds`]: where the logs of a book answer fronts of their feeds, so do those of each front of the book: that is
//! of all that a crash may leave of a life with that last book.
//!
//! [`rounds_answer_feeds`]: between two rounds, each log of a watch's book answers the due lines of a front of what its feed has
//! given. At the end of a day the same holds by the day's own clause.
//!
//! [`texts_are_refused_for_room`]: let the journal of a store hold a true book, with an end that a crash may leave. Where the
//! files are not refused, the text of the store is refused only for want of room.
#![tactic(auto)]

mod laws;
mod starts;

pub use laws::{
    crashes_are_of_a_life, fronts_answer_feeds, grown_feeds_are_not_refused, left_is_taken_up,
    lives_are_a_run, new_is_taken_up, refused_for_room_or_feeds, rounds_answer_feeds,
    synced_starts_are_safe, texts_are_refused_for_room,
};
pub use starts::sync_first;
