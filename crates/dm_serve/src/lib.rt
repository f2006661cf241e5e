//! The live server: from the words of `serve`, over feeds that grow and a store, to replies, boards and a run's text.
//!
//! It stands on dm_words for words, dm_input for files, dm_store for the journal and the reply files, dm_restore for what a
//! journal holds, dm_catch_up for feeds that go on with it, dm_watch for rounds over them, dm_display for boards, and
//! dm_store_text for the lines of its ends. What searches for plans is handed in, as a closure (`Searches` of dm_desk).
//!
//! First it reads, judges and compares everything: the files, the journal, the reply files, the feeds. Only then does it repair
//! the journal's end, give a new journal its head, and put the reply files anew. Then it goes round until it is told to end.
//!
//! # What is promised
//!
//! [`serve_day`]:
//!
//! - `any_moment`, over a store that tells what a crash may leave: a crash at any moment leaves a journal with a true book
//!   between the one that was found and one last book, the same for all moments. Whatever a reply file showed by then is a front
//!   of that book's logs, and of what it shows at the end. Each log of the last book answers a front of its own feed's source,
//!   unless nothing was answered (`LivesSafely`).
//! - `ends`: what is written has its cause, by the status (`specs/Ends`). At Ok the text is that of a true run in version 2 that goes
//!   on from what was found, and is the last book of the life. All of it is in the journal and in the reply files. Each log answers
//!   the due lines of all lines that end of its feed, each once and in order. The boards are up with the run's times and cancelled
//!   events (`IsDayOf`). Where a journal, a reply file or a feed is refused at a start, or the store could not be read there, the
//!   store was only looked at, and is left as it was. Where a write fault comes from a feed that could not be synced, it is not said
//!   which feed that was. For want of memory nothing is written.
//! - `same_feeds`: the feeds come back as they were given, in their order, or not at all.
//! - `told`: it ends at Ok only where it was told to end. `words_are_good`: it does not end with the status `Usage`.
//! - `shelf_kept`, `later`, `store_later`, `boards_kept`: as for a run. `store_later` says of the store's count what `later` says
//!   of the sink's.
#![tactic(auto)]

mod boards;
mod ending;
mod going;
mod opening;
mod pace;
mod replies;
mod serving;
mod starting;

pub use boards::{BoardList, Shown};
pub use ending::DayEnd;
pub use pace::Pace;
pub use serving::{Server, ServerMeans, serve_day};
