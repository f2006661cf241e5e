//! A watch over feeds that grow: it answers what they append, round after round, and loses nothing to a crash.
//!
//! It stands on dm_tail for feeds, on dm_table_desk for a table that answers, on dm_store for the journal and the reply files, on
//! dm_book for what a crash may leave, and on dm_tape and dm_items for what stands in the journal and in the reply files. A
//! [`Watch`] is a table with feeds. [`Watch::round`] goes once over the feeds. It answers their new lines, and syncs the feeds
//! from which lines came. It commits the answers as one block, and then appends them to the reply files.
//!
//! # What is promised
//!
//! `Watch::round` asks that the logs answer what the feeds have given (`IsWatching`), and that all of them were shown. At `Ok`
//! both hold again (`watching`, `shown`), and the next due lines of each feed were answered, in the order of the feeds
//! (`answers`, `GoesRound`). The feeds are the same ones, in the same order (`sources`). Where no log has grown, nothing was done
//! to the journal, and the answer says so (`idle`, `new`); where a round may answer any line, none that ends is left then
//! (`none_left`). At `Err` the watch is gone: a later start goes on with what is in the journal. `cause`: each stop has its cause
//! (`StopsRound`); want of memory always counts as one. `later`: the count of the store's faults never falls.
//!
//! `rounds` (`Rounds`) is for logs that were settled in the journal and in the reply files before the round. The round leads
//! from the book before it to a later book, whose logs answer fronts of the feeds' sources. A crash at any moment of the
//! round leaves a true book between the two, and all that was shown is a front of the logs of the book that is left. At `Ok`
//! the later book is that of the watch, and it is settled.
#![tactic(auto)]

mod keeping;
mod round;
mod settling;
mod stops;

pub use round::Watch;
pub use stops::RoundStop;
