//! The server: a table that many callers use, one at a time.
//!
//! It stands on dm_table for answers and on dm_turn for the turns. A [`Server`] hands its table to one pass after another, in
//! the order of drawn tickets.
//!
//! # What is promised
//!
//! Each answer is the table's at the history that the pass has then seen. A pass never sees less than it had seen before. An
//! entry that a pass makes is its own. Every call that waits leaves its pass idle, with its turn, base, opening and room as
//! they were. After each such call the history that the pass has seen is legal. Calls that wait promise only if they return.
//! That they return is not promised.
//!
//! `new` makes a server and its first pass, which has all the seats. It shows a cycle exactly where the start rows have one,
//! unless memory is short first. `split` makes a pass that has seen as much, and `join` takes one in, with its entries. `close`
//! gives the table back once all other passes were joined. Its history is then what the pass has seen, and the pass's own entries
//! are exactly those from its opening on.
//!
//! `post`: the pass has seen at least as much and then its own entry at the told number. Or there is a refusal that applies
//! after what the pass has then seen, or want of memory.
//!
//! `time`, `cost`, `copy_times`, `snapshot`, `length`: the answer is that of the least timetable and rows after what the pass
//! has then seen. They also tell how many entries that is. `time` refuses exactly an unknown event. `copy_shown` copies what
//! boards show: the times, and which events are cancelled.
//!
//! `follow_times` answers the same. It starts from the times and the marks of cancelled events after a given number of first
//! entries that the pass had seen. It lists each event whose time or mark was another then.
//!
//! `adopt` takes the choices of a plan of the rows after a number of entries: free ones, in order, with which these rows have
//! no cycle. They are entered as the next entry, or refused: as old where there are more entries, as full where there are as
//! many and no more are taken, or for want of memory.
//!
//! `carry` enters those of some choices that are free after what the pass has then seen, as one adopted list, which may be empty.
//! Or there is a refusal that applies to this list, or want of memory. The choices are looked at and entered in one turn.
//!
//! `rest` is that of the turn and has no clause.
#![tactic(auto)]

mod holding;
mod kept;
mod server;

pub use dm_tree::AdoptRefusal;
pub use kept::{Base, Kept};
pub use server::Server;
