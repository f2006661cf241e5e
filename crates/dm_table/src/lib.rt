//! The table: the object of one thread, which takes messages and answers.
//!
//! It stands on dm_propagate for rows and their least times, and on dm_history for entries. Room for an entry is made before, and
//! an entry takes no memory.
//!
//! # What is promised
//!
//! A [`Table`] is seen as its network, start rows, penalty, history, the rows after all entries, their least timetable, and its
//! room for entries and decisions.
//!
//! `new` makes the table of a day that has no entries. It shows a cycle exactly where the start rows have one, unless memory is
//! short first.
//!
//! `post` enters or refuses a message exactly by the rows and the number of entries at which it comes. Ok is one equation
//! (`entered`): one entry more, the rows after its message, one spare entry less, all else kept. Ok gives the entry's number. It
//! ensures that nothing refuses the message (`accepted`), that the history is legal, that the rows are its replay, and that the
//! times are least (`table`). A refusal leaves the table as it was (`unchanged`) and is the first that applies (`refused`). Want
//! of memory comes only where the rows after the message have a cycle, whose list has to be copied.
//!
//! `reserve` makes room and changes nothing else. Where it fails, it changes nothing at all.
//!
//! `time`, `cost_now`, `len`, `times`, `rows`, `history`, `copy` answer for these rows; `time` refuses exactly an unknown event.
//! `network`, `start` and `penalty` are those that `new` was given. `reveal` tells what holds of every table.
//!
//! `follow_times` takes times that were the least after a given number of first entries, and the marks of the events that were
//! cancelled then, and makes them those of now (`times`, `flags`). It lists each event at which they were others (`listed`,
//! `marked`), leaves the table as it is seen (`same`), and takes no memory. No clause says how few events it looks at.
//! `copy_cancelled` copies the marks of now.
#![tactic(auto)]

mod entering;
mod following;
mod resolving;
mod showing;
mod table;

pub use table::Table;
