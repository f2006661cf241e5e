//! Rounds in print and read back: what each feed was answered in a round, with the plans of either kind.
//!
//! It stands on dm_report, which prints the items of logs, and on dm_records and dm_cert, which read their lines and the
//! lines of plans. A round has for each feed how many items it was answered, and the items as they stand in a run's text of
//! version 2.
//!
//! # What is promised
//!
//! `put_part` prints exactly the text of what one feed was answered, and `put_round` that of a whole round. The text stands
//! behind what was printed through the page before. Where a write failed, the sink has a proper front of both. Neither call takes
//! memory.
//!
//! `read_round` reads the round of a given number of feeds from bytes that begin with its text, and tells how long that text
//! is. `reads` says that the round is the one that the lines tell. `fault` names the first line that is cut or misshapen, or
//! the first line of an item whose plan shows no tree. `byte` is where that line begins. `ok` says that the text of a round
//! that is answered stands there. `exactly` says that a round whose text stands there is answered, unless memory runs out.
//!
//! A line with a number that its type does not hold is misshapen. Memory is taken as lines are found: a number in the text
//! reserves none.
//!
//! The law `rounds_have_own_texts`: two rounds of equally many feeds whose texts begin one text are one round.
#![tactic(auto)]

mod begins;
mod faults;
mod items;
pub mod laws;
mod printing;
mod rounds;

pub use faults::RoundFault;
pub use printing::{put_part, put_round};
pub use rounds::read_round;
