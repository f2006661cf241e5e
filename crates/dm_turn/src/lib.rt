//! One history over passes: a lock that hands a state to one holder at a time, in the order of drawn tickets.
//!
//! It stands on dm_rows for the entries of a history, and on atomic_table for the words and the slot. A [`Pass`] is what one
//! caller knows: which beginning of the history it has seen, and which entries are its own, with their numbers. The rule in
//! `specs/Rule.antt` holds between any two steps. So whoever takes the state sees all that was seen before. At the end the
//! own entries of all passes are the history from its opening on, each once.
//!
//! # What is promised
//!
//! `Turn::new`, `split`, `join`, `take`, `add`, `give` and `close` keep one history over all passes. What a pass has seen is
//! a front of it. `take` gives the state whose history is what the pass has then seen. `add` enters exactly one entry under
//! its number. At `close` the pass's own numbers are exactly those above the opening length. `take` waits, so it promises
//! only if it returns. That it returns is not promised. All but `new` take no memory.
//!
//! `rest` has no clause. It is meant to wake one caller that stands back. How soon anybody is served is not promised.
#![tactic(auto)]

mod parking;
mod rule;
mod state;
mod steps;
mod turn;
mod view;

pub use state::HasHistory;
pub use turn::{Held, Pass, Turn};
