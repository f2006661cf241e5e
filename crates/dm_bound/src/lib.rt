//! One word that several workers lower: the least cost that any of them has found.
//!
//! It stands on atomic_table, which holds the word. A [`Hand`] is what one worker knows of a [`BoundWord`]: the start, the costs
//! by which it has lowered the word, the least value of the word that it has seen, and its room. The rule in `specs/Rule.antt`
//! holds between any two steps. The word is the smallest of its start and all listed costs, and at most every value that was
//! looked at.
//!
//! # What is promised
//!
//! `new` gives the word and its first hand, which has all the rooms: one for each seat. It is the one call that takes memory.
//! `split` gives a new hand, which has lowered and looked at nothing, with one of the other hand's rooms; that one needs two.
//! `join` puts two hands together: both lists, the smaller looked value, and all their rooms. `lower` is one fetch-and-minimum,
//! and the hand lists the cost. `look` gives the word's value, which is at most the start and at most each cost that the hand
//! lists. The hand keeps the least value that it has looked at.
//!
//! `close` needs the hand with all the rooms, so all other hands have been joined. It gives the smallest of the start and the
//! listed costs, which is at most each value that any worker saw. No call waits.
#![tactic(auto)]

mod rule;
mod view;
mod word;

pub use word::{BoundWord, Hand};
