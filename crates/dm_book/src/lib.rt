//! What the journal of a live server holds: a history, and the log of each feed, which only grow.
//!
//! It stands on dm_cert for true logs, on dm_store for the blocks of a journal and on dm_tape for the texts of rounds. It has
//! definitions and laws alone. `specs/Books` says when a book is true, in which blocks it stands, and what a crash must leave
//! (`IsSafe`). `specs/Lives` says what lives are: each goes on from what the one before left.
//!
//! # What is promised
//!
//! `books_are_one`: two true books with the same logs are one. So the logs in a journal are those of at most one true book.
//!
//! `lives_are_one`: along lives, each begun with a true book of the blocks that the one before left, the book only grows. What
//! any of these lives showed, at each moment of it at which nothing less was shown than before, is a front of the logs of the
//! last book, which is found in what the last life left.
#![tactic(auto)]

pub mod laws;
