//! Boards that are kept up with the times of a table and the marks of its cancelled events, and what they were shown.
//!
//! It stands on dm_publish for boards, and on dm_table for times and marks. A [`Display`] holds those that boards were shown last.
//! A server of one thread shows its table through it. dm_crew fills one with the times and marks of a table that many share.
//!
//! # What is promised
//!
//! `Display::show` (`Shows`) is for boards that this display has kept up: each that no note names still shows what it published
//! last. What boards showed before the first call does not matter. After it, each board that no note names shows the times of the
//! table and which events are cancelled, where it told at first what it shows. The notes are true, and the boards have the same
//! stops in the same order.
//!
//! `Display::show_growth` promises the same where the times and marks that were published last are those after some first entries
//! of the table. It leaves the table as it is. No clause says that it asks boards only for events whose times or marks have
//! changed. `Display::into_publisher` gives the publisher as it stands. Only `Display::new` takes memory.
#![tactic(auto)]

mod display;

pub use display::Display;
