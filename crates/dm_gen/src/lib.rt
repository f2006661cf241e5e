//! The generator: a day of many trains and a feed of delays, made from one number.
//!
//! A train runs over ten legs, each with a departure and an arrival. Trains eight apart share their track and keep headways.
//! Each train waits for passengers of the train before it. The feed's delays are drawn from a number. It stands on dm_base
//! for the records of networks, and on dm_feed and dm_rows for lines and messages.
//!
//! # What is promised
//!
//! [`make`] gives exactly the generated day that `specs/` defines, or it wants memory. The day has the events of 1 to 2,000
//! trains, their drives, waits, headways and changes, and a feed of 500 delays drawn from one number.
//!
//! The laws ([`laws`]) give the first draw from 7 and the sizes of the lists. Nothing but want of memory refuses the records
//! (`records_make_network`), and their numbers are within the limits. Each line of the feed delays an event of that network
//! by at most 900 seconds (`feed_delays_events`).
#![tactic(auto)]

mod activities;
mod draws;
mod feed;
pub mod laws;
mod links;
mod lists;
mod trains;

pub use lists::{TRAINS, make};
