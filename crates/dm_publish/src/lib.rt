//! Boards that show the times of a network's stops and which events are cancelled, kept up to date until a call fails.
//!
//! It stands on dm_outside for boards, on dm_times for timetables, on dm_marks for the places whose times have moved, on
//! dm_network for the events at a stop and on dm_cert for notes. A [`Publisher`] tells each board of a list which events of its
//! stop are cancelled otherwise than it shows, and then shows it the times that differ. It does not ask a board what an event's
//! time is that it shows as cancelled and that runs again: it shows it. A board whose call failed is dropped: a note names it, and
//! it is called no more. So whoever reads the notes knows which boards were dropped.
//!
//! # What is promised
//!
//! `Publisher::publish` (`published`): each board without a note shows the times of its stop and exactly the cancelled events as
//! cancelled, where it told what it shows, and keeps all else. A board with an earlier note is as before. A new note names a
//! board that had none, whose count has risen in the call and which was not sound before it. `true_notes`: notes that were true
//! at an earlier entry are true with the new ones. `keeps_up`: what holds of each call in this way also holds of all calls since
//! a first list of boards.
//!
//! `publish_listed` takes the places of the events whose times differ from those published last (`last`), or that are cancelled
//! or run otherwise. It promises that boards that showed the last times and marks show the new ones. No clause says that it asks
//! boards for no other events. Each of the two calls answers how many boards it dropped. `notes` gives the notes of all boards
//! that were dropped. Only `new` takes memory.
#![tactic(auto)]

mod changes;
mod grouping;
mod publisher;
mod refreshing;
mod showing;

pub use publisher::Publisher;
