//! Free choices that are decided and taken back in a timetable, and what is violated there.
//!
//! It stands on dm_evaluate for the relaxed problem in which the base alone is decided, and on dm_priced for a timetable. In that
//! timetable it holds and lets go what a decision binds. The timetable is settled when times or cost are asked for.
//!
//! # What is promised
//!
//! All calls are safe and end. They answer `AllocError` for want of memory alone. Nothing is promised of what they say.
//!
//! - [`Choices`] are the free choices that an evaluator leaves open, by number, each with its sides and what binds on them.
//! - A [`Mover`] is a timetable in which no event is fixed.
//! - A [`Scout`] decides choices and takes them back, and knows what is violated where it stands, and what it touched.
//! - [`Noted`] is a list in which each place stands at most once; [`Place`] is a place in half the room.
#![tactic(auto)]

mod choices;
mod moving;
mod noting;
mod places;
mod scouting;

pub use choices::{Choices, Ends, Side, decision_for, side_of};
pub use moving::Mover;
pub use noting::{Moved, Moves, Noted, Numbers, Once};
pub use places::{NOWHERE, Place};
pub use scouting::{Scout, Turned};
