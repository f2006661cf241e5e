//! What choices do to times, and what this costs some of the passengers.
//!
//! It stands on dm_evaluate for the choices that are open, and on dm_priced for a timetable with its cost. A search that judges
//! parts of a network by themselves tries choices here. Nothing is promised of what it is told: whoever is guided by it judges
//! anew.
//!
//! # What is promised
//!
//! All calls are safe and end. They answer `AllocError` for want of memory alone.
//!
//! - [`Choices`] has the choices that an evaluator leaves open, by number, with the activities that bind on either side.
//! - [`Share`] has some terms of the cost: the lateness of arrivals, and changes that may be dropped or missed.
//! - [`Mover`] holds what decisions bind. `decide` and `undecide` move the times, and `cost` says what the timetable costs. While a
//!   share is loaded, `share_cost` says what its terms cost.
#![tactic(auto)]

mod choices;
mod moving;
mod shares;

pub use choices::{Choices, FreeChoice, Side, decision_for};
pub use moving::{Mover, entering};
pub use shares::{Arrival, Connection, Share, lateness_cost};
