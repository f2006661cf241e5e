//! The rows of a day over a network, the messages that change them, and what every timetable, cost and refusal means.
//!
//! It stands on dm_network.
//!
//! # What is promised
//!
//! The definitions of `specs/`, which every promise of the dispatcher cites: rows, which activities bind, which timetables meet
//! the rows, the least one, cycles, costs, refusals and histories. Timetables are defined once, over any held activities. The
//! rows' own activities are one instance, a relaxed problem is another.
//!
//! - `start_rows` gives the start rows, or the first unknown id. `start_rows_without` gives the same with some events cancelled, or
//!   the first unknown id, which is one to cancel where all delays are known.
//! - `is_active`, `floor_of`, `span_of`, `flip_of`, `free_choices` and `admit` answer by the definitions. `admit` answers with
//!   the first refusal by numbers, ids, passed events, cancelled events, locks and the clock.
//! - `apply` changes the rows that one message names. It keeps all others and all sizes.
//! - `has_cancelled_end`, `is_lost_change`, `is_free_change`, `is_free_pair`, `choice_of_pair` and `first_event` answer for one
//!   place by the same definitions. So do the readers of [`Rows`] and the calls of [`Decision`] and [`Choice`].
//! - `is_same` tells whether two messages, decisions or choices are one, and `are_same_decisions` whether two lists are.
//! - `free_among` gives those of some decisions that decide free choices.
//! - `copy` gives equal rows. `copy_from` makes rows equal to others of the same network, in the room that is there.
//!
//! Only `start_rows`, `start_rows_without`, `copy`, `free_choices` and the admission of an `Adopt` take memory. `admit` looks for
//! no cycle and for no full history.
//!
//! Laws of `laws`:
//!
//! - A timetable meets the rows exactly where it meets their graph and keeps the passed times.
//! - A timetable is least for the rows exactly where it is least for their graph.
//! - Where none of a network's held activities enters a passed event, they can be met exactly where they have no cycle, and then
//!   a timetable is least.
//! - An adopted list whose decisions all name something sets each of them.
//! - Each activity of a network binds at the start or takes at least a second. What binds at the start is what is active under
//!   the start rows, and with cancelled events nothing more is.
//! - A choice is free exactly where nothing refuses its decisions at once.
//! - Nothing that is active, or that binds in a relaxed problem, enters a passed event.
//! - What the definitions give on two small networks: times, costs, refusals, a cycle, touched events, free and violated choices.
#![tactic(auto)]

mod activity;
mod admission;
mod choices;
pub mod laws;
mod messages;
mod rows;
mod spans;
mod starting;

pub use activity::{has_cancelled_end, is_active, is_lost_change};
pub use admission::{admit, flip_of};
pub use choices::{
    choice_of_pair, first_event, free_among, free_choices, is_free_change, is_free_pair,
};
pub use messages::{
    At, Change, Choice, Decision, Entry, Flip, Message, Refusal, Spot, StartFault,
    are_same_decisions,
};
pub use rows::{Decided, Rows, Snapshot, Standing};
pub use spans::{floor_of, span_of};
pub use starting::{start_rows, start_rows_without};
