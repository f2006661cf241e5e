//! The engine: the rows of a day, their least timetable and what it costs, kept through every change.
//!
//! It stands on dm_priced, whose timetable it holds to the rows. The active activities are held, and floors and spans are the
//! rows'. The flags of what has passed, of what is cancelled and of what is charged for are the rows' too, so that the cost is at
//! hand.
//!
//! A change is first made to a twin of the rows. The timetable is brought to follow the twin where the change may make a
//! difference. What is no longer active is let go, what is active now is taken up, and the times go on from there. Where the
//! changed rows have a cycle, the timetable is brought back in the same way. So a refused change leaves the engine as it was.
//! The events stand by their scheduled times too, and a clock looks only at those that are scheduled before it.
//!
//! # What is promised
//!
//! `Engine` holds rows and their least timetable. `new` shows a cycle exactly where the rows have one, unless memory is short
//! first. `update` makes a change, and `adopt` sets a list of decisions. `try_update` and `try_adopt` only tell whether it would
//! be refused. On Ok the rows are those after the change, and the times are their least (`rows`, `least`). `Cyclic` comes exactly
//! where the changed rows have a cycle. Then `last_cycle` is such a cycle, and rows and times are as before (`unchanged`,
//! `cycle`).
//!
//! `few_reads`: a delay, a pass, a cancelling, a lock, or a clock that is not taken back reads few rows of the network. Beside one
//! row, it reads at most one for each of a list of different events that are touched or follow a changed one, and one for each of
//! a list of different events whose time has changed.
//!
//! `moved`, `cancelled`: each event whose time is not what it was before, or that is cancelled or restored, is one of the engine's
//! `moved` ones from then on. What was one stays one until `forget_moved`.
//!
//! `cost` is the cost of these times, a sum of three kept numbers. The engine's order holds exactly the active activities
//! between events that have not passed. So a pass, a delay, a clock, a drop and a cancelling add nothing to it. Only `new` takes
//! memory.
//!
//! Laws, in [`laws`]: the times of an engine are the least of its rows, and its rows have no cycle. Where no time changes, a
//! delay of an event makes it read at most two rows of the network.
#![tactic(auto)]

mod changing;
mod charging;
mod clock;
mod day;
mod engine;
mod first_flags;
mod held;
pub mod laws;
mod moving;
mod noting;
mod setting;
mod starting;
mod turning;

pub use engine::Engine;
