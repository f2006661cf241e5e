//! Least times by rounds of relaxation, over activities in any order.
//!
//! It stands on dm_rows for what timetables and costs are, and computes them apart from all that goes along an order of
//! events.
//!
//! A round raises the head of each held activity to its span after the tail. It leaves out events whose times have not risen.
//! Rounds are made until nothing changes. More rounds than there are events change something exactly where the held
//! activities have a cycle. Rounds may begin from any times that are not too late. Every time is below 2^38 seconds, and
//! every cost below 2^100 thousandths of passenger seconds.
//!
//! Times that were least may also follow what binds as it changes. The events that a change may concern begin anew from their
//! floors, and rounds go on from there. A clock looks at the events that are scheduled before it.
//!
//! What a timetable costs is added up place by place ([`cost_of`]), or kept as a sum of three numbers ([`KeptCost`]). What a
//! change of rows is about is weighed anew, and so are the activities at each event that has moved.
//!
//! # What is promised
//!
//! `KeptTimetable::fill` computes the least timetable of rows from scratch, or tells that the rows have a cycle, exactly. Its
//! rounds of relaxation go along no order of events.
//!
//! [`keep_up`] keeps a [`KeptTimetable`] with rows that have just changed, and answers yes: what has changed is marked then. Or
//! it answers no. `settle` begins the marked events, and those that were held to their times, anew from their floors. The times
//! are then the least ones of the rows, or it tells that the rows have a cycle, exactly.
//!
//! A timetable may also hold what its caller says, whatever rows hold (`holding`, [`KeptTimetable::set_held`]). `follow` makes
//! the times the least ones of what is held, or tells that it has a cycle, exactly. `begin_from` takes times that are least
//! where other activities are held.
//!
//! Each event whose time `settle` or `follow` changes is noted in a set of places. A list of times that was right except at the
//! events noted before is right except at those noted afterwards.
//!
//! `cost_of` tells exactly what a timetable costs. A `KeptCost` tells the same of the times that it follows, for the rows
//! from which it is taken. The penalty is charged for the rows' lost changes, or for other activities ([`Charges`]).
//! [`keep_cost`] keeps it with rows that have just changed, where lost changes are charged for, and answers yes; or it answers
//! no, as for an event that is cancelled or restored. [`passes_running`] tells of a change that no cancelled event passes by it.
//!
//! `take`, `bring` and `follow` of `KeptCost` give it other times. `renew` and `renew_all` take weights anew. `renew_event` and
//! `renew_activity` of `KeptTimetable` take one floor, or what binds of one activity, from rows. [`fill_floors`], [`fill_spans`]
//! and [`flag_active`] give the floors, the spans and the active activities of rows. [`comes_too_early`] tells exactly whether
//! the head of an activity comes before its tail and its span allow. [`row_into`] and [`row_out_of`] give the places of the
//! activities at an event. [`changes_of`] gives places over which what is 0 at all but changes adds up as over all activities.
//!
//! A timetable and a cost so take only what has changed. Memory is taken once, for a timetable, for marks and for a kept
//! cost. No clause says either.
#![tactic(auto)]

mod beginning;
mod bindings;
mod changes;
mod charges;
mod costing;
mod following;
mod keeping;
mod kept_cost;
mod kept_timetable;
mod pricing;
mod rounds;
mod row;
mod rows;

pub use changes::changes_of;
pub use charges::Charges;
pub use costing::{cancelled_weight, comes_too_early, cost_of, event_cost, missed_weight};
pub use keeping::keep_up;
pub use kept_cost::KeptCost;
pub use kept_timetable::KeptTimetable;
pub use pricing::{keep_cost, passes_running};
pub use rounds::HeldCycle;
pub use row::{row_into, row_out_of};
pub use rows::{fill_floors, fill_spans, flag_active};
