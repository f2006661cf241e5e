//! A live timetable with its cost kept beside it.
//!
//! It stands on dm_live. It knows nothing of messages and decisions.
//!
//! # What is promised
//!
//! A [`PricedTimetable`] is a live timetable with a flag for each event that has passed, for each that is cancelled, and for each
//! activity that is charged for. It keeps three sums: the lateness of the arrivals that are not cancelled, the weights of the
//! cancelled arrivals and of the activities that are charged for, and the weights of the changes that their passed heads have
//! missed. It also flags at least the events that have passed or are cancelled, and the tails of the changes whose heads have
//! passed. So an event that moves and is not flagged leaves the third sum as it is, and costs its lateness.
//!
//! The moves of dm_live (`set_floor`, `set_span`, `hold`, `release`, `fix`, `free`) do here what they do there. `settle` leaves
//! the least timetable, and `settle_watched` also tells a watcher of each time that changes. `pass` and `recall` set whether an
//! event has passed, `cancel` whether it is cancelled, and `charge` whether an activity is charged for. Every move keeps each sum
//! exactly what its definition adds up, and works on what it changes alone. [`PricedTimetable::cost`] is the cost of the
//! timetable at any time, without a look at the network: it adds up three kept numbers. It is exactly `priced_cost`, below 2^100.
//! [`PricedTimetable::live`] lends the live timetable.
//!
//! Laws: where flags and spans are those of rows, the cost is `cost_charging` of the rows with these charges. With the lost
//! changes charged, it is `cost_of` the rows.
//!
//! Only `new` takes memory.
#![tactic(auto)]

mod adding;
pub mod laws;
mod timetable;
mod totals;
mod watch;

pub use timetable::PricedTimetable;
