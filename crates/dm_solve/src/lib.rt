//! True plans by parts, of parts that are looked for.
//!
//! It stands on dm_divide, which finds parts and good choices, on dm_polish for one who polishes, both of which promise nothing, and on
//! dm_part_plans, which judges what was found anew and makes a true plan by parts of it.
//!
//! # What is promised
//!
//! [`plan_by_parts`] takes a true plan of a task and gives a true plan by parts of it, or wants memory. It has the plan's entry, and
//! costs no more than the plan. Its shares have at most 65,536 ids together, so that a text has room for it. Where the network has
//! no more terms than that, its bound is no lower than the plan's, and with k choices allowed a budget of 2^(k+1) - 1 nodes makes
//! it optimal.
//!
//! [`plan_by_workers`] promises the same, whatever workers the caller has solve parts. The caller makes its [`Evaluators`] too.
#![tactic(auto)]

mod solving;

pub use solving::{Evaluators, plan_by_parts, plan_by_workers};
