//! Fixed waiting rules: which changes a rule keeps, whatever that costs.
//!
//! It stands on dm_propagate, whose engine keeps the rule's rows and their least times, and on dm_traverse for the law that
//! sets the rule against plans. A change that is tried and kept costs what it moves. One that would close a cycle leaves all as it
//! was.
//!
//! # What is promised
//!
//! `wait_choices` gives exactly the choices of a rule for rows that have no cycle (`AreRuleChoices`):
//!
//! - The rule begins with every free change dropped.
//! - It looks at the free changes by the scheduled time of the head, then by the head's id, then by the change's own id.
//! - It keeps a change exactly where two things hold: in the least timetable of the rows so far, the head would be later for it
//!   by no more than the rule allows; and the rows with it kept have no cycle.
//! - The choices are what differs from the rows in the end, in ascending id.
//!
//! With these choices the rows have no cycle. Want of memory may come at any time.
//!
//! `compare` takes a plan and hands it on. Where that is a true plan of the rows for some budget, it gives these choices and what
//! the rows cost with them, and the cost is no less than the plan's bound (`Compares`).
//!
//! Law: `rule_choices_are_bounded`. A rule has one list of choices for rows. With them rows without a cycle still have none, and
//! cost no less than the bound of any true plan of the rows, whatever its budget.
#![tactic(auto)]

mod choosing;
mod comparing;
pub mod laws;
mod order;
mod rule;

pub use choosing::wait_choices;
pub use comparing::{Comparison, compare};
pub use rule::WaitRule;
