//! A waiting rule beside a plan, in print.
//!
//! It stands on dm_waitrule for the comparison, on dm_cert for the lines of choices, on dm_report for numbers behind their words,
//! and on dm_outside for sinks.
//!
//! # What is promised
//!
//! `print_comparison` writes exactly the text of a comparison (`comparison_text`). That is the rule with what the rows cost by
//! it, the rule's choices, the kind of the plan, its mark, cost and bound, and by how much the rule's cost is above that bound. A write fault
//! comes only where a write failed. The sink has then taken a front of the text, and not all of it. The call takes no memory.
#![tactic(auto)]

mod printing;

pub use printing::print_comparison;
