//! The answers to feeds, their logs, the journal, and the spelling of plans and runs.
//!
//! It stands on dm_feed for lines, on dm_tree for plans, and on dm_parts for plans by parts. A [`FeedLog`] holds the answers to one
//! feed, line by line. A [`Note`] is a board that was dropped.
//!
//! # What is promised
//!
//! `specs/` says what true answers, true logs, a feed's own log and true runs are, and what their texts are. It says how runs are
//! spelled, and when a printed run is true. It also defines one dispatcher that answers the items of feeds in some order.
//!
//! [`print_plan`] prints exactly the plan's spelling in version 2. `put_plan` does so behind other text. Where a write failed,
//! the sink took a proper front: of the spelling, or for `put_plan` of what the page held and the spelling behind it. Neither
//! takes memory. `put_choices`, `put_number` and `put_numbers` promise the same of other texts: the lines of choices, and words
//! with one or two numbers.
//!
//! `read_plan` reads the plan at the front of bytes, in versions 1 and 2, and tells how long its text is. `reads`: it answers the
//! plan, or the first line that is cut or misshapen, or that the lines show no whole tree, or want of memory. `ok`: a plan that
//! is answered stands there. `exactly`: a plan whose text stands there is answered, unless memory runs out. `dispatch` does not
//! call `read_plan`. [`heading_in`] reads exactly what a plan's first line says. [`read_choices`] and [`read_tree`] read the
//! lines behind it, as many as it counts, with the same faults.
//!
//! [`print_solved`], `put_solved` and [`read_solved`] promise the same of plans by parts, which version 2 alone has. Whether the
//! trees of parts are whole is not asked. [`solved_heading_in`] reads exactly what the first line of such a plan says, and
//! [`solved_behind`] the lines behind it.
//!
//! The laws stand in [`laws`]. `true_logs_are_one_dispatchers`: a legal history with true logs of first due items is exactly what
//! some schedule of one dispatcher reaches, for any number of feeds and in both versions. This law is for feeds whose due lines
//! rise. `due_lines_rise` and `logs_answer_first`: the feeds of real bytes are such feeds, and their logs answer first due items.
//! `logs_stay_true`: a true log stays true as the history grows. `true_logs_have_sorted_entries`: in its entries, of a pair to
//! lock or unlock the smaller id stands first, where the logs have a spelling. `leaves_are_the_trees`: the leaves that version 1
//! prints of a plan are those of its tree, each with its whole path. `plans_have_own_texts`: the text of a plan in one version
//! determines the plan, except for its entry, whatever follows the text. `solved_have_own_texts` says so of plans by parts.
//! Further laws: three texts of one network that were worked out by hand are the spellings of their runs, the run with a plan is
//! true, and its plan is spelled in version 2 as worked out by hand. A plan by parts is spelled so too, and the run with it is
//! true.
#![tactic(auto)]

mod faults;
mod growth;
pub mod laws;
mod leaf_lines;
pub mod limits;
mod listed;
mod notes;
mod plan_lines;
mod plan_reading;
mod plan_text;
mod replies;
mod solved_lines;
mod solved_reading;
mod solved_text;

pub use faults::{CertFault, CertKind};
pub use notes::Note;
pub use plan_lines::{Heading, heading_in};
pub use plan_reading::{read_choices, read_plan, read_tree};
pub use plan_text::{print_plan, put_choices, put_number, put_numbers, put_plan};
pub use replies::{FeedLog, LogItem, Reply};
pub use solved_lines::{PartHeading, SolvedHeading, solved_heading_in};
pub use solved_reading::{read_solved, solved_behind};
pub use solved_text::{print_solved, put_solved};
