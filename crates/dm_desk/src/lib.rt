//! What answers the due lines of a feed, over anything that enters messages and tells what is asked.
//!
//! It stands on dm_cert for what true answers and logs are, and on dm_feed for the reader of a feed. A [`Desk`] is what answers:
//! a table by itself, or a server with a pass. A planner is a closure that searches for the plans of either kind that are asked
//! for (a [`Search`]). [`answer_batch`] and [`answer_lines`] answer over both. They know neither tables nor searches nor threads.
//!
//! # What is promised
//!
//! The trait `Desk` says what enters messages, tells times, costs and lengths at a history that only grows, copies its rows,
//! adopts choices for rows that were seen, and carries choices over: enters those of them that are still free after the entries
//! before. `PlansUnder` says what a planner is asked, and that it gives a true plan, or a true plan by parts, of copied rows for a
//! budget. `Searches` says the same of what is given a [`PlanRequest`], for the rows of any network, within the limits (`MaySearch`).
//!
//! `answer_batch` answers the next due lines of a feed over any desk: a given number of them, or all that are left
//! (`AnswersBatch`). What the log holds is true of the history that the desk has seen. The log has one item for each due
//! line, plans and adoptions too. The numbers of the new items lie between the lengths before and after. Where no line is left
//! it answers why. A [`HoldPoint`] is called with the feed's number before each line and after its reply is kept. Every gate is
//! one. No clause speaks of these calls.
//!
//! `answer_lines` answers the whole lines of a part of a feed's bytes over any desk (`AnswersPart`). It is told how many
//! lines of the feed came before the part, and how many due lines to answer at most. It answers each due line once, in order,
//! and no other line. Each answer is true of what the desk has seen. Entry numbers never fall. It tells how many bytes of the
//! part were passed, and how many lines of the feed by then. Whatever bytes came before, what was answered of them goes on
//! (`IsFed`). It passes no gate. The lines before the part and its bytes must together be fewer than 2^32 (`room`); nothing
//! else limits the bytes of the whole feed.
#![tactic(auto)]

mod answers;
mod asked;
mod batches;
mod desk;
mod hold_point;
mod parts;
mod plans;
mod searches;

pub use batches::answer_batch;
pub use desk::Desk;
pub use hold_point::HoldPoint;
pub use parts::answer_lines;
pub use searches::{PlanRequest, Search};
