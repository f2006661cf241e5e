//! What a generated day comes to after its feed.
//!
//! It stands on dm_gen for the day, on dm_table for what entries come to, and on dm_report for the summary. It builds the network
//! of the day and enters each line of the feed in one table, which tells the summary.
//!
//! # What is promised
//!
//! [`summarize`] gives exactly the summary of `specs/Summed` for the day of a number and a count of trains (`IsSummaryOf`):
//!
//! - the counts of the network that the day's records make;
//! - the choices that are free after the lines of its feed, which are a legal history;
//! - the cost, at the penalty, of the least timetable of the rows after them, and the sum of its times.
//!
//! Only memory may be wanting: no record, no start row and no line of a generated day is refused.
#![tactic(auto)]

mod entering;
mod opening;
mod summing;

pub use summing::summarize;
