//! Graphs of events and arcs that timetables must meet: their laws, and a search for an order or a cycle.
//!
//! It stands on the standard library alone, and computes no times. An arc that binds keeps its head at least a span after its
//! tail. Each event has a floor. `specs/` says what a chain, a cycle and an order of arcs are, what meets a graph, and which
//! timetable is least.
//!
//! # What is promised
//!
//! The laws of `laws` hold of every graph:
//!
//! - At most one timetable is least.
//! - An order leaves no cycle.
//! - Where there is no cycle, a least timetable exists. None of its times exceeds the highest floor by more than the longest span
//!   times the number of events.
//! - A graph whose cycles have positive spans can be met exactly where it has no cycle.
//! - Where an order exists, times that are each the join at their event are least.
//! - A graph that asks no more than another has least times that are no later. Where these meet the other graph, they are its
//!   least ones too. Graphs that ask the same have the same least timetable.
//! - Where each arc has a positive span, or is one of arcs without a cycle, each cycle has a positive span.
//! - Arrays whose rows list the arcs by their heads give these arcs (`arrays_give_arcs`, `filtered_windows_are_rows`).
//!
//! `Search` finds an order of all events in which every arc that is held to goes forward, or a cycle of such arcs, exactly.
//! `search` takes no memory.
#![tactic(auto)]

pub mod laws;
pub mod search;
mod walk;
