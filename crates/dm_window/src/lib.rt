//! Plans of a stretch of time.
//!
//! It stands on dm_stretch for what a window is and for what is made of its plans, on dm_search for plans over tasks, and on dm_solve
//! for plans by parts.
//!
//! # What is promised
//!
//! `window_plan` gives a true plan of the window, with the snapshot's entry, or answers want of memory. It asks that the rows
//! have no cycle and that the budget is 1 to 16,384.
//!
//! - The plan's choices and those of its tree are in the window.
//! - Every path begins with the base: the decisions that keep every other free choice as the rows have it.
//! - All else is as in a true plan of a whole network.
//!
//! `window_solution` makes a true plan by parts of the window of such a plan, with the same entry and budget, and no more ids than a
//! text has room for.
//!
//! `held_choices`, `thin` and `rebase` are those of dm_stretch.
//!
//! Laws:
//!
//! - `window_plans_are_optimal`: where a plan of a window is marked optimal, no list of decisions in the window costs less, and
//!   the plan's bound is its cost. No list of decisions in the window costs less than the bound of a plan of the window. With k
//!   choices in the window, a budget of 2^(k+1) - 1 nodes makes the plan optimal.
//! - `window_solutions_are_optimal`: the same of the bound and the mark of a plan by parts of a window.
//! - `holding_more_costs_no_less`: no plan costs less than one of the same stretch that is marked optimal and in which less is
//!   held.
//! - `window_plans_decide_once`: no choice is decided twice, so each plan of a window, of either kind, may be rebased.
#![tactic(auto)]

pub mod laws;
mod windows;

pub use dm_stretch::{
    HeldFault, KeptChoice, Minimal, RebaseFault, Rebased, Window, Worth, held_choices, rebase, thin,
};
pub use windows::{window_plan, window_solution};
