//! Stretches of time: what a plan may decide in one, which choices it keeps, and older plans carried over to newer rows.
//!
//! It stands on dm_traverse for what a task is and for the law that a true plan's choices and bound are optimal, on dm_part_bounds for
//! the same of plans by parts, and on dm_relax and dm_times for what rows with choices cost.
//!
//! A window goes from one time to another, with both of them in it. A free change is in the window where its head is scheduled
//! then, and a free pair where both its events are. A choice that is held is not in the window. What is decided outside the
//! window, or held, stays as the rows have it.
//!
//! # What is promised
//!
//! `held_choices` gives the choices that activities make, where each activity is a change or a headway of a pair. Or it gives the
//! first id that is no activity, or whose activity makes no choice.
//!
//! `window_base` gives the decisions that keep every free choice outside a window, or held, as the rows have it: with them each path
//! of a plan of the window begins. What such a plan is, and what holds of it, `specs/Windows` and `specs/Laws` say.
//!
//! `thin` gives those of a plan's choices that stay where choices that are worth little are given back (`IsMinimal`), in the
//! plan's order. One after another is given back, each time one whose loss costs least. With those that stay the rows have no
//! cycle, and cost at most a given amount more than the plan. Each comes with what it is worth: to leave out any one of them makes
//! a cycle, or costs more than that amount allows.
//!
//! `rebase` gives those of a plan's choices that differ from newer rows, in their order, and what these rows cost with them,
//! under the newer entry. What it gives carries no mark. It is refused exactly by its faults, in this order:
//!
//! - `NotFree`, with the first choice of the plan that is no free choice of the newer rows.
//! - `Cycle`, where the newer rows with the choices that differ have a cycle, which it shows by ids.
//!
//! `OutOfMemory` may come at any time.
#![tactic(auto)]

mod held;
mod rebasing;
mod standing;
mod thinning;
mod windows;

pub use held::{HeldFault, held_choices};
pub use rebasing::{RebaseFault, Rebased, rebase};
pub use standing::window_base;
pub use thinning::{KeptChoice, Minimal, Worth, thin};
pub use windows::Window;
