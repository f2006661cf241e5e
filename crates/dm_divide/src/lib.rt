//! Parts of a network whose bounds tell much, and cheaper plans.
//!
//! It stands on dm_branch for the tree of one part, and on dm_probe for the movers. It is handed one who makes choices better near
//! some that were turned ([`dm_task::Polishing`]). It divides the terms of the cost among groups of trains that decide together. A
//! tree over the choices of each group is searched as if nothing else cost anything, and the bounds of all groups add up. Nothing
//! is promised of what it finds: whoever is guided by it judges each leaf, and each choice.
//!
//! # How it goes
//!
//! Events that drives and waits join are an atom. Atoms are joined along the choices of the plan that cost most, while few
//! conflicts come together. Each group's tree is grown. A group whose bound lies below the plan's cost of its terms looks for
//! others that it would gain from: along choices between them that its cheapest leaf does not keep, along what holds its events
//! in the plan, and by putting its leaves into the plan. If that makes the plan cheaper, perhaps with windows around what was
//! turned, the plan stays so. Groups are tried as one where they would gain most. They stay one where their bound rises. Then a
//! group may branch on choices outside. Where the groups are few, and the bound stays far below the cost, all begins anew with
//! legs of trains in place of trains. Groups are solved side by side as long as all of their trees find room; then it makes no
//! difference who solves which. No map in which places change decides anything, so that all is found in one order.
//!
//! # What is promised
//!
//! All calls are safe and end. They answer `AllocError` for want of memory alone.
//!
//! - [`parts_for`] gives trees of parts and choices for a task and a plan. It hands parts that may be solved side by side to the
//!   caller, as jobs, and puts each that comes back into its group.
//! - [`Job::solved`] gives a job back with its group and its terms. [`in_turn`] gives back the same jobs, in order.
#![tactic(auto)]

mod atoms;
mod bonds;
mod borders;
mod exploring;
mod finding;
mod groups;
mod growing;
mod jobs;
mod merging;
mod reliefs;
mod rising;
mod standing;
mod transplanting;
mod widening;

pub use finding::{Found, Roots, choices_at_root, mover_at_root, parts_for};
pub use jobs::{Job, in_turn};
