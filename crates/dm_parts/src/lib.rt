//! A cost's terms parted into shares, and plans that are proved good part by part.
//!
//! It stands on dm_tree, and on dm_paths for lemmas. A cost is a sum: what each arrival costs, late or cancelled, and the penalty
//! for each missed change. A [`Share`] is some of these terms. A [`Part`] is a share with a tree of choices that shows how little the
//! share can cost, whatever the rest costs. The bounds of the parts and the cost of what stands in no share add up to a bound of
//! the whole, and nothing is asked of how the shares were chosen. No time and no cost is computed here.
//!
//! # What is promised
//!
//! The definitions say what the network within a share is, what a true part is, and what a true plan by parts is. An [`AnyPlan`]
//! is a plan of either kind: it tells the entry and the choices that an adoption takes. [`nodes_in`] counts the nodes of parts.
//!
//! Laws of `laws`:
//!
//! - `weights_decide_nothing`: which activities bind, cycles, free and violated choices and least times are the same in networks
//!   that differ in weights alone.
//! - `costs_add_up`: where no term stands in two shares, a cost is the sum of the costs within the shares and of the cost beside
//!   them. This holds of every timetable of any rows, and of relaxed costs.
//! - `costs_within_are_sums`: the cost within a share is a sum over the ids of the share, whatever the size of the network.
//! - A worked plan by parts is true. One that counts a part twice is not.
#![tactic(auto)]

mod kinds;
pub mod laws;
mod parts;
mod shares;
mod sizes;

pub use kinds::AnyPlan;
pub use parts::{Part, PartNode, PlanByParts};
pub use shares::Share;
pub use sizes::nodes_in;
