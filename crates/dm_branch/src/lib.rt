//! Trees over the choices of one part of a network, grown as if nothing else cost anything.
//!
//! It stands on dm_probe, whose mover tries the choices. A part has some terms of the cost, and choices on which its tree may
//! branch. The least cost of a leaf is a bound for these terms. Nothing is promised of a tree: whoever is guided by it judges each
//! leaf.
//!
//! # What is promised
//!
//! All calls are safe and end. They answer `AllocError` for want of memory alone. The value of a part is its terms: no call
//! changes them, also where memory is missing.
//!
//! - [`Part::new`] makes a part of a share and of the numbers of choices. No tree stands yet.
//! - [`Part::plan_at`] says what a plan costs over the share. No leaf that costs as much is branched on.
//! - [`Part::grow`] expands the cheapest leaf first, while the tree has room for two nodes more. Where nothing is violated at the
//!   cheapest leaf, or it costs no less than the best that is known, the part is done.
//! - [`Part::widen`] has the tree branch on other choices too. [`Part::narrow`] takes it back to what it was before.
//! - [`Part::stand_at`] brings a mover to a leaf, and [`Part::leave`] brings it back to the root.
//! - [`Part::tell`] gives the tree in preorder, with the terms that some leaf moves, or None where it is a single leaf.
#![tactic(auto)]

mod gaining;
mod growing;
mod parts;
mod telling;
mod walking;

pub use growing::Narrow;
pub use parts::Part;
pub use telling::{PartTree, TreeNode};
