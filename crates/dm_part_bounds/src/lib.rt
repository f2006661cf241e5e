//! Why bounds by parts hold.
//!
//! It stands on dm_parts for what parts and plans by parts are, and on dm_traverse for the law that each
//! choice list leads to a leaf that does not cost more.
//!
//! # What is promised
//!
//! Laws of `laws`:
//!
//! - `bounds_by_parts_hold`: the bound of a true part is at most what any choices without a cycle cost within its share. No
//!   choices without a cycle cost less than the bound of a true plan by parts. Where one is marked Optimal, its choices are
//!   optimal.
//! - `one_part_will_do`: a true plan is a true plan by one part of all terms. Where the plan is Optimal, so is that one. With k
//!   choices allowed, a budget of 2^(k+1) - 1 nodes is enough for it.
//!
//! Nothing is asked of the shares but that no term stands in two of them. All this holds of every task, within its allowed
//! choices, and so of the task of a whole network.
#![tactic(auto)]

pub mod laws;
