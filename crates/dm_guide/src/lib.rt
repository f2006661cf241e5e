//! Where a search for plans looks first.
//!
//! It stands on dm_scout for choices that are decided and taken back in a timetable, and on dm_polish for choices that are made
//! better.
//!
//! [`guide`] looks for good choices of a task and for a tree that tells much, with one [`Searcher`] or several. Nothing is
//! promised of what they find: whoever is guided by it judges each node anew.
//!
//! # What is promised
//!
//! All calls are safe and end. They answer `AllocError` for want of memory alone.
//!
//! `Searcher`: one of those who look. It changes nothing of another's.
//!
//! - `new` makes it of a task and an evaluator of the task's network, and has it try its part of the choices that are
//!   violated at the root.
//! - `violated` says how many choices are violated where it stands.
//! - `play` does its part of a round. Want of memory that it meets there ends the search.
//!
//! `Round`: what all searchers do at once. All of them read it. In a round of windows or kicks, each searcher has its part. In a
//! round of leaves of the tree to be expanded, each takes parts that nobody has taken yet. How a round is run is the caller's:
//! `in_turn` has one searcher play after the other; in threads they may play at once.
//!
//! `Start`: where the search begins: a tree in preorder, and choices with what they cost.
//!
//! `guide`: it gives a `Guide`, with choices that are good and a tree of choices as `Hint`s. It dives along the cheaper side of
//! each violated choice, and makes the choices better some at a time. It grows the tree where its bound is least, and branches
//! where the cost is known to rise most. It asks that the caller's way to run a round may be called at any round. A caller that
//! runs no round, or a part of one, is answered too.
#![tactic(auto)]

mod climbing;
mod found;
mod growing;
mod guiding;
mod parts;
mod rounds;
mod searchers;
mod sharing;

pub use guiding::{Start, guide, in_turn};
pub use rounds::Round;
pub use searchers::Searcher;
