//! What several workers do in threads of their own, who are led by a guide that is handed in.
//!
//! It stands on dm_traverse for one step of a search and for what makes a true plan of a tree and choices, and on dm_deques for the
//! deques from which the workers steal.
//!
//! # What is promised
//!
//! [`search_guided`] gives a true plan of a task, with an entry, or wants memory: it is `find` and then `plan_of`. The plan costs no
//! more than the choices that were kept before, and no more than those to which the guide's path leads, if it is free choices,
//! makes no cycle and leaves nothing violated (`LeadsTo`).
//!
//! [`expand`] is what a worker does at one node, for a path over the rows of a snapshot. It looks at the word once, and
//! answers dm_traverse's `step` for the value that the word has. Where it has found choices, it lowers the word. Where it wants
//! memory, it has looked, and has lowered the word by nothing. [`expand_with`] does the same behind the base of a task, by
//! an evaluator that goes there. It branches on the choice that it is hinted at, where that one is violated. Workers call this
//! one.
//!
//! [`find`] is what all workers do with a guide's tree, from choices that are kept, and with a word that starts at what the
//! rows cost by themselves. There is a deque for each worker. In the end no tally is out, and each deque is empty: each path that
//! was put was taken, once. Each path that was taken was handed in with a leaf, or was given up, or it branched. What was put is
//! the root, once, and the two paths below each that branched. So no path that the workers were given is unaccounted for, and no
//! path of a leaf is a front of another's. Each leaf is a cycle, a bound with its relaxed cost, or an open leaf at which some
//! choice is violated. The choices that come out cost no more than those that went in, and no more than any cost by which the
//! word was lowered, but for the greatest value, which prunes nothing. The hand that comes back has all seats of the one that
//! went in. A bound that is handed in is no less than what these choices cost, or than a value that this hand has looked at.
//!
//! [`plan_of`] closes the word, and gives a true plan of what was found. It costs no more than the choices that were found,
//! and no more than the least value that the hand has looked at, unless that prunes nothing: the final plan costs at most every
//! value at which a worker pruned. Where the least tree with the leaves keeps to the budget, each choice, cycle and bound of it
//! stands in the plan's tree at the same path. So each bound that is handed in is then a true bound of the plan.
//!
//! `capped` is a cost as a word holds it. `IsPlanOfWorkers` says what a plan is that workers made together.
//!
//! # How the workers search
//!
//! No clause of a public call says what stands here. Each worker has a deque of its own. It takes the last node of that deque, or
//! the first of another's, and expands it. For that it looks at a word that all lower by the costs that they find, and goes to the
//! node with its evaluator. A node becomes two where the guide's tree goes on and its choice is violated there. Otherwise it becomes
//! a leaf that is handed in. A worker makes at most its share of branchings, (budget - 1) / (2 * workers), and then leaves nodes to
//! the others. What all leave is given up, and is a hole. The calling thread puts the leaves together and goes on from there, so
//! every hole is still searched.
//!
//! `find` waits for its threads, so its promise holds if it returns. A gate is passed at point 3 when a worker starts, at point
//! 5 before each node that it expands, and at point 4 when it ends, with the worker's number from 1.
#![tactic(auto)]

mod expanding;
mod finding;
mod gathering;
mod hints;
mod mustering;
mod pace;
mod searching;
mod working;

pub use expanding::{capped, expand, expand_with};
pub use finding::{Beginning, Found, find};
pub use searching::{plan_of, search_guided};
pub use working::{Best, Path};
