//! Parts that are solved by several workers at once, in threads of their own.
//!
//! It stands on dm_divide for the jobs, on dm_probe for the movers, and on dm_deques for the deque from which the workers steal.
//!
//! # What is promised
//!
//! [`solve_all`] has movers solve jobs. However jobs are weighed, those that come back weigh what those that were given did. So
//! each job comes back once, of the same group and with the same terms, and none is lost or doubled. It answers `AllocError` for
//! want of memory alone. With one mover no thread is made. It waits for its threads, so its promise holds if it returns.
//!
//! # How it goes
//!
//! The calling thread puts all jobs on one deque, and lends each worker a tally of it. A worker tries to steal a job some times
//! more often than there are jobs, whether it gets one or not. What is left then, the calling thread solves. So no worker waits
//! for another. How far a tree grows, no clause says. In which order jobs come back depends on who was faster. Nothing else does.
#![tactic(auto)]

mod handing;
mod solving;
mod working;

pub use solving::solve_all;
