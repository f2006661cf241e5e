//! Choices that are made better from where a scout stands.
//!
//! It stands on dm_scout for choices that are decided and taken back.
//!
//! # What is promised
//!
//! All calls are safe and end. They answer `AllocError` for want of memory alone. Nothing is promised of what they find.
//!
//! - [`try_both`] tells what each side of a choice costs; [`TriedGains`] and [`Scores`] keep that.
//! - [`dive`] goes down one path until nothing is violated.
//! - [`Windows`] look for better choices among some at a time, and [`Kicks`] turn one and mend what is then violated.
//! - [`Polisher`]: one who stands at choices and, where some of them were turned, makes those near them better. `new` makes it of a
//!   task, an evaluator of the task's network and choices. `polish`, of dm_task's `Polishing`, turns choices, looks for better ones
//!   by windows around them, and stays there if that costs less than before.
//! - [`take_over`] and [`stand_at`] have choices stand as others do.
#![tactic(auto)]

mod diving;
mod gaining;
mod kicking;
mod polishing;
mod standing;
mod telling;
mod windows;

pub use diving::dive;
pub use gaining::{By, Gains, Scores, TriedGains, gain, try_both};
pub use kicking::{Kicks, NARROW};
pub use polishing::Polisher;
pub use standing::{stand_at, take_over};
pub use telling::{Stand, Told};
pub use windows::{Windows, all_binding, binding};
