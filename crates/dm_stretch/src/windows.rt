//! Stretches of time.

use dm_base::{Items, Secs};
use dm_rows::Choice;

/// What a plan may decide: what is scheduled from one time to another, in seconds, both of them in it, but for what is held.
#[derive(Drop)]
pub struct Window {
    pub from: Secs,
    pub to: Secs,

    /// Choices that stay as the rows have them, whenever they are scheduled. One that is not free is none of the plan's anyway.
    pub held: Items<Choice>,
}
