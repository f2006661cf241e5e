//! The generated lists.
ghost use Rattle.std.specs.Prelude.{◌≡◌, ◌≤◌, IfOk};
ghost use Rattle.dm_gen.specs.Trains.{events_of};
ghost use Rattle.dm_gen.specs.Activities.{activities_of};
ghost use Rattle.dm_gen.specs.Feed.{feed_of};

use crate::activities::activities_of;
use crate::feed::feed_of;
use crate::trains::events_of;
use dm_base::{ActRow, EventRow};
use dm_feed::Line;
use std::alloc::{AllocError, Global};

/// The most trains of a day.
pub const TRAINS: u32 = 2_000;

/// The events and activities of 1 to [`TRAINS`] trains, both in ascending id, and a feed of 500 lines that delay events
/// of them, drawn from the number.
///
/// # Errors
///
/// There is not enough memory.
pub fn make(
    alloc: Global,
    number: u64,
    trains: u32,
) -> Result<(Vec<EventRow>, Vec<ActRow>, Vec<Line>), AllocError>
    requires least { 1 ≤ trains }
    requires most { trains ≤ TRAINS }
    ensures events { IfOk result (λ made. made.0.items ≡ events_of trains) }
    ensures activities { IfOk result (λ made. made.1.items ≡ activities_of trains) }
    ensures feed { IfOk result (λ made. made.2.items ≡ feed_of number trains) }
{
    let events = events_of(alloc, trains)?;
    let activities = activities_of(alloc, trains)?;
    let feed = feed_of(alloc, number, trains)?;
    Ok((events, activities, feed))
}
