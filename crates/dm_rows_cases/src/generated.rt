//! What stands at places of a generated day.

use dm_base::{ActRow, EventRow};
use dm_feed::Line;
use dm_gen::{TRAINS, make};
use dm_samples::{Case, Failure};
use std::alloc::Global;

/// The number that days are generated from.
const SEED: u64 = 7;

/// The sizes of the lists of so many trains, and the event, activity and line at each place.
pub fn told_of_generated(alloc: Global, case: &Case<'_>) -> Result<String, Failure> {
    let trains = case.number(2).max(1).min(u64::from(TRAINS)) as u32;
    let (events, activities, lines) = make(alloc, SEED, trains)?;
    let (count, others, said) = (events.len(), activities.len(), lines.len());
    let mut told = format!(in alloc; "{count} events, {others} activities, {said} lines")?;
    for place in case.text.split_whitespace() {
        let place = place.parse::<usize>().unwrap_or(0);
        let one = told_of_place(alloc, &events, &activities, &lines, place)?;
        told = format!(in alloc; "{told}\n  at {place}: {one}")?;
    }
    Ok(told)
}

fn told_of_place(
    alloc: Global,
    events: &[EventRow],
    activities: &[ActRow],
    lines: &[Line],
    place: usize,
) -> Result<String, Failure> {
    let (event, activity, line) = (events.get(place), activities.get(place), lines.get(place));
    Ok(format!(in alloc; "{event:?} {activity:?} {line:?}")?)
}
