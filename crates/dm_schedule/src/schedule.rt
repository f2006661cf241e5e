//! The events by their scheduled times, so that a clock finds those that are due.
ghost use Rattle.std.specs.Prelude.{ℕ, ◌≡◌, ◌<◌, ◌≤◌, length, map, take, slice_index_or, IfOk};
ghost use Rattle.std.specs.List.{range_with_len};
ghost use Rattle.std.specs.List.Sorted.{IsNonDecreasingBy};
ghost use Rattle.dm_schedule.specs.Schedule.{IsScheduleOf, scheduled_at};
ghost use Rattle.dm_schedule.specs.Inside.Keys.{key_of, scheduled_of};

use dm_base::Secs;
use dm_network::Network;
use std::alloc::{AllocError, Global};

/// An event by its place, with its scheduled time in seconds.
#[derive(Clone, Copy)]
pub struct Scheduled {
    pub time: Secs,
    pub event: usize,
}

/// Above every place of an event, so that a time and a place make one number.
const PLACES: u64 = 4_294_967_296;

/// The events of a network in ascending order of their scheduled times.
pub fn schedule_of(alloc: Global, net: &Network) -> Result<Vec<Scheduled>, AllocError>
    ensures { IfOk result (λ schedule. IsScheduleOf net.now schedule.items) }
{
    net.reveal();
    let mut keys = keys_of(alloc, net)?;
    keys.sort_unstable();
    let schedule = scheduled_by(alloc, &keys)?;
    Ok(schedule)
}

/// The key of each event of a network, in their order: numbers are sorted more quickly than pairs.
fn keys_of(alloc: Global, net: &Network) -> Result<Vec<u64>, AllocError>
    ensures { IfOk result (λ keys. keys.items ≡ map (λ i. key_of (scheduled_at net.now i)) (range_with_len 0 (length net.now.events))) }
{
    let mut keys = Vec::with_capacity(alloc, net.events())?;
    for i in 0..net.events() {
        keys.push(event_key(net, i))?;
    }
    Ok(keys)
}

/// The scheduled time of the event at a place, and the place, in one number.
fn event_key(net: &Network, i: usize) -> u64
    requires { i < length net.now.events }
    ensures { result ≡ key_of (scheduled_at net.now i) }
{
    net.reveal();
    net.event(i).time * PLACES + i as u64
}

/// The events of these keys.
fn scheduled_by(alloc: Global, keys: &[u64]) -> Result<Vec<Scheduled>, AllocError>
    ensures { IfOk result (λ schedule. schedule.items ≡ map scheduled_of keys.now) }
{
    keys.iter().map(scheduled_of).collect(alloc)
}

/// The event of a key, with its scheduled time.
fn scheduled_of(key: &u64) -> Scheduled
    ensures { result ≡ scheduled_of key.now }
{
    Scheduled {
        time: *key / PLACES,
        event: (*key % PLACES) as usize,
    }
}

/// The front of a schedule up to a clock: the events that are scheduled before it.
pub fn scheduled_before(schedule: &[Scheduled], clock: Secs) -> &[Scheduled]
    requires rising { IsNonDecreasingBy (λ (s : Scheduled). s.time) schedule.now }
    ensures front { result.now ≡ take (length result.now) schedule.now }
    ensures rest { (k : ℕ) (d : Scheduled) → length result.now ≤ k → k < length schedule.now
        → clock ≤ (slice_index_or schedule.now k d).time }
{
    let count = schedule.partition_point(|s| s.time < clock);
    &schedule[..count]
}
