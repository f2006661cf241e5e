//! A timetable: the time of each event.
ghost use Rattle.std.specs.Prelude.{◌≡◌, ◌^◌, ◌<◌, length, replicate, slice_index, slice_set, IfOk};
ghost use Rattle.dm_settle.specs.Settling.{AreEarly};

use dm_base::Secs;
use dm_network::Network;
use std::alloc::{AllocError, Global};
use std::marker::Model;

/// The time of each event, by place, in seconds. Every time is below 2^38.
#[derive(Drop)]
pub struct Times {
    seconds: Vec<Secs>,
}

impl Model for Times {
    ghost use Rattle.std.specs.Prelude.{ℕ, List};
    ghost use Rattle.dm_settle.specs.Settling.{AreEarly};

    ghost Value = { List ℕ };

    ghost view = { λ t. t.seconds.items };

    ghost invariant = { λ t. AreEarly t.seconds.items };
}

impl Times {
    /// Zeros, one for each event of a network.
    pub fn room(alloc: Global, net: &Network) -> Result<Times, AllocError>
        ensures { IfOk result (λ times. times ≡ replicate (length net.now.events) 0) }
    {
        let seconds = vec![in alloc; 0; net.events()]?;
        Ok(Times { seconds })
    }

    /// Every time is below 2^38 seconds. Callers learn it here.
    pub fn is_early(&self)
        ensures { AreEarly self.now }
    {
        let _read = self.seconds.len();
    }

    /// How many events the times are of.
    pub fn events(&self) -> usize
        ensures { result ≡ length self.now }
    {
        self.seconds.len()
    }

    /// The time of the event at this place, in seconds.
    pub fn time(&self, i: usize) -> Secs
        requires { i < length self.now }
        ensures value { result ≡ slice_index self.now i }
        ensures limit { result < 2 ^ 38 }
    {
        self.seconds[i]
    }

    /// The time of the event at this place where one of the events has another time, in seconds.
    pub fn time_where(&self, event: usize, time: Secs, i: usize) -> Secs
        requires is_event { event < length self.now }
        requires is_looked_up { i < length self.now }
        requires early { time < 2 ^ 38 }
        ensures value { result ≡ slice_index (slice_set self.now event time) i }
        ensures limit { result < 2 ^ 38 }
    {
        if i == event { time } else { self.seconds[i] }
    }

    /// Sets the time of the event at this place, in seconds.
    pub fn set(&mut self, i: usize, time: Secs)
        requires is_event { i < length self.old }
        requires early { time < 2 ^ 38 }
        ensures { self.new ≡ slice_set self.old i time }
    {
        self.seconds[i] = time;
    }

    /// Makes the times those of another timetable of as many events.
    pub fn copy_from(&mut self, other: &Times)
        requires { length self.old ≡ length other.now }
        ensures { self.new ≡ other.now }
    {
        self.seconds.copy_from_slice(&other.seconds);
    }

    /// The times, by place of the event, in seconds.
    pub fn as_slice(&self) -> &[Secs]
        ensures { result.now ≡ self.now }
    {
        self.seconds.as_slice()
    }
}
