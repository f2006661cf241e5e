//! Times that are least for the activities that they were computed for.
ghost use Rattle.std.specs.Prelude.{◌≡◌, false, length, replicate, IfOk};

use dm_base::Secs;
use std::alloc::{AllocError, Global};
use std::marker::Model;

/// Flags of activities, and the least times for these.
pub struct Known {
    held: Vec<bool>,
    times: Vec<Secs>,
}

impl Drop for Known {
    fn drop(self) {
        let Known { held: _, times: _ } = self;
    }
}

impl Model for Known {
    ghost use Rattle.dm_check_plans.specs.Inside.Timetables.{KnownValue};

    ghost Value = { KnownValue };

    ghost view = { λ k. record { held = k.held.items; times = k.times.items } };

    ghost invariant = { λ k. Unit {0} };
}

impl Known {
    /// The floors of the events, where none of so many activities is held.
    pub fn new(alloc: Global, activities: usize, floors: &[Secs]) -> Result<Known, AllocError>
        ensures held { IfOk result (λ known. known.held ≡ replicate activities false) }
        ensures times { IfOk result (λ known. known.times ≡ floors.now) }
    {
        let held = vec![in alloc; false; activities]?;
        let mut times = vec![in alloc; 0; floors.len()]?;
        times.copy_from_slice(floors);
        Ok(Known { held, times })
    }

    /// The flags.
    pub fn held(&self) -> &[bool]
        ensures { result.now ≡ self.now.held }
    {
        &self.held
    }

    /// The times, in seconds.
    pub fn times(&self) -> &[Secs]
        ensures { result.now ≡ self.now.times }
    {
        &self.times
    }

    /// Takes other flags and times of the same network, in the room that is there.
    pub fn take(&mut self, held: &[bool], times: &[Secs])
        requires held { length self.old.held ≡ length held.now }
        requires times { length self.old.times ≡ length times.now }
        ensures held { self.new.held ≡ held.now }
        ensures times { self.new.times ≡ times.now }
    {
        self.held.copy_from_slice(held);
        self.times.copy_from_slice(times);
    }
}
