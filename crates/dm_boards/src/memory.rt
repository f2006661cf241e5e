//! A board in memory.
ghost use Rattle.std.specs.Prelude.{◌≡◌, ◌==◌, ◌↔◌, ◌<◌, true, ℕ, All, Some, None, IsOk, IsErr, IfOk, OnOk, OnErr, IsTrue, is_some, length, position, replicate, vec_len};
ghost use Rattle.dm_outside.specs.Board.{Sets, SetsValues, values_after};
ghost use Rattle.dm_outside.specs.Calls.{NoneListed, next_call};
ghost use Rattle.dm_outside.specs.Faults.{Counts};
ghost use Rattle.dm_boards.specs.Memory.{time_shown, value_shown, knows, knows_all, Fails};

use dm_outside::{Board, Calls, Failed};
use std::alloc::{AllocError, Global};
use std::marker::Model;

/// A board in memory. All its memory is taken when it is made.
#[derive(Drop)]
pub struct MemBoard {
    stop: u32,

    /// The ids of the events that it can show, the time in seconds that it shows of each, and whether it shows it as cancelled.
    ids: Vec<u32>,
    times: Vec<Option<u64>>,
    flags: Vec<Option<bool>>,

    fails: Vec<u64>,
    calls: Calls,
}

impl Model for MemBoard {
    ghost use Rattle.std.specs.Prelude.{◌≡◌, vec_len};
    ghost use Rattle.dm_boards.specs.Value.{MemBoardValue};

    ghost Value = { MemBoardValue };

    ghost view = { λ board. record {
      stop = board.stop;
      ids = board.ids.items;
      times = board.times.items;
      flags = board.flags.items;
      fails = board.fails.items;
      made = board.calls.made;
      faults = board.calls.faults;
    } };

    ghost invariant = { λ board. (vec_len board.times ≡ vec_len board.ids) × (vec_len board.flags ≡ vec_len board.ids) };
}

impl MemBoard {
    /// A board of this stop that shows nothing yet, and can show the events with these ids. A show or a cancel of another id fails,
    /// and so do those of anything whose numbers are in `fails`, counted together from 1. The error is want of memory for what it
    /// shows.
    pub fn new(
        alloc: Global,
        stop: u32,
        ids: Vec<u32>,
        fails: Vec<u64>,
    ) -> Result<MemBoard, AllocError>
        ensures { IfOk result (λ board. board ≡ record {
          stop = stop;
          ids = ids.items;
          times = replicate (vec_len ids) None;
          flags = replicate (vec_len ids) None;
          fails = fails.items;
          made = 0;
          faults = 0;
        }) }
    {
        Ok(MemBoard {
            stop,
            times: vec![in alloc; None; ids.len()]?,
            flags: vec![in alloc; None; ids.len()]?,
            ids,
            fails,
            calls: Calls::new(),
        })
    }
}

/// The place of an event's id.
fn place_of(ids: &[u32], event: u32) -> Option<usize>
    ensures { result ≡ position (λ id. id == event) ids.now }
{
    ids.iter().position(|id| *id == event)
}

/// Whether each event of the changes can be shown.
fn knows_all<V>(ids: &[u32], changes: &[(u32, V)]) -> bool
    ensures { result ≡ knows_all ids.now changes.now }
{
    changes
        .iter()
        .all(|(event, _)| place_of(ids, *event).is_some())
}

/// Counts a call with these changes, and says whether it fails.
fn is_failing<V>(calls: &mut Calls, fails: &[u64], ids: &[u32], changes: &[(u32, V)]) -> bool
    ensures fails { IsTrue result ↔ Fails calls.old.made fails.now ids.now changes.now }
    ensures made { calls.new.made ≡ next_call calls.old.made }
    ensures faults { calls.new.faults ≡ calls.old.faults }
{
    let listed = calls.is_listed(fails);
    (listed && !changes.is_empty()) || !knows_all(ids, changes)
}

/// Sets each listed pair in turn.
fn set_all<V: Copy>(ids: &[u32], values: &mut [Option<V>], changes: &[(u32, V)])
    requires known { knows_all ids.now changes.now ≡ true }
    requires sized { length values.old ≡ length ids.now }
    ensures { (event : ℕ) → value_shown ids.now values.new event ≡ values_after (value_shown ids.now values.old) changes.now event }
{
    for (event, value) in changes {
        let Some(place) = place_of(ids, *event) else {
            unreachable!();
        };
        values[place] = Some(*value);
    }
}

impl Board for MemBoard {
    ghost use Rattle.std.specs.Prelude.{◌≡◌, Some, true};
    ghost use Rattle.dm_outside.specs.Calls.{NoneListed};
    ghost use Rattle.dm_boards.specs.Memory.{time_shown, value_shown, knows};

    ghost place = { λ board. board.stop };

    ghost times = { λ board. Some (time_shown board.ids board.times) };

    ghost flags = { λ board. Some (value_shown board.ids board.flags) };

    ghost faults = { λ board. board.faults };

    ghost is_sound = { λ board event. NoneListed board.made board.fails × (knows board.ids event ≡ true) };

    fn stop(&self) -> u32 {
        self.stop
    }

    fn show(&mut self, changes: &[(u32, u64)]) -> Result<(), Failed>
        ensures place { self.new.stop ≡ self.old.stop }
        ensures sets { OnOk result (Sets (Some (time_shown self.old.ids self.old.times)) (Some (time_shown self.new.ids self.new.times))
            changes.now) }
        ensures cause { Counts self.old.faults self.new.faults result }
        ensures sound { All (λ change. NoneListed self.old.made self.old.fails × (knows self.old.ids change.0 ≡ true)) changes.now
            → IsOk result }
        ensures stays_sound { All (λ change. NoneListed self.old.made self.old.fails × (knows self.old.ids change.0 ≡ true)) changes.now
            → (event : ℕ) → NoneListed self.old.made self.old.fails × (knows self.old.ids event ≡ true)
            → NoneListed self.new.made self.new.fails × (knows self.new.ids event ≡ true) }

        // It fails at the listed calls, but for one that shows nothing, and at an event that it cannot show. It then shows what
        // it did.
        ensures fails { IsErr result ↔ Fails self.old.made self.old.fails self.old.ids changes.now }
        ensures failed { OnErr result (self.new.times ≡ self.old.times) }
        ensures counted { self.new.made ≡ next_call self.old.made }
        ensures faultless { OnOk result (self.new.faults ≡ self.old.faults) }
        ensures faulted { OnErr result (self.new.faults ≡ next_call self.old.faults) }
        ensures same_flags { self.new.flags ≡ self.old.flags }
        ensures same_ids { self.new.ids ≡ self.old.ids }
        ensures same_fails { self.new.fails ≡ self.old.fails }
    {
        if is_failing(&mut self.calls, &self.fails, &self.ids, changes) {
            self.calls.add_fault();
            return Err(Failed);
        }
        set_all(&self.ids, &mut self.times, changes);
        Ok(())
    }

    // As a show, of what it shows as cancelled: the two are counted together.
    fn cancel(&mut self, changes: &[(u32, bool)]) -> Result<(), Failed>
        ensures place { self.new.stop ≡ self.old.stop }
        ensures sets { OnOk result (SetsValues (Some (value_shown self.old.ids self.old.flags))
            (Some (value_shown self.new.ids self.new.flags)) changes.now) }
        ensures cause { Counts self.old.faults self.new.faults result }
        ensures sound { All (λ change. NoneListed self.old.made self.old.fails × (knows self.old.ids change.0 ≡ true)) changes.now
            → IsOk result }
        ensures stays_sound { All (λ change. NoneListed self.old.made self.old.fails × (knows self.old.ids change.0 ≡ true)) changes.now
            → (event : ℕ) → NoneListed self.old.made self.old.fails × (knows self.old.ids event ≡ true)
            → NoneListed self.new.made self.new.fails × (knows self.new.ids event ≡ true) }
        ensures fails { IsErr result ↔ Fails self.old.made self.old.fails self.old.ids changes.now }
        ensures failed { OnErr result (self.new.flags ≡ self.old.flags) }
        ensures same_times { self.new.times ≡ self.old.times }
        ensures counted { self.new.made ≡ next_call self.old.made }
        ensures faultless { OnOk result (self.new.faults ≡ self.old.faults) }
        ensures faulted { OnErr result (self.new.faults ≡ next_call self.old.faults) }
        ensures same_ids { self.new.ids ≡ self.old.ids }
        ensures same_fails { self.new.fails ≡ self.old.fails }
    {
        if is_failing(&mut self.calls, &self.fails, &self.ids, changes) {
            self.calls.add_fault();
            return Err(Failed);
        }
        set_all(&self.ids, &mut self.flags, changes);
        Ok(())
    }

    fn cancelled(&self, event: u32) -> Option<bool>
        ensures { result ≡ value_shown self.now.ids self.now.flags event }
    {
        let place = place_of(&self.ids, event)?;
        self.flags[place]
    }

    fn shown(&self, event: u32) -> Option<u64>
        ensures { result ≡ time_shown self.now.ids self.now.times event }
    {
        let place = place_of(&self.ids, event)?;
        self.times[place]
    }
}
