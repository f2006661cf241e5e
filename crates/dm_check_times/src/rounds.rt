//! Rounds of relaxation.
ghost use Rattle.std.specs.Prelude.{ℕ, ◌≡◌, ◌+◌, ◌^◌, ◌<◌, ◌≤◌, false, length, slice_index, OnOk, OnErr};
ghost use Rattle.dm_graph.specs.Arcs.{HasNoCycle};
ghost use Rattle.dm_graph.specs.Graph.{IsLeast};
ghost use Rattle.dm_check_times.specs.Binding.{is_due, MayBegin};
ghost use Rattle.dm_check_times.specs.Noting.{NotesMoves};
ghost use Rattle.dm_check_times.specs.Inside.Bound.{graph_over};
ghost use Rattle.dm_check_times.specs.Inside.Rising.{latest, AreWithin, AreMet, Raises, Relaxes, HasSwept};

use crate::bindings::Bindings;
use crate::row::row_out_of;
use dm_base::Secs;
use dm_marks::{Marks, PlaceSet};

/// The held activities have a cycle.
#[derive(Clone, Copy)]
pub struct HeldCycle;

impl Bindings<'_> {
    /// Raises times until the head of each held activity is at least its span after the tail. Events are due whose activities may
    /// have a head that comes too soon, and none where it answers `Ok`. Those that rise are noted as moved. It takes no memory, and
    /// looks at what is due alone.
    ///
    /// Where the times lie above the floors of events and none is later than in any timetable that meets these and the
    /// activities, `Ok` comes exactly where the held activities have no cycle that takes time, and the times are then the least
    /// timetable.
    pub(crate) fn raise(
        &self,
        times: &mut [Secs],
        due: &mut Marks,
        moved: &mut PlaceSet,
    ) -> Result<(), HeldCycle>
        requires as_many_times { length times.old ≡ length self.now.net.now.events }
        requires as_many_flags { length due.old ≡ length self.now.net.now.events }
        requires as_many_moved { length moved.old.flags ≡ length self.now.net.now.events }
        requires early { AreWithin times.old (2 ^ 38) }
        ensures least { (floor : ℕ → ℕ) → MayBegin (graph_over self.now floor) times.old due.old
            → OnOk result (IsLeast (graph_over self.now floor) (slice_index times.new)) }
        ensures cyclic { (floor : ℕ → ℕ) → MayBegin (graph_over self.now floor) times.old due.old
            → OnErr result (HasNoCycle (graph_over self.now floor).shape → ⊥) }
        ensures none_due { OnOk result ((e : ℕ) → is_due due.new e ≡ false) }
        ensures as_many { length times.new ≡ length times.old }
        ensures as_many_due { length due.new ≡ length due.old }
        ensures notes { NotesMoves times.old times.new moved.old.flags moved.new.flags }
    {
        for round in 0..self.net.events() + 1 {
            self.sweep(round, times, due, moved);
            if !due.is_any() {
                return Ok(());
            }
        }
        Err(HeldCycle)
    }

    /// One round: raises the heads of the activities out of each event that is due, so many rounds after the begin.
    fn sweep(&self, round: usize, times: &mut [Secs], due: &mut Marks, moved: &mut PlaceSet)
        requires as_many_times { length times.old ≡ length self.now.net.now.events }
        requires as_many_flags { length due.old ≡ length self.now.net.now.events }
        requires as_many_moved { length moved.old.flags ≡ length self.now.net.now.events }
        requires few { round ≤ length self.now.net.now.events }
        requires within { AreWithin times.old (latest round 0) }
        ensures within { AreWithin times.new (latest (round + 1) 0) }
        ensures swept { (floor : ℕ → ℕ) → AreMet (graph_over self.now floor) times.old due.old
            → HasSwept (graph_over self.now floor) (length self.now.net.now.events) times.old times.new due.new }
        ensures as_many { length times.new ≡ length times.old }
        ensures as_many_due { length due.new ≡ length due.old }
        ensures notes { NotesMoves times.old times.new moved.old.flags moved.new.flags }
    {
        self.net.reveal();
        let mut start = 0;
        while let Some(event) = due.first_from(start) {
            due.clear(event);
            self.relax_from(event, times, due, moved);
            start = event + 1;
        }
    }

    /// Raises the heads of the held activities out of an event.
    fn relax_from(&self, event: usize, times: &mut [Secs], due: &mut Marks, moved: &mut PlaceSet)
        requires is_event { event < length self.now.net.now.events }
        requires as_many_times { length times.old ≡ length self.now.net.now.events }
        requires as_many_flags { length due.old ≡ length self.now.net.now.events }
        requires as_many_moved { length moved.old.flags ≡ length self.now.net.now.events }
        requires fits { slice_index times.old event < 2 ^ 63 }
        ensures notes { NotesMoves times.old times.new moved.old.flags moved.new.flags }
        ensures relaxes { (floor : ℕ → ℕ) → Relaxes (graph_over self.now floor) event times.old times.new due.old due.new }
    {
        self.net.reveal();
        let from = times[event];
        let row = row_out_of(self.net, event);
        for a in row {
            if self.held[*a] {
                raise_to(
                    self.net.activity(*a).head,
                    from + self.spans[*a],
                    times,
                    due,
                    moved,
                );
            }
        }
    }
}

/// Raises an event to a time, unless it is as late already.
fn raise_to(event: usize, time: Secs, times: &mut [Secs], due: &mut Marks, moved: &mut PlaceSet)
    requires is_event { event < length times.old }
    requires as_many_flags { length due.old ≡ length times.old }
    requires as_many_moved { length moved.old.flags ≡ length times.old }
    ensures raises { Raises event time times.old times.new due.old due.new }
    ensures notes { NotesMoves times.old times.new moved.old.flags moved.new.flags }
{
    if times[event] < time {
        times[event] = time;
        due.mark(event);
        moved.insert(event);
    }
}
