//! Least times that follow what binds as it changes.
ghost use Rattle.std.specs.Prelude.{ℕ, ◌≡◌, ◌+◌, ◌^◌, ◌<◌, ◌≤◌, true, false, Bool, List, length, slice_index, OnOk, OnErr};
ghost use Rattle.dm_network.specs.Held.{arcs_of, is_held};
ghost use Rattle.dm_graph.specs.Arcs.{HasNoCycle};
ghost use Rattle.dm_graph.specs.Graph.{IsLeast};
ghost use Rattle.dm_check_times.specs.Binding.{is_due};
ghost use Rattle.dm_marks.specs.Marked.{is_marked};
ghost use Rattle.dm_check_times.specs.Following.{Follows};
ghost use Rattle.dm_check_times.specs.Noting.{NotesMoves};
ghost use Rattle.dm_check_times.specs.Inside.Bound.{graph_over};
ghost use Rattle.dm_check_times.specs.Inside.Rising.{AreWithin};
ghost use Rattle.dm_check_times.specs.Inside.Spreading.{HasSpread, SpreadsFrom, SpreadsTo, SpreadsAlong, IsClosed, HasReset, HasMarkedTails, MarksTail};

use crate::bindings::Bindings;
use crate::rounds::HeldCycle;
use crate::row::{row_into, row_out_of};
use dm_base::Secs;
use dm_marks::{Marks, PlaceSet};

impl Bindings<'_> {
    /// Makes times that were least before what binds has changed the least ones again. Events are stale whose time may have become
    /// wrong by a change of their own floor or of an activity into them ([`Follows`]); they are also due. The times of these and of
    /// the events that were held to them begin anew from the floors. `Err` comes exactly where what is held has a cycle; nothing
    /// is known of times and marks then. Where it answers `Ok`, no event is stale or due. Events whose times it writes are noted as
    /// moved. It takes no memory, and looks at what is stale or due alone.
    pub(crate) fn follow(
        &self,
        floors: &[Secs],
        times: &mut [Secs],
        stale: &mut Marks,
        due: &mut Marks,
        moved: &mut PlaceSet,
    ) -> Result<(), HeldCycle>
        requires as_many_floors { length floors.now ≡ length self.now.net.now.events }
        requires as_many_times { length times.old ≡ length self.now.net.now.events }
        requires as_many_stale { length stale.old ≡ length self.now.net.now.events }
        requires as_many_due { length due.old ≡ length self.now.net.now.events }
        requires as_many_moved { length moved.old.flags ≡ length self.now.net.now.events }
        requires early { AreWithin times.old (2 ^ 38) }
        requires early_floors { AreWithin floors.now (2 ^ 38) }
        requires follows { Follows self.now.net.now self.now.held.now self.now.spans.now floors.now times.old stale.old }
        requires all_due { (e : ℕ) → is_marked stale.old e ≡ true → is_due due.old e ≡ true }
        ensures least { OnOk result (IsLeast (graph_over self.now (slice_index floors.now)) (slice_index times.new)) }
        ensures cyclic { OnErr result (HasNoCycle (arcs_of self.now.net.now (is_held self.now.held.now)) → ⊥) }
        ensures none_due { OnOk result ((e : ℕ) → is_due due.new e ≡ false) }
        ensures none_stale { (e : ℕ) → is_marked stale.new e ≡ false }
        ensures as_many { length times.new ≡ length self.now.net.now.events }
        ensures as_many_stale { length stale.new ≡ length self.now.net.now.events }
        ensures as_many_due { length due.new ≡ length self.now.net.now.events }
        ensures notes { NotesMoves times.old times.new moved.old.flags moved.new.flags }
    {
        self.spread(times, stale, due);
        self.reset(floors, times, stale, due, moved);
        self.raise(times, due, moved)
    }

    /// Makes the head of each held activity stale that its stale tail holds to its time. Events are due of which that is not known.
    fn spread(&self, times: &[Secs], stale: &mut Marks, due: &mut Marks)
        requires as_many_times { length times.now ≡ length self.now.net.now.events }
        requires as_many_stale { length stale.old ≡ length self.now.net.now.events }
        requires as_many_due { length due.old ≡ length self.now.net.now.events }
        requires early { AreWithin times.now (2 ^ 38) }
        requires all_due { (e : ℕ) → is_marked stale.old e ≡ true → is_due due.old e ≡ true }
        ensures grows { (e : ℕ) → is_marked stale.old e ≡ true → is_marked stale.new e ≡ true }
        ensures closed { IsClosed self.now.net.now self.now.held.now self.now.spans.now times.now stale.new }
        ensures none_due { (e : ℕ) → is_due due.new e ≡ false }
        ensures as_many_stale { length stale.new ≡ length self.now.net.now.events }
        ensures as_many_due { length due.new ≡ length self.now.net.now.events }
    {
        for _round in 0..self.net.events() {
            self.spread_once(times, stale, due);
            if !due.is_any() {
                return;
            }
        }
        stale.mark_all();
        due.clear_all();
    }

    /// The same, once for each event that is due.
    fn spread_once(&self, times: &[Secs], stale: &mut Marks, due: &mut Marks)
        requires as_many_times { length times.now ≡ length self.now.net.now.events }
        requires as_many_stale { length stale.old ≡ length self.now.net.now.events }
        requires as_many_due { length due.old ≡ length self.now.net.now.events }
        requires early { AreWithin times.now (2 ^ 38) }
        ensures spread { (before : List Bool)
            → HasSpread self.now.net.now self.now.held.now self.now.spans.now times.now before stale.old due.old
            → HasSpread self.now.net.now self.now.held.now self.now.spans.now times.now before stale.new due.new }
        ensures as_many_stale { length stale.new ≡ length self.now.net.now.events }
        ensures as_many_due { length due.new ≡ length self.now.net.now.events }
    {
        self.net.reveal();
        let mut start = 0;
        while let Some(event) = due.first_from(start) {
            due.clear(event);
            self.spread_from(times, event, stale, due);
            start = event + 1;
        }
    }

    /// Makes the heads of the held activities out of an event stale that it holds to their times, and due where they were not.
    fn spread_from(&self, times: &[Secs], event: usize, stale: &mut Marks, due: &mut Marks)
        requires is_event { event < length self.now.net.now.events }
        requires as_many_times { length times.now ≡ length self.now.net.now.events }
        requires as_many_stale { length stale.old ≡ length self.now.net.now.events }
        requires as_many_due { length due.old ≡ length self.now.net.now.events }
        requires early { AreWithin times.now (2 ^ 38) }
        ensures { SpreadsFrom self.now.net.now self.now.held.now self.now.spans.now times.now event stale.old stale.new due.old due.new }
    {
        self.net.reveal();
        let from = times[event];
        let row = row_out_of(self.net, event);
        for a in row {
            self.spread_along(times, from, *a, stale, due);
        }
    }

    /// Makes the head of an activity stale and due where this is held and its tail, at this time, holds it to its time.
    fn spread_along(&self, times: &[Secs], from: Secs, a: usize, stale: &mut Marks, due: &mut Marks)
        requires is_activity { a < length self.now.net.now.activities }
        requires as_many_times { length times.now ≡ length self.now.net.now.events }
        requires as_many_stale { length stale.old ≡ length self.now.net.now.events }
        requires as_many_due { length due.old ≡ length self.now.net.now.events }
        requires early { from ≤ 2 ^ 38 }
        ensures { SpreadsAlong self.now.net.now self.now.held.now self.now.spans.now times.now from a stale.old stale.new due.old due.new }
    {
        self.net.reveal();
        if !self.held[a] {
            return;
        }
        let head = self.net.activity(a).head;
        if from + self.spans[a] < times[head] {
            return;
        }
        make_stale(head, stale, due);
    }

    /// Lets the times of stale events begin anew from their floors, and takes their marks away. Due are these then, and the tails of
    /// held activities into them.
    fn reset(
        &self,
        floors: &[Secs],
        times: &mut [Secs],
        stale: &mut Marks,
        due: &mut Marks,
        moved: &mut PlaceSet,
    )
        requires as_many_floors { length floors.now ≡ length self.now.net.now.events }
        requires as_many_times { length times.old ≡ length self.now.net.now.events }
        requires as_many_stale { length stale.old ≡ length self.now.net.now.events }
        requires as_many_due { length due.old ≡ length self.now.net.now.events }
        requires as_many_moved { length moved.old.flags ≡ length self.now.net.now.events }
        ensures reset { HasReset self.now.net.now self.now.held.now floors.now (length self.now.net.now.events) stale.old times.old
            times.new due.new }
        ensures none_stale { (e : ℕ) → is_marked stale.new e ≡ false }
        ensures as_many_stale { length stale.new ≡ length self.now.net.now.events }
        ensures as_many_due { length due.new ≡ length self.now.net.now.events }
        ensures notes { NotesMoves times.old times.new moved.old.flags moved.new.flags }
    {
        self.net.reveal();
        let mut start = 0;
        while let Some(event) = stale.first_from(start) {
            stale.clear(event);
            times[event] = floors[event];
            moved.insert(event);
            due.mark(event);
            self.mark_tails(event, due);
            start = event + 1;
        }
    }

    /// Makes the tails of the held activities into an event due.
    fn mark_tails(&self, event: usize, due: &mut Marks)
        requires is_event { event < length self.now.net.now.events }
        requires as_many { length due.old ≡ length self.now.net.now.events }
        ensures { HasMarkedTails self.now.net.now self.now.held.now event due.old due.new }
    {
        self.net.reveal();
        let row = row_into(self.net, event);
        for a in row {
            self.mark_tail(*a, due);
        }
    }

    /// Makes the tail of an activity due, where this is held.
    fn mark_tail(&self, a: usize, due: &mut Marks)
        requires is_activity { a < length self.now.net.now.activities }
        requires as_many { length due.old ≡ length self.now.net.now.events }
        ensures { MarksTail self.now.net.now self.now.held.now a due.old due.new }
    {
        self.net.reveal();
        if !self.held[a] {
            return;
        }
        due.mark(self.net.activity(a).tail);
    }
}

/// Makes an event stale and due, unless it is stale already.
pub(crate) fn make_stale(event: usize, stale: &mut Marks, due: &mut Marks)
    requires stale { event < length stale.old }
    requires due { event < length due.old }
    ensures { SpreadsTo event stale.old stale.new due.old due.new }
{
    if stale.is(event) {
        return;
    }
    stale.mark(event);
    due.mark(event);
}
