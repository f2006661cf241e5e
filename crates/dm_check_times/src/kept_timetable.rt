//! The least timetable of rows, as these change.
ghost use Rattle.std.specs.Prelude.{ℕ, ◌≡◌, ◌+◌, ◌^◌, ◌<◌, ◌≤◌, true, false, length, slice_index, slice_set, IfOk, OnOk, OnErr};
ghost use Rattle.dm_base.specs.declared.limits.TheConstants.{BOUND, DELAY};
ghost use Rattle.dm_graph.specs.Arcs.{HasNoCycle as HasNoCycleOfArcs};
ghost use Rattle.dm_network.specs.Held.{is_held, arcs_of};
ghost use Rattle.dm_rows.specs.Rows.{IsSized};
ghost use Rattle.dm_rows.specs.Active.{HasNoCycle};
ghost use Rattle.dm_check_times.specs.Binding.{AreBindings};
ghost use Rattle.dm_check_times.specs.Timetables.{IsRoomOf, IsTimetableOf, IsSettledFor, IsLeastNow, AreAtMost, AreOfRows, AreLeastFor, AgreesWith};
ghost use Rattle.dm_check_times.specs.Timetables.{KeepsSpans, RenewsEvent, BindsActivity, RenewsActivity, TakesClock};
ghost use Rattle.dm_check_times.specs.Inside.Renewing.{IsKeptAt, IsMetAt};
ghost use Rattle.dm_check_times.specs.Inside.Spreading.{Spreads};
ghost use Rattle.dm_marks.specs.Marked.{is_marked};
ghost use Rattle.dm_check_times.specs.Noting.{NotesMoves};

use crate::beginning::mark_changed;
use crate::bindings::Bindings;
use crate::following::make_stale;
use crate::rounds::HeldCycle;
use crate::rows::{fill_floors, fill_spans, flag_active};
use dm_base::Secs;
use dm_marks::{Marks, PlaceSet};
use dm_network::Network;
use dm_rows::{Rows, floor_of, is_active, span_of};
use std::alloc::{AllocError, Global};
use std::marker::Model;

/// What binds in rows, and a timetable that was least for what bound when it was computed last. What has changed since then is
/// marked, so that the next one costs what has changed.
pub struct KeptTimetable {
    held: Vec<bool>,
    spans: Vec<Secs>,
    floors: Vec<Secs>,
    times: Vec<Secs>,
    stale: Marks,
    due: Marks,

    /// The clock of the rows that the floors are of.
    clock: Secs,
}

impl Drop for KeptTimetable {
    fn drop(self) {
        let KeptTimetable {
            held: _,
            spans: _,
            floors: _,
            times: _,
            stale: _,
            due: _,
            clock: _,
        } = self;
    }
}

impl Model for KeptTimetable {
    ghost use Rattle.dm_check_times.specs.Timetables.{KeptTimetableValue};

    ghost Value = { KeptTimetableValue };

    ghost view = { λ t. record {
      held = t.held.items;
      spans = t.spans.items;
      floors = t.floors.items;
      times = t.times.items;
      stale = t.stale;
      due = t.due;
      clock = t.clock;
    } };

    ghost invariant = { λ t. Unit {0} };
}

impl KeptTimetable {
    /// Room for a network. Nothing is known of it yet.
    pub fn new(alloc: Global, net: &Network) -> Result<KeptTimetable, AllocError>
        ensures { IfOk result (IsRoomOf net.now) }
    {
        Ok(KeptTimetable {
            held: vec![in alloc; false; net.activities()]?,
            spans: vec![in alloc; 0; net.activities()]?,
            floors: vec![in alloc; 0; net.events()]?,
            times: vec![in alloc; 0; net.events()]?,
            stale: Marks::new(alloc, net.events())?,
            due: Marks::new(alloc, net.events())?,
            clock: 0,
        })
    }

    /// Room where these activities are held, with the spans and the floors of rows. Nothing is known of its times yet.
    pub fn holding(
        alloc: Global,
        net: &Network,
        rows: &Rows,
        held: Vec<bool>,
    ) -> Result<KeptTimetable, AllocError>
        requires sized { IsSized net.now rows.now }
        requires flags { length held.items ≡ length net.now.activities }
        ensures room { IfOk result (IsRoomOf net.now) }
        ensures rows { IfOk result (AreOfRows net.now rows.now) }
        ensures held { IfOk result (λ t. t.held ≡ held.items) }
    {
        net.reveal();
        let mut spans = vec![in alloc; 0; net.activities()]?;
        fill_spans(net, rows, &mut spans);
        let mut floors = vec![in alloc; 0; net.events()]?;
        fill_floors(net, rows, &mut floors);
        Ok(KeptTimetable {
            held,
            spans,
            floors,
            times: vec![in alloc; 0; net.events()]?,
            stale: Marks::new(alloc, net.events())?,
            due: Marks::new(alloc, net.events())?,
            clock: rows.clock(),
        })
    }

    /// The flags of the activities that are held.
    pub fn held(&self) -> &[bool]
        ensures { result.now ≡ self.now.held }
    {
        &self.held
    }

    /// The floors of the events, in seconds.
    pub fn floors(&self) -> &[Secs]
        ensures { result.now ≡ self.now.floors }
    {
        &self.floors
    }

    /// The times that were computed last, in seconds.
    pub fn times(&self) -> &[Secs]
        ensures { result.now ≡ self.now.times }
    {
        &self.times
    }

    /// The time of an event that was computed last, in seconds.
    pub fn time(&self, event: usize) -> Secs
        requires { event < length self.now.times }
        ensures { result ≡ slice_index self.now.times event }
    {
        self.times[event]
    }

    pub(crate) fn floor(&self, event: usize) -> Secs
        requires { event < length self.now.floors }
        ensures { result ≡ slice_index self.now.floors event }
    {
        self.floors[event]
    }

    /// The clock of the rows that the floors are of.
    pub(crate) fn clock(&self) -> Secs
        ensures { result ≡ self.now.clock }
    {
        self.clock
    }

    /// Whether an activity is held.
    fn is_held(&self, a: usize) -> bool
        requires { a < length self.now.held }
        ensures { result ≡ is_held self.now.held a }
    {
        self.held[a]
    }

    /// The span of an activity.
    fn span(&self, a: usize) -> Secs
        requires { a < length self.now.spans }
        ensures { result ≡ slice_index self.now.spans a }
    {
        self.spans[a]
    }

    /// Computes the least timetable of rows from their floors. `Err` comes exactly where they have a cycle; nothing is known of
    /// it then. It takes no memory.
    pub fn fill(
        &mut self,
        net: &Network,
        rows: &Rows,
        moved: &mut PlaceSet,
    ) -> Result<(), HeldCycle>
        requires sized { IsSized net.now rows.now }
        requires room { IsRoomOf net.now self.old }
        requires as_many_moved { length moved.old.flags ≡ length net.now.events }
        ensures as_many_moved { length moved.new.flags ≡ length moved.old.flags }
        ensures room { IsRoomOf net.now self.new }
        ensures settled { OnOk result (IsSettledFor net.now rows.now self.new) }
        ensures cyclic { OnErr result (HasNoCycle net.now rows.now → ⊥) }
    {
        net.reveal();
        rows.is_within_limits();
        self.clock = rows.clock();
        flag_active(net, rows, &mut self.held);
        fill_spans(net, rows, &mut self.spans);
        fill_floors(net, rows, &mut self.floors);
        self.times.copy_from_slice(&self.floors);
        self.stale.clear_all();
        self.due.mark_all();
        let bindings = Bindings {
            net,
            held: &self.held,
            spans: &self.spans,
        };
        bindings.raise(&mut self.times, &mut self.due, moved)
    }

    /// Computes the least timetable of the rows that it was kept with. `Err` comes exactly where they have a cycle; nothing is
    /// known of it then. Events whose times it writes are noted as moved. It takes no memory, and costs what has changed since the
    /// last one.
    pub fn settle(
        &mut self,
        net: &Network,
        rows: &Rows,
        moved: &mut PlaceSet,
    ) -> Result<(), HeldCycle>
        requires timetable { IsTimetableOf net.now self.old }
        requires agrees { AgreesWith net.now rows.now self.old }
        requires as_many_moved { length moved.old.flags ≡ length net.now.events }
        ensures notes { NotesMoves self.old.times self.new.times moved.old.flags moved.new.flags }
        ensures room { IsRoomOf net.now self.new }
        ensures settled { OnOk result (IsSettledFor net.now rows.now self.new) }
        ensures cyclic { OnErr result (HasNoCycle net.now rows.now → ⊥) }
    {
        net.reveal();
        rows.is_within_limits();
        self.follow(net, moved)
    }

    /// Makes the times the least ones for what is held. `Err` comes exactly where it has a cycle; nothing is known of the times
    /// then. Events whose times it writes are noted as moved. It takes no memory, and costs what has changed since the last ones.
    pub fn follow(&mut self, net: &Network, moved: &mut PlaceSet) -> Result<(), HeldCycle>
        requires timetable { IsTimetableOf net.now self.old }
        requires as_many_moved { length moved.old.flags ≡ length net.now.events }
        ensures notes { NotesMoves self.old.times self.new.times moved.old.flags moved.new.flags }
        ensures room { IsRoomOf net.now self.new }
        ensures held { self.new.held ≡ self.old.held }
        ensures keeps { KeepsSpans self.old self.new }
        ensures least { OnOk result (IsLeastNow net.now self.new) }
        ensures cyclic { OnErr result (HasNoCycleOfArcs (arcs_of net.now (is_held self.old.held)) → ⊥) }
        ensures none_stale { (e : ℕ) → is_marked self.new.stale e ≡ false }
    {
        let bindings = Bindings {
            net,
            held: &self.held,
            spans: &self.spans,
        };
        bindings.follow(
            &self.floors,
            &mut self.times,
            &mut self.stale,
            &mut self.due,
            moved,
        )
    }

    /// Takes times that are least where other activities are held. They are to follow what is held. It takes no memory.
    pub fn begin_from(&mut self, net: &Network, held: &[bool], times: &[Secs])
        requires room { IsRoomOf net.now self.old }
        requires bindings { AreBindings net.now self.old.held self.old.spans }
        requires early_floors { AreAtMost self.old.floors (2 ^ 38) }
        requires least { AreLeastFor net.now self.old.spans self.old.floors held.now times.now }
        ensures timetable { IsTimetableOf net.now self.new }
        ensures held { self.new.held ≡ self.old.held }
        ensures keeps { KeepsSpans self.old self.new }
    {
        self.times.copy_from_slice(times);
        self.stale.clear_all();
        self.due.clear_all();
        mark_changed(net, held, &self.held, &mut self.stale, &mut self.due);
    }

    /// Takes the clock from rows, and no floor.
    pub(crate) fn take_clock(&mut self, net: &Network, rows: &Rows)
        requires { IsTimetableOf net.now self.old }
        ensures timetable { IsTimetableOf net.now self.new }
        ensures takes { TakesClock rows.now self.old self.new }
    {
        self.clock = rows.clock();
    }

    /// Takes the floor of an event from rows. It takes no memory.
    pub fn renew_event(&mut self, net: &Network, rows: &Rows, event: usize)
        requires sized { IsSized net.now rows.now }
        requires timetable { IsTimetableOf net.now self.old }
        requires is_event { event < length net.now.events }
        ensures timetable { IsTimetableOf net.now self.new }
        ensures renews { RenewsEvent net.now rows.now event self.old self.new }
    {
        net.reveal();
        rows.is_within_limits();
        let floor = floor_of(net, rows, event);
        let was = self.floor(event);
        let time = self.time(event);
        let stays = stays_at(was, floor, time);
        make_stale_unless(stays, event, &mut self.stale, &mut self.due);
        self.floors[event] = floor;
    }

    /// Takes from rows whether an activity binds, and its span. It takes no memory.
    pub fn renew_activity(&mut self, net: &Network, rows: &Rows, a: usize)
        requires sized { IsSized net.now rows.now }
        requires timetable { IsTimetableOf net.now self.old }
        requires is_activity { a < length net.now.activities }
        ensures timetable { IsTimetableOf net.now self.new }
        ensures renews { RenewsActivity net.now rows.now a self.old self.new }
    {
        rows.is_within_limits();
        let (held, span) = (is_active(net, rows, a), span_of(net, rows, a));
        self.bind(net, a, held, span);
    }

    /// Makes an activity held, or no longer. It takes no memory.
    pub fn set_held(&mut self, net: &Network, a: usize, value: bool)
        requires timetable { IsTimetableOf net.now self.old }
        requires is_activity { a < length net.now.activities }
        ensures timetable { IsTimetableOf net.now self.new }
        ensures held { self.new.held ≡ slice_set self.old.held a value }
        ensures times { self.new.times ≡ self.old.times }
        ensures keeps { KeepsSpans self.old self.new }
    {
        let span = self.span(a);
        self.bind(net, a, value, span);
    }

    /// Makes an activity held, or no longer, with this span. Its head is stale and due then, unless it may keep its time.
    fn bind(&mut self, net: &Network, a: usize, held: bool, span: Secs)
        requires timetable { IsTimetableOf net.now self.old }
        requires is_activity { a < length net.now.activities }
        requires short { span ≤ BOUND + DELAY }
        ensures timetable { IsTimetableOf net.now self.new }
        ensures binds { BindsActivity a held span self.old self.new }
    {
        net.reveal();
        let activity = net.activity(a);
        let was_held = self.is_held(a);
        let was = self.span(a);
        let from = self.time(activity.tail);
        let to = self.time(activity.head);
        let stays = stays_along(was_held, was, held, span, from, to);
        make_stale_unless(stays, activity.head, &mut self.stale, &mut self.due);
        self.held[a] = held;
        self.spans[a] = span;
    }
}

/// Makes an event stale and due, unless it may keep its time.
fn make_stale_unless(stays: bool, event: usize, stale: &mut Marks, due: &mut Marks)
    requires stale { event < length stale.old }
    requires due { event < length due.old }
    ensures spreads { Spreads stale.old stale.new due.old due.new }
    ensures fresh { is_marked stale.new event ≡ false → stays ≡ true }
{
    if stays {
        return;
    }
    make_stale(event, stale, due);
}

/// Whether an event may keep its time when its floor changes.
fn stays_at(was: Secs, floor: Secs, time: Secs) -> bool
    ensures { result ≡ true → IsKeptAt was floor time }
{
    if time < floor {
        return false;
    }
    was <= floor || was < time
}

/// Whether the head of an activity may keep its time when this comes to bind or no longer does, or its span changes.
fn stays_along(was_held: bool, was: Secs, held: bool, span: Secs, from: Secs, to: Secs) -> bool
    requires short { span ≤ BOUND + DELAY }
    requires was_short { was ≤ BOUND + DELAY }
    requires early { from ≤ 2 ^ 38 }
    ensures { result ≡ true → IsMetAt was_held was held span from to }
{
    if held && to < from + span {
        return false;
    }
    if was_held && to <= from + was {
        return held && was <= span;
    }
    true
}
