//! The timetable, its moves and its readers.
ghost use Rattle.std.specs.Prelude.{◌≡◌, ◌+◌, ◌<◌, ◌≤◌, ◌⊎◌, true, false, length, replicate, slice_index, slice_set, IfOk, IfErr, OnOk, OnErr};
ghost use Rattle.dm_base.specs.declared.limits.TheConstants.{PASSED_TIME, BOUND, DELAY};
ghost use Rattle.dm_network.specs.Held.{is_held, IsCycleOf, HasNoCycleOf};
ghost use Rattle.dm_network.specs.Net.{activity_at, places_out_of};
ghost use Rattle.dm_order.specs.Orders.{IsOrderOf};
ghost use Rattle.dm_settle.specs.Constraints.{IsSizedFor, arcs_given, graph_given};
ghost use Rattle.dm_settle.specs.Settling.{AreLeast, AreEarly};
ghost use Rattle.dm_live.specs.Live.{IsLive, RefusesLive, IsAtRest, IsEnteredByNone, IsFixed, ReadsFew, is_fixed, with_mark, with_head, with_floor, with_span, with_held};

use crate::aligning::align;
use crate::marking::mark_heads;
use crate::placing::place_marks;
use crate::taking::{add_out_of, add_unless_fixed};
use dm_base::{Secs, Steps};
use dm_graph::search::Cyclic;
use dm_marks::Marks;
use dm_network::Network;
use dm_order::{Order, OrderFault};
use dm_settle::{Constraints, Sweep, Times, Watcher};
use std::alloc::Global;
use std::marker::Model;
use std::sync::ledger::Ledger;

/// The times of the events of one network under constraints that change.
///
/// Events and activities go by place; times, floors and spans are seconds. Its calls take the network with which it was
/// made, of which contracts say that it is live: [`LiveTimetable::new`] ensures it, and every call keeps it.
pub struct LiveTimetable {
    constraints: Constraints,
    order: Order,
    times: Times,

    /// The events whose times may not be right, by place of the event.
    marks: Marks,

    /// The events that are fixed: nothing is held into them, and their times are their floors. The order holds nothing out of
    /// them.
    fixed: Vec<bool>,

    /// Room for the marks of a sweep, by place in the order. Between calls none is set.
    placed: Marks,
}

impl Drop for LiveTimetable {
    fn drop(self) {
        let LiveTimetable {
            constraints: _,
            order: _,
            times: _,
            marks: _,
            fixed: _,
            placed: _,
        } = self;
    }
}

impl Model for LiveTimetable {
    ghost use Rattle.dm_live.specs.Live.{LiveValue};

    ghost Value = { LiveValue };

    ghost use Rattle.std.specs.Prelude.{length};
    ghost use Rattle.dm_live.specs.Inside.Placing.{IsClear};

    ghost view = { λ l. record { given = l.constraints; order = l.order; times = l.times; marks = l.marks; fixed = l.fixed.items } };

    ghost invariant = { λ l. IsClear (length l.marks) l.placed };
}

impl LiveTimetable {
    /// The timetable of these constraints, with the room of an order of the same network, which may hold other activities: it is
    /// changed where the two differ, and what both hold costs a look. Every event is marked:
    /// [`LiveTimetable::settle_watched`] computes the times.
    ///
    /// [`OrderFault::Cyclic`] comes exactly where the activities that the constraints hold have a cycle, unless memory is
    /// short: then [`OrderFault::OutOfMemory`].
    pub fn new(
        alloc: Global,
        net: &Network,
        constraints: Constraints,
        mut order: Order,
    ) -> Result<LiveTimetable, OrderFault>
        requires sized { IsSizedFor net.now constraints }
        requires ordered { IsOrderOf net.now order }
        ensures live { IfOk result (IsLive net.now) }
        ensures given { IfOk result (λ live. live.given ≡ constraints) }
        ensures marks { IfOk result (λ live. live.marks ≡ replicate (length net.now.events) true) }
        ensures fixed { IfOk result (λ live. live.fixed ≡ replicate (length net.now.events) false) }
        ensures no_cycle { OnOk result (HasNoCycleOf net.now (is_held constraints.held)) }
        ensures refused { IfErr result (RefusesLive net.now constraints) }
    {
        align(&mut order, net, &constraints)?;
        let times = Times::room(alloc, net)?;
        let marks = Marks::all(alloc, net.events())?;
        let fixed = vec![in alloc; false; net.events()]?;
        let placed = Marks::new(alloc, net.events())?;
        Ok(LiveTimetable {
            constraints,
            order,
            times,
            marks,
            fixed,
            placed,
        })
    }

    /// Computes the marked events anew, and goes on along the held activities out of every event whose time changes. What
    /// comes out is the least timetable of the constraints, and no mark is left. Two watchers are told of each time that
    /// changes.
    pub fn settle_watched<L: Ledger, W: Watcher, V: Watcher>(
        &mut self,
        net: &Network,
        watcher: &mut W,
        other: &mut V,
        steps: &mut Steps<L>,
    )
        requires live { IsLive net.now self.old }
        requires knows { W.knows watcher.old net.now self.old.given self.old.times }
        requires other_knows { V.knows other.old net.now self.old.given self.old.times }
        ensures least { AreLeast (graph_given net.now self.new.given) self.new.times }
        ensures early { AreEarly self.new.times }
        ensures live { IsLive net.now self.new }
        ensures at_rest { IsAtRest self.new }
        ensures unchanged { self.new ≡ record self.old { times = self.new.times; marks = self.new.marks } }
        ensures few_reads { ReadsFew (arcs_given net.now self.old.given) self.old self.new steps.old steps.new }
        ensures knows { W.knows watcher.new net.now self.new.given self.new.times }
        ensures flags { W.flags watcher.new ≡ W.flags watcher.old }
        ensures other_knows { V.knows other.new net.now self.new.given self.new.times }
    {
        net.reveal();
        place_marks(
            &mut self.marks,
            &self.fixed,
            self.order.order(),
            self.order.ranks(),
            &mut self.placed,
        );
        let sweep = Sweep {
            net,
            constraints: &self.constraints,
            order: self.order.order(),
            ranks: self.order.ranks(),
        };
        sweep.settle_watched(&mut self.placed, &mut self.times, watcher, other, steps);
    }

    /// Sets the floor of an event, at most the latest passed time; a fixed event keeps its floor. The event is marked where its
    /// floor falls or its time is below the floor.
    pub fn set_floor(&mut self, net: &Network, i: usize, floor: Secs)
        requires live { IsLive net.now self.old }
        requires is_event { i < length net.now.events }
        requires limit { floor ≤ PASSED_TIME }
        requires stays { is_fixed self.old.fixed i ≡ true → floor ≡ slice_index self.old.given.floors i }
        ensures live { IsLive net.now self.new }
        ensures floor { self.new.given ≡ with_floor self.old.given i floor }
        ensures marked { (floor < slice_index self.old.given.floors i) ⊎ (slice_index self.old.times i < floor)
            → self.new.marks ≡ with_mark self.old.marks i }
        ensures unmarked { slice_index self.old.given.floors i ≤ floor → floor ≤ slice_index self.old.times i
            → self.new.marks ≡ self.old.marks }
        ensures order { self.new.order ≡ self.old.order }
        ensures times { self.new.times ≡ self.old.times }
        ensures fixed_stay { self.new.fixed ≡ self.old.fixed }
    {
        let _events = net.events();
        let falls = floor < self.floor(i);
        let late = self.time(i) < floor;
        self.constraints.set_floor(i, floor);
        if falls || late {
            self.marks.mark(i);
        }
    }

    /// Fixes the time of an event into which nothing is held: this is its floor and its time, and it is not marked. The activities
    /// out of it, which are those of this row, leave the order. Where its time differs, the heads of the held ones are marked,
    /// which reads one row.
    pub fn fix<L: Ledger>(
        &mut self,
        net: &Network,
        i: usize,
        time: Secs,
        out_of: &[usize],
        steps: &mut Steps<L>,
    )
        requires live { IsLive net.now self.old }
        requires is_event { i < length net.now.events }
        requires entered { IsEnteredByNone net.now self.old.given.held i }
        requires limit { time ≤ PASSED_TIME }
        requires out_of { out_of.now ≡ places_out_of net.now i }
        ensures live { IsLive net.now self.new }
        ensures fixed { IsFixed (arcs_given net.now self.old.given) i time self.old self.new steps.old steps.new }
        ensures floor { self.new.given ≡ with_floor self.old.given i time }
        ensures flag { self.new.fixed ≡ slice_set self.old.fixed i true }
        ensures cycle_stays { self.new.order.cycle ≡ self.old.order.cycle }
    {
        let differs = self.time(i) != time;
        self.constraints.set_floor(i, time);
        self.times.set(i, time);
        self.marks.clear(i);
        self.order.remove(out_of);
        self.fixed[i] = true;
        if differs {
            mark_heads(&mut self.marks, net, &self.constraints, i, steps);
        }
    }

    /// Lets the time of an event move again: what is held out of it, by this row, takes its places in the order. Nothing is held
    /// into a fixed event, so that no cycle comes of it.
    pub fn free(&mut self, net: &Network, i: usize, out_of: &[usize])
        requires live { IsLive net.now self.old }
        requires is_event { i < length net.now.events }
        requires out_of { out_of.now ≡ places_out_of net.now i }
        ensures live { IsLive net.now self.new }
        ensures flag { self.new.fixed ≡ slice_set self.old.fixed i false }
        ensures given { self.new.given ≡ self.old.given }
        ensures times { self.new.times ≡ self.old.times }
        ensures marks { self.new.marks ≡ self.old.marks }
        ensures cycle_stays { self.new.order.cycle ≡ self.old.order.cycle }
    {
        self.fixed[i] = false;
        add_out_of(&mut self.order, net, &self.constraints, i, out_of);
    }

    /// Sets the span of an activity, at most a lower bound and a delay together, and marks the head.
    pub fn set_span(&mut self, net: &Network, a: usize, span: Secs)
        requires live { IsLive net.now self.old }
        requires is_activity { a < length net.now.activities }
        requires limit { span ≤ BOUND + DELAY }
        ensures live { IsLive net.now self.new }
        ensures span { self.new ≡ record self.old { given = with_span self.old.given a span; marks = with_head net.now self.old.marks a } }
    {
        net.reveal();
        self.constraints.set_span(a, span);
        self.marks.mark(net.activity(a).head);
    }

    /// Lets an activity go, and marks the head.
    pub fn release(&mut self, net: &Network, a: usize)
        requires live { IsLive net.now self.old }
        requires is_activity { a < length net.now.activities }
        ensures live { IsLive net.now self.new }
        ensures held { self.new.given ≡ with_held self.old.given a false }
        ensures mark { self.new.marks ≡ with_head net.now self.old.marks a }
        ensures times { self.new.times ≡ self.old.times }
        ensures cycle_stays { self.new.order.cycle ≡ self.old.order.cycle }
        ensures fixed_stay { self.new.fixed ≡ self.old.fixed }
    {
        net.reveal();
        self.order.remove(&[a]);
        self.constraints.set_held(a, false);
        self.marks.mark(net.activity(a).head);
    }

    /// Holds an activity whose head is not fixed, and marks the head. Where it makes a cycle with those held, it is refused,
    /// nothing has changed, and [`LiveTimetable::last_cycle`] is such a cycle. One out of a fixed event is not refused, and
    /// takes no place in the order.
    pub fn hold(&mut self, net: &Network, a: usize) -> Result<(), Cyclic>
        requires live { IsLive net.now self.old }
        requires is_activity { a < length net.now.activities }
        requires open { is_fixed self.old.fixed (activity_at net.now a).head ≡ false }
        ensures live { IsLive net.now self.new }
        ensures fixed_stay { self.new.fixed ≡ self.old.fixed }
        ensures held { OnOk result (self.new.given ≡ with_held self.old.given a true) }
        ensures mark { OnOk result (self.new.marks ≡ with_head net.now self.old.marks a) }
        ensures times { self.new.times ≡ self.old.times }
        ensures no_cycle { OnOk result (HasNoCycleOf net.now (is_held (with_held self.old.given a true).held)) }
        ensures cycle_stays { OnOk result (self.new.order.cycle ≡ self.old.order.cycle) }
        ensures unchanged { OnErr result (self.new ≡ record self.old { order = record self.old.order { cycle = self.new.order.cycle } }) }
        ensures cycle { OnErr result (IsCycleOf net.now (is_held (with_held self.old.given a true).held) self.new.order.cycle) }
    {
        net.reveal();
        let fixed = self.is_fixed(net.activity(a).tail);
        match add_unless_fixed(&mut self.order, net, a, fixed) {
            Ok(()) => {
                self.constraints.set_held(a, true);
                self.marks.mark(net.activity(a).head);
                Ok(())
            }
            Err(Cyclic) => Err(Cyclic),
        }
    }

    /// What the events are held to.
    pub fn constraints(&self) -> &Constraints
        ensures { result.now ≡ self.now.given }
    {
        &self.constraints
    }

    /// The times of the events.
    pub fn times(&self) -> &Times
        ensures { result.now ≡ self.now.times }
    {
        &self.times
    }

    /// The time of the event at a place.
    pub fn time(&self, i: usize) -> Secs
        requires { i < length self.now.times }
        ensures { result ≡ slice_index self.now.times i }
    {
        self.times.time(i)
    }

    /// Whether the activity at a place is held.
    pub fn is_held(&self, a: usize) -> bool
        requires { a < length self.now.given.held }
        ensures { result ≡ is_held self.now.given.held a }
    {
        self.constraints.is_held(a)
    }

    /// Whether the event at a place is fixed.
    pub fn is_fixed(&self, i: usize) -> bool
        requires { i < length self.now.fixed }
        ensures { result ≡ is_fixed self.now.fixed i }
    {
        self.fixed[i]
    }

    /// The floor of the event at a place.
    pub fn floor(&self, i: usize) -> Secs
        requires { i < length self.now.given.floors }
        ensures value { result ≡ slice_index self.now.given.floors i }
        ensures limit { result ≤ PASSED_TIME }
    {
        self.constraints.floor(i)
    }

    /// The span of the activity at a place.
    pub fn span(&self, a: usize) -> Secs
        requires { a < length self.now.given.spans }
        ensures value { result ≡ slice_index self.now.given.spans a }
        ensures limit { result ≤ BOUND + DELAY }
    {
        self.constraints.span(a)
    }

    /// The activities of the cycle for which an activity was refused last, each head the next tail.
    pub fn last_cycle(&self) -> &[usize]
        ensures { result.now ≡ self.now.order.cycle }
    {
        self.order.last_cycle()
    }
}
