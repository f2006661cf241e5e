//! The timetable with its price, its moves and its readers.
ghost use Rattle.std.specs.Prelude.{◌≡◌, ◌+◌, ◌*◌, ◌^◌, ◌<◌, ◌≤◌, ◌⊎◌, true, false, length, replicate, slice_index, slice_set, IfOk, OnOk, OnErr};
ghost use Rattle.dm_base.specs.declared.limits.TheConstants.{PASSED_TIME, BOUND, DELAY, PENALTY};
ghost use Rattle.dm_live.specs.Live.{IsLive, IsAtRest, IsEnteredByNone, IsFixed, ReadsFew, is_fixed, with_mark, with_head, with_floor, with_span, with_held};
ghost use Rattle.dm_network.specs.Held.{is_held, IsCycleOf, HasNoCycleOf};
ghost use Rattle.dm_network.specs.Net.{Net, activity_at, places_into, places_out_of};
ghost use Rattle.dm_settle.specs.Constraints.{arcs_given, graph_given};
ghost use Rattle.dm_settle.specs.Settling.{AreLeast};
ghost use Rattle.dm_priced.specs.Priced.{is_flagged, IsPriced, priced_cost};

use crate::adding::{
    EventFlags, flag_beside, late_at, lost_at, missed_along, missed_with, weight_if,
};
use crate::totals::lateness_of;
use crate::watch::Watch;
use dm_base::{Cost, Secs, Steps};
use dm_graph::search::Cyclic;
use dm_live::LiveTimetable;
use dm_network::Network;
use dm_settle::{Move, Unwatched, Watcher};
use std::alloc::{AllocError, Global};
use std::marker::Model;
use std::sync::ledger::Ledger;

/// A live timetable, with what it costs.
///
/// Events and activities go by place; times, floors and spans are seconds. Its calls take the network with which it was
/// made, of which contracts say that it is priced: [`PricedTimetable::new`] ensures it, and every call keeps it.
pub struct PricedTimetable {
    live: LiveTimetable,

    /// The events that have passed.
    passed: Vec<bool>,

    /// The events that are cancelled.
    cancelled: Vec<bool>,

    /// The events that are cancelled, or beside which a change may be missed: those that have passed, and the tails of the changes
    /// whose heads have passed. Those of an event that is recalled or restored stay.
    beside: Vec<bool>,

    /// The activities that are charged for.
    charged: Vec<bool>,
    lateness: Cost,
    charged_weight: Cost,
    missed_weight: Cost,
}

impl Drop for PricedTimetable {
    fn drop(self) {
        let PricedTimetable {
            live: _,
            passed: _,
            cancelled: _,
            beside: _,
            charged: _,
            lateness: _,
            charged_weight: _,
            missed_weight: _,
        } = self;
    }
}

impl Model for PricedTimetable {
    ghost use Rattle.dm_priced.specs.Priced.{PricedValue};
    ghost use Rattle.dm_priced.specs.Inside.Adding.{AreWithin};

    ghost Value = { PricedValue };

    ghost view = { λ p. record {
      live = p.live;
      passed = p.passed.items;
      cancelled = p.cancelled.items;
      beside = p.beside.items;
      charged = p.charged.items;
      sums = record { lateness = p.lateness; charged = p.charged_weight; missed = p.missed_weight };
    } };

    ghost invariant = { λ p. AreWithin (record { lateness = p.lateness; charged = p.charged_weight; missed = p.missed_weight }) };
}

impl PricedTimetable {
    /// A live timetable with its price, where no event has passed or is cancelled and nothing is charged for. Its time is linear in
    /// events.
    pub fn new(
        alloc: Global,
        net: &Network,
        live: LiveTimetable,
    ) -> Result<PricedTimetable, AllocError>
        requires { IsLive net.now live }
        ensures priced { IfOk result (IsPriced net.now) }
        ensures live { IfOk result (λ priced. priced.live ≡ live) }
        ensures passed { IfOk result (λ priced. priced.passed ≡ replicate (length net.now.events) false) }
        ensures cancelled { IfOk result (λ priced. priced.cancelled ≡ replicate (length net.now.events) false) }
        ensures charged { IfOk result (λ priced. priced.charged ≡ replicate (length net.now.activities) false) }
    {
        net.reveal();
        live.times().is_early();
        let passed = vec![in alloc; false; net.events()]?;
        let cancelled = vec![in alloc; false; net.events()]?;
        let beside = vec![in alloc; false; net.events()]?;
        let charged = vec![in alloc; false; net.activities()]?;
        let lateness = lateness_of(net, live.times());
        Ok(PricedTimetable {
            live,
            passed,
            cancelled,
            beside,
            charged,
            lateness,
            charged_weight: 0,
            missed_weight: 0,
        })
    }

    /// Computes the marked events anew, as [`LiveTimetable::settle_watched`] does.
    pub fn settle<L: Ledger>(&mut self, net: &Network, steps: &mut Steps<L>)
        requires { IsPriced net.now self.old }
        ensures priced { IsPriced net.now self.new }
        ensures least { AreLeast (graph_given net.now self.new.live.given) self.new.live.times }
        ensures at_rest { IsAtRest self.new.live }
        ensures unchanged { self.new ≡ record self.old {
          live = record self.old.live
              { times = self.new.live.times; marks = self.new.live.marks };
          sums = self.new.sums;
        } }
        ensures few_reads { ReadsFew (arcs_given net.now self.old.live.given) self.old.live self.new.live steps.old steps.new }
    {
        self.settle_watched(net, &mut Unwatched, steps);
    }

    /// The same, with a watcher that is told of each time that changes.
    pub fn settle_watched<L: Ledger, W: Watcher>(
        &mut self,
        net: &Network,
        watcher: &mut W,
        steps: &mut Steps<L>,
    )
        requires priced { IsPriced net.now self.old }
        requires knows { W.knows watcher.old net.now self.old.live.given self.old.live.times }
        ensures priced { IsPriced net.now self.new }
        ensures least { AreLeast (graph_given net.now self.new.live.given) self.new.live.times }
        ensures at_rest { IsAtRest self.new.live }
        ensures unchanged { self.new ≡ record self.old {
          live = record self.old.live
              { times = self.new.live.times; marks = self.new.live.marks };
          sums = self.new.sums;
        } }
        ensures few_reads { ReadsFew (arcs_given net.now self.old.live.given) self.old.live self.new.live steps.old steps.new }
        ensures knows { W.knows watcher.new net.now self.new.live.given self.new.live.times }
    {
        net.reveal();
        let mut watch = Watch {
            flags: EventFlags {
                passed: &self.passed,
                cancelled: &self.cancelled,
            },
            beside: &self.beside,
            lateness: self.lateness,
            missed: self.missed_weight,
        };
        self.live.settle_watched(net, &mut watch, watcher, steps);
        self.live.times().is_early();
        self.lateness = watch.lateness;
        self.missed_weight = watch.missed;
    }

    /// Sets the floor of an event, as [`LiveTimetable::set_floor`] does.
    pub fn set_floor(&mut self, net: &Network, i: usize, floor: Secs)
        requires priced { IsPriced net.now self.old }
        requires is_event { i < length net.now.events }
        requires limit { floor ≤ PASSED_TIME }
        requires stays { is_fixed self.old.live.fixed i ≡ true → floor ≡ slice_index self.old.live.given.floors i }
        ensures priced { IsPriced net.now self.new }
        ensures floor { self.new.live.given ≡ with_floor self.old.live.given i floor }
        ensures marked { (floor < slice_index self.old.live.given.floors i) ⊎ (slice_index self.old.live.times i < floor)
            → self.new.live.marks ≡ with_mark self.old.live.marks i }
        ensures unmarked { slice_index self.old.live.given.floors i ≤ floor → floor ≤ slice_index self.old.live.times i
            → self.new.live.marks ≡ self.old.live.marks }
        ensures order { self.new.live.order ≡ self.old.live.order }
        ensures times { self.new.live.times ≡ self.old.live.times }
        ensures fixed_stay { self.new.live.fixed ≡ self.old.live.fixed }
        ensures others { self.new ≡ record self.old { live = self.new.live } }
    {
        self.live.set_floor(net, i, floor);
    }

    /// Fixes the time of an event into which nothing is held, as [`LiveTimetable::fix`] does. The rows are those of the
    /// activities into the event and out of it.
    pub fn fix<L: Ledger>(
        &mut self,
        net: &Network,
        i: usize,
        time: Secs,
        into: &[usize],
        out_of: &[usize],
        steps: &mut Steps<L>,
    )
        requires priced { IsPriced net.now self.old }
        requires is_event { i < length net.now.events }
        requires entered { IsEnteredByNone net.now self.old.live.given.held i }
        requires limit { time ≤ PASSED_TIME }
        requires into { into.now ≡ places_into net.now i }
        requires out_of { out_of.now ≡ places_out_of net.now i }
        ensures priced { IsPriced net.now self.new }
        ensures fixed { IsFixed (arcs_given net.now self.old.live.given) i time self.old.live self.new.live steps.old steps.new }
        ensures floor { self.new.live.given ≡ with_floor self.old.live.given i time }
        ensures flag { self.new.live.fixed ≡ slice_set self.old.live.fixed i true }
        ensures cycle_stays { self.new.live.order.cycle ≡ self.old.live.order.cycle }
        ensures others { self.new ≡ record self.old { live = self.new.live; sums = self.new.sums } }
    {
        net.reveal();
        let mut watch = Watch {
            flags: EventFlags {
                passed: &self.passed,
                cancelled: &self.cancelled,
            },
            beside: &self.beside,
            lateness: self.lateness,
            missed: self.missed_weight,
        };
        let to = Move {
            constraints: self.live.constraints(),
            times: self.live.times(),
            event: i,
            time,
            into,
            out_of,
        };
        watch.moves(net, &to);
        self.live.fix(net, i, time, out_of, steps);
        self.live.times().is_early();
        self.lateness = watch.lateness;
        self.missed_weight = watch.missed;
    }

    /// Lets the time of an event move again, as [`LiveTimetable::free`] does. The row is that of the activities out of it.
    pub fn free(&mut self, net: &Network, i: usize, out_of: &[usize])
        requires priced { IsPriced net.now self.old }
        requires is_event { i < length net.now.events }
        requires out_of { out_of.now ≡ places_out_of net.now i }
        ensures priced { IsPriced net.now self.new }
        ensures flag { self.new.live.fixed ≡ slice_set self.old.live.fixed i false }
        ensures given { self.new.live.given ≡ self.old.live.given }
        ensures times { self.new.live.times ≡ self.old.live.times }
        ensures marks { self.new.live.marks ≡ self.old.live.marks }
        ensures cycle_stays { self.new.live.order.cycle ≡ self.old.live.order.cycle }
        ensures others { self.new ≡ record self.old { live = self.new.live } }
    {
        self.live.free(net, i, out_of);
    }

    /// Sets the span of an activity, as [`LiveTimetable::set_span`] does.
    pub fn set_span(&mut self, net: &Network, a: usize, span: Secs)
        requires priced { IsPriced net.now self.old }
        requires is_activity { a < length net.now.activities }
        requires limit { span ≤ BOUND + DELAY }
        ensures priced { IsPriced net.now self.new }
        ensures span { self.new ≡ record self.old {
          live = record self.old.live
              { given = with_span self.old.live.given a span; marks = with_head net.now self.old.live.marks a };
          sums = self.new.sums;
        } }
    {
        net.reveal();
        let flags = EventFlags {
            passed: &self.passed,
            cancelled: &self.cancelled,
        };
        let earlier = self.live.span(a);
        let before = missed_with(net, flags, self.live.times(), a, earlier);
        let after = missed_with(net, flags, self.live.times(), a, span);
        self.live.set_span(net, a, span);
        self.missed_weight = self.missed_weight + after - before;
    }

    /// Lets an activity go, as [`LiveTimetable::release`] does.
    pub fn release(&mut self, net: &Network, a: usize)
        requires priced { IsPriced net.now self.old }
        requires is_activity { a < length net.now.activities }
        ensures priced { IsPriced net.now self.new }
        ensures held { self.new.live.given ≡ with_held self.old.live.given a false }
        ensures mark { self.new.live.marks ≡ with_head net.now self.old.live.marks a }
        ensures times { self.new.live.times ≡ self.old.live.times }
        ensures cycle_stays { self.new.live.order.cycle ≡ self.old.live.order.cycle }
        ensures fixed_stay { self.new.live.fixed ≡ self.old.live.fixed }
        ensures others { self.new ≡ record self.old { live = self.new.live } }
    {
        self.live.release(net, a);
    }

    /// Holds an activity, or refuses it, as [`LiveTimetable::hold`] does.
    pub fn hold(&mut self, net: &Network, a: usize) -> Result<(), Cyclic>
        requires priced { IsPriced net.now self.old }
        requires is_activity { a < length net.now.activities }
        requires open { is_fixed self.old.live.fixed (activity_at net.now a).head ≡ false }
        ensures priced { IsPriced net.now self.new }
        ensures fixed_stay { self.new.live.fixed ≡ self.old.live.fixed }
        ensures held { OnOk result (self.new.live.given ≡ with_held self.old.live.given a true) }
        ensures mark { OnOk result (self.new.live.marks ≡ with_head net.now self.old.live.marks a) }
        ensures times { self.new.live.times ≡ self.old.live.times }
        ensures no_cycle { OnOk result (HasNoCycleOf net.now (is_held (with_held self.old.live.given a true).held)) }
        ensures cycle_stays { OnOk result (self.new.live.order.cycle ≡ self.old.live.order.cycle) }
        ensures unchanged { OnErr result (self.new.live ≡ record self.old.live
            { order = record self.old.live.order { cycle = self.new.live.order.cycle } }) }
        ensures cycle { OnErr result (IsCycleOf net.now (is_held (with_held self.old.live.given a true).held) self.new.live.order.cycle) }
        ensures others { self.new ≡ record self.old { live = self.new.live } }
    {
        match self.live.hold(net, a) {
            Ok(()) => Ok(()),
            Err(Cyclic) => Err(Cyclic),
        }
    }

    /// Takes an event as passed. The row is that of the activities into it.
    pub fn pass(&mut self, net: &Network, i: usize, into: &[usize])
        requires priced { IsPriced net.now self.old }
        requires is_event { i < length net.now.events }
        requires into { into.now ≡ places_into net.now i }
        ensures priced { IsPriced net.now self.new }
        ensures passed { self.new ≡ record self.old {
          passed = slice_set self.old.passed i true;
          beside = self.new.beside;
          sums = self.new.sums;
        } }
    {
        self.set_passed(net, i, true, into);
    }

    /// Takes an event as one that has not passed. The row is that of the activities into it.
    pub fn recall(&mut self, net: &Network, i: usize, into: &[usize])
        requires priced { IsPriced net.now self.old }
        requires is_event { i < length net.now.events }
        requires into { into.now ≡ places_into net.now i }
        ensures priced { IsPriced net.now self.new }
        ensures passed { self.new ≡ record self.old {
          passed = slice_set self.old.passed i false;
          beside = self.new.beside;
          sums = self.new.sums;
        } }
    {
        self.set_passed(net, i, false, into);
    }

    fn set_passed(&mut self, net: &Network, i: usize, passed: bool, into: &[usize])
        requires priced { IsPriced net.now self.old }
        requires is_event { i < length net.now.events }
        requires into { into.now ≡ places_into net.now i }
        ensures priced { IsPriced net.now self.new }
        ensures passed { self.new ≡ record self.old {
          passed = slice_set self.old.passed i passed;
          beside = self.new.beside;
          sums = self.new.sums;
        } }
    {
        net.reveal();
        let constraints = self.live.constraints();
        let times = self.live.times();
        let flags = EventFlags {
            passed: &self.passed,
            cancelled: &self.cancelled,
        };
        let before = missed_along(net, constraints, flags, times, into);
        self.passed[i] = passed;
        let flags_now = EventFlags {
            passed: &self.passed,
            cancelled: &self.cancelled,
        };
        let after = missed_along(net, constraints, flags_now, times, into);
        self.missed_weight = self.missed_weight + after - before;
        flag_beside(net, &mut self.beside, i, into);
    }

    /// Takes an event as cancelled, or as one that is not. The row is that of the activities out of it.
    pub fn cancel(&mut self, net: &Network, i: usize, cancelled: bool, out_of: &[usize])
        requires priced { IsPriced net.now self.old }
        requires is_event { i < length net.now.events }
        requires out_of { out_of.now ≡ places_out_of net.now i }
        ensures priced { IsPriced net.now self.new }
        ensures cancelled { self.new ≡ record self.old {
          cancelled = slice_set self.old.cancelled i cancelled;
          beside = self.new.beside;
          sums = self.new.sums;
        } }
    {
        net.reveal();
        let was = self.is_cancelled(i);
        let constraints = self.live.constraints();
        let times = self.live.times();
        times.is_early();
        let time = times.time(i);
        let flags = EventFlags {
            passed: &self.passed,
            cancelled: &self.cancelled,
        };
        let missed = missed_along(net, constraints, flags, times, out_of);
        self.cancelled[i] = cancelled;
        let flags_now = EventFlags {
            passed: &self.passed,
            cancelled: &self.cancelled,
        };
        let missed_now = missed_along(net, constraints, flags_now, times, out_of);
        let late = late_at(net, was, i, time);
        let late_now = late_at(net, cancelled, i, time);
        let lost = lost_at(net, was, i);
        let lost_now = lost_at(net, cancelled, i);
        let missed_weight = self.missed_weight + missed_now - missed;
        let lateness = self.lateness + late_now - late;
        let charged_weight = self.charged_weight + lost_now - lost;
        self.missed_weight = missed_weight;
        self.lateness = lateness;
        self.charged_weight = charged_weight;
        self.beside[i] = true;
    }

    /// Whether an event is taken as cancelled.
    pub fn is_cancelled(&self, i: usize) -> bool
        requires { i < length self.now.cancelled }
        ensures { result ≡ is_flagged self.now.cancelled i }
    {
        self.cancelled[i]
    }

    /// Charges for an activity, or no longer.
    pub fn charge(&mut self, net: &Network, a: usize, charged: bool)
        requires priced { IsPriced net.now self.old }
        requires is_activity { a < length net.now.activities }
        ensures priced { IsPriced net.now self.new }
        ensures charged { self.new ≡ record self.old { charged = slice_set self.old.charged a charged; sums = self.new.sums } }
    {
        net.reveal();
        let weight = net.activity(a).weight;
        let before = weight_if(self.is_charged(a), weight);
        let after = weight_if(charged, weight);
        self.charged_weight = self.charged_weight + after - before;
        self.charged[a] = charged;
    }

    /// Whether the activity at a place is charged for.
    fn is_charged(&self, a: usize) -> bool
        requires { a < length self.now.charged }
        ensures { result ≡ is_flagged self.now.charged a }
    {
        self.charged[a]
    }

    /// What the timetable costs, in thousandths of passenger seconds, for a penalty in seconds for each passenger, at most
    /// 1,000,000. It is a sum of three numbers that are kept.
    pub fn cost(&self, penalty: u64) -> Cost
        requires { penalty ≤ PENALTY }
        ensures cost { (net : Net) → IsPriced net self.now → result ≡ priced_cost net self.now penalty }
        ensures limit { result < 2 ^ 100 }
    {
        let penalty = penalty as u128;
        self.lateness + penalty * self.charged_weight + penalty * self.missed_weight
    }

    /// The timetable.
    pub fn live(&self) -> &LiveTimetable
        ensures { result.now ≡ self.now.live }
    {
        &self.live
    }
}
