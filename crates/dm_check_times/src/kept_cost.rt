//! What a timetable costs, kept while its times change.
ghost use Rattle.std.specs.Prelude.{ℕ, ◌≡◌, ◌*◌, ◌^◌, ◌<◌, ◌≤◌, Bool, IsTrue, length, slice_index, slice_set, IfOk};
ghost use Rattle.dm_base.specs.declared.limits.TheConstants.{PENALTY, WEIGHT};
ghost use Rattle.dm_marks.specs.Moved.{ListsMoved};
ghost use Rattle.dm_rows.specs.Rows.{RowsValue, IsSized};
ghost use Rattle.dm_rows.specs.Cost.{cost_charging};
ghost use Rattle.dm_check_times.specs.Binding.{AreBelowLimit};
ghost use Rattle.dm_check_times.specs.KeptCosts.{IsKeptCostOf, IsLateFor, IsPricedFor, KeepsLate, RenewsWeight, charges_of, AreChargesTo};
ghost use Rattle.dm_check_times.specs.Noting.{AreAlikeBut};
ghost use Rattle.dm_check_times.specs.Inside.Agreeing.{InRow};
ghost use Rattle.dm_check_times.specs.Inside.Pricing.{Reprices};

use crate::charges::{Charges, priced_weight};
use crate::costing::{cancelled_weights, event_cost, lateness_cost};
use crate::row::{row_into, row_out_of};
use dm_base::{Cost, Milli, Secs};
use dm_marks::PlaceSet;
use dm_network::Network;
use dm_rows::Rows;
use std::alloc::{AllocError, Global};
use std::marker::Model;

/// Times of a network's events, with what their lateness costs and what the cancelled arrivals weigh, and for each activity the
/// weight of which the penalty is taken, with their sum. So the cost of these times is a sum of few numbers.
pub struct KeptCost {
    times: Vec<Secs>,
    lateness: Cost,
    cancelled: Cost,
    weights: Vec<Milli>,
    penalized: Cost,
}

impl Drop for KeptCost {
    fn drop(self) {
        let KeptCost {
            times: _,
            lateness: _,
            cancelled: _,
            weights: _,
            penalized: _,
        } = self;
    }
}

impl Model for KeptCost {
    ghost use Rattle.dm_check_times.specs.KeptCosts.{KeptCostValue};

    ghost Value = { KeptCostValue };

    ghost view = { λ k. record {
      times = k.times.items;
      lateness = k.lateness;
      cancelled = k.cancelled;
      weights = k.weights.items;
      penalized = k.penalized;
    } };

    ghost invariant = { λ k. Unit {0} };
}

impl KeptCost {
    /// That of a network, with every event at 0 and no weight. What it costs is to be taken from rows
    /// ([`take`](KeptCost::take), [`renew_all`](KeptCost::renew_all)).
    pub fn new(alloc: Global, net: &Network) -> Result<KeptCost, AllocError>
        ensures { IfOk result (IsKeptCostOf net.now) }
    {
        net.reveal();
        let times = vec![in alloc; 0; net.events()]?;
        Ok(KeptCost {
            times,
            lateness: 0,
            cancelled: 0,
            weights: vec![in alloc; 0; net.activities()]?,
            penalized: 0,
        })
    }

    /// Takes other times of rows, in seconds, and empties the set of events that have moved: with these alone, where the weights are
    /// those of the rows and every other time is as before, and else anew. It takes no memory.
    pub fn bring(
        &mut self,
        net: &Network,
        rows: &Rows,
        charges: &Charges<'_>,
        times: &[Secs],
        is_noted: bool,
        moved: &mut PlaceSet,
    )
        requires kept { IsKeptCostOf net.now self.old }
        requires sized { IsSized net.now rows.now }
        requires charges { AreChargesTo net.now charges.now }
        requires as_many { length times.now ≡ length net.now.events }
        requires early { AreBelowLimit times.now }
        requires as_many_moved { length moved.old.flags ≡ length net.now.events }
        requires priced { IsTrue is_noted → IsPricedFor net.now rows.now (charges_of net.now rows.now charges.now) self.old }
        requires noted { IsTrue is_noted → AreAlikeBut moved.old.flags self.old.times times.now }
        ensures kept { IsKeptCostOf net.now self.new }
        ensures times { self.new.times ≡ times.now }
        ensures priced { IsPricedFor net.now rows.now (charges_of net.now rows.now charges.now) self.new }
        ensures as_many_moved { length moved.new.flags ≡ length net.now.events }
    {
        if is_noted {
            moved.reveal();
            self.follow(net, rows, charges, times, moved.places());
        } else {
            self.take(net, rows, charges, times);
        }
        moved.clear();
    }

    /// Takes whole other times of rows, in seconds, and every weight anew. It takes no memory.
    pub fn take(&mut self, net: &Network, rows: &Rows, charges: &Charges<'_>, times: &[Secs])
        requires kept { IsKeptCostOf net.now self.old }
        requires sized { IsSized net.now rows.now }
        requires charges { AreChargesTo net.now charges.now }
        requires as_many { length times.now ≡ length net.now.events }
        requires early { AreBelowLimit times.now }
        ensures kept { IsKeptCostOf net.now self.new }
        ensures times { self.new.times ≡ times.now }
        ensures priced { IsPricedFor net.now rows.now (charges_of net.now rows.now charges.now) self.new }
    {
        self.set_times(net, times);
        self.renew_all(net, rows, charges);
    }

    /// Takes whole other times, and leaves what they cost.
    fn set_times(&mut self, net: &Network, times: &[Secs])
        requires kept { IsKeptCostOf net.now self.old }
        requires as_many { length times.now ≡ length net.now.events }
        requires early { AreBelowLimit times.now }
        ensures kept { IsKeptCostOf net.now self.new }
        ensures times { self.new.times ≡ times.now }
    {
        self.times.copy_from_slice(times);
    }

    /// Takes what the times cost anew. It takes no memory.
    pub fn renew_all(&mut self, net: &Network, rows: &Rows, charges: &Charges<'_>)
        requires kept { IsKeptCostOf net.now self.old }
        requires sized { IsSized net.now rows.now }
        requires charges { AreChargesTo net.now charges.now }
        ensures kept { IsKeptCostOf net.now self.new }
        ensures times { self.new.times ≡ self.old.times }
        ensures priced { IsPricedFor net.now rows.now (charges_of net.now rows.now charges.now) self.new }
    {
        self.renew_events(net, rows);
        self.renew_weights(net, rows, charges);
    }

    /// Takes what lateness costs and the weights of the cancelled arrivals anew, and leaves those of the activities.
    fn renew_events(&mut self, net: &Network, rows: &Rows)
        requires kept { IsKeptCostOf net.now self.old }
        requires sized { IsSized net.now rows.now }
        ensures kept { IsKeptCostOf net.now self.new }
        ensures times { self.new.times ≡ self.old.times }
        ensures late { IsLateFor net.now rows.now self.new }
    {
        self.lateness = lateness_cost(net, rows, &self.times);
        self.cancelled = cancelled_weights(net, rows);
    }

    /// Takes every weight of an activity anew.
    fn renew_weights(&mut self, net: &Network, rows: &Rows, charges: &Charges<'_>)
        requires kept { IsKeptCostOf net.now self.old }
        requires sized { IsSized net.now rows.now }
        requires charges { AreChargesTo net.now charges.now }
        requires late { IsLateFor net.now rows.now self.old }
        ensures kept { IsKeptCostOf net.now self.new }
        ensures times { self.new.times ≡ self.old.times }
        ensures priced { IsPricedFor net.now rows.now (charges_of net.now rows.now charges.now) self.new }
    {
        for a in 0..net.activities() {
            self.renew(net, rows, charges, a);
        }
    }

    /// Takes other times, in seconds, that differ from those of before at the listed events alone. It takes no memory, and looks
    /// at these and at the activities into them and out of them.
    pub fn follow(
        &mut self,
        net: &Network,
        rows: &Rows,
        charges: &Charges<'_>,
        times: &[Secs],
        moved: &[usize],
    )
        requires kept { IsKeptCostOf net.now self.old }
        requires sized { IsSized net.now rows.now }
        requires charges { AreChargesTo net.now charges.now }
        requires priced { IsPricedFor net.now rows.now (charges_of net.now rows.now charges.now) self.old }
        requires early { AreBelowLimit times.now }
        requires moved { ListsMoved self.old.times times.now moved.now }
        ensures kept { IsKeptCostOf net.now self.new }
        ensures times { self.new.times ≡ times.now }
        ensures priced { IsPricedFor net.now rows.now (charges_of net.now rows.now charges.now) self.new }
    {
        for i in moved {
            self.move_at(net, rows, charges, *i, times[*i]);
        }
    }

    /// The time of an event.
    fn time(&self, i: usize) -> Secs
        requires { i < length self.now.times }
        ensures { result ≡ slice_index self.now.times i }
    {
        self.times[i]
    }

    /// Takes another time of an event, and the weights of the activities into it and out of it anew, unless it is the same time.
    fn move_at(&mut self, net: &Network, rows: &Rows, charges: &Charges<'_>, i: usize, time: Secs)
        requires kept { IsKeptCostOf net.now self.old }
        requires sized { IsSized net.now rows.now }
        requires charges { AreChargesTo net.now charges.now }
        requires priced { IsPricedFor net.now rows.now (charges_of net.now rows.now charges.now) self.old }
        requires is_event { i < length net.now.events }
        requires early { time < 2 ^ 38 }
        ensures kept { IsKeptCostOf net.now self.new }
        ensures times { self.new.times ≡ slice_set self.old.times i time }
        ensures priced { IsPricedFor net.now rows.now (charges_of net.now rows.now charges.now) self.new }
    {
        if self.time(i) == time {
            return;
        }
        self.put(net, rows, i, time);
        self.renew_row(net, rows, charges, row_into(net, i));
        self.renew_row(net, rows, charges, row_out_of(net, i));
    }

    /// Takes another time of an event, and leaves the weights.
    fn put(&mut self, net: &Network, rows: &Rows, i: usize, time: Secs)
        requires kept { IsKeptCostOf net.now self.old }
        requires sized { IsSized net.now rows.now }
        requires late { IsLateFor net.now rows.now self.old }
        requires is_event { i < length net.now.events }
        requires early { time < 2 ^ 38 }
        ensures kept { IsKeptCostOf net.now self.new }
        ensures times { self.new.times ≡ slice_set self.old.times i time }
        ensures weights { self.new.weights ≡ self.old.weights }
        ensures late { IsLateFor net.now rows.now self.new }
    {
        net.reveal();
        let was = event_cost(net, rows, &self.times, i);
        self.times[i] = time;
        let now = event_cost(net, rows, &self.times, i);
        self.lateness = self.lateness + now - was;
    }

    /// Takes the weights of some activities anew.
    pub(crate) fn renew_row(
        &mut self,
        net: &Network,
        rows: &Rows,
        charges: &Charges<'_>,
        row: &[usize],
    )
        requires kept { IsKeptCostOf net.now self.old }
        requires sized { IsSized net.now rows.now }
        requires charges { AreChargesTo net.now charges.now }
        requires row { (k : ℕ) → k < length row.now → slice_index row.now k < length net.now.activities }
        ensures kept { IsKeptCostOf net.now self.new }
        ensures reprices { Reprices net.now rows.now (charges_of net.now rows.now charges.now) (InRow row.now (length row.now))
            self.old self.new }
    {
        for a in row {
            self.renew(net, rows, charges, *a);
        }
    }

    /// Takes the weight of an activity anew. It takes no memory.
    pub fn renew(&mut self, net: &Network, rows: &Rows, charges: &Charges<'_>, a: usize)
        requires kept { IsKeptCostOf net.now self.old }
        requires sized { IsSized net.now rows.now }
        requires charges { AreChargesTo net.now charges.now }
        requires is_activity { a < length net.now.activities }
        ensures kept { IsKeptCostOf net.now self.new }
        ensures renews { RenewsWeight net.now rows.now (charges_of net.now rows.now charges.now) a self.old self.new }
    {
        net.reveal();
        let weight = priced_weight(net, rows, charges, &self.times, a);
        self.set(net, a, weight);
    }

    /// Takes another weight of an activity.
    fn set(&mut self, net: &Network, a: usize, weight: Milli)
        requires kept { IsKeptCostOf net.now self.old }
        requires is_activity { a < length net.now.activities }
        requires small { weight ≤ 2 * WEIGHT }
        ensures kept { IsKeptCostOf net.now self.new }
        ensures weights { self.new.weights ≡ slice_set self.old.weights a weight }
        ensures times { self.new.times ≡ self.old.times }
        ensures late { KeepsLate self.old self.new }
    {
        net.reveal();
        let was = self.weight(a);
        self.weights[a] = weight;
        self.penalized = self.penalized + weight as u128 - was as u128;
    }

    /// The weight that is kept of an activity.
    fn weight(&self, a: usize) -> Milli
        requires { a < length self.now.weights }
        ensures { result ≡ slice_index self.now.weights a }
    {
        self.weights[a]
    }

    /// What the times cost, in thousandths of passenger seconds, where the weights are those of rows and charges.
    pub fn cost(&self, net: &Network, penalty: u64) -> Cost
        requires kept { IsKeptCostOf net.now self.now }
        requires penalty { penalty ≤ PENALTY }
        ensures { (rows : RowsValue) (charges : ℕ → Bool) → IsPricedFor net.now rows charges self.now
            → result ≡ cost_charging net.now rows charges self.now.times penalty }
    {
        net.reveal();
        self.lateness + penalty as u128 * (self.cancelled + self.penalized)
    }
}
