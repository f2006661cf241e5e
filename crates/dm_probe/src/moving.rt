//! A timetable that holds what decisions hold, and what a share of it costs.
ghost use Rattle.std.specs.Prelude.{◌≡◌, ◌<◌, ◌≤◌};
ghost use Rattle.dm_base.specs.declared.limits.TheConstants.{PENALTY};
ghost use Rattle.dm_live.specs.Live.{NoneFixed};
ghost use Rattle.dm_priced.specs.Priced.{IsPriced};

use crate::choices::{Choices, Side};
use crate::shares::{Arrival, Connection, Share, lateness_cost};
use dm_base::{Cost, Milli, Secs, Steps};
use dm_network::Network;
use dm_priced::PricedTimetable;
use dm_rows::Choice;
use dm_settle::{Move, Watcher};
use std::alloc::{AllocError, Global};
use std::marker::{Brand, Model};
use std::sync::ledger::{Blank, Ledger};

/// What the lateness of the arrivals of a share costs, kept while times move.
#[derive(Clone, Copy)]
struct Lateness<'w> {
    /// The weight of each event that counts, and 0 of every other.
    weights: &'w [Milli],
    cost: Cost,
}

impl Watcher for Lateness<'_> {
    ghost use Rattle.std.specs.Prelude.{[]};

    ghost knows = { λ w net given times. Unit {0} };

    ghost flags = { λ w. [] };

    fn moves(&mut self, net: &Network, to: &Move<'_>) {
        let weight = self.weights.get(to.event).copied().unwrap_or(0);
        if weight == 0 || to.event >= net.events() || to.event >= to.times.events() {
            return;
        }
        let due = net.event(to.event).time;
        let before = lateness_cost(weight, to.times.time(to.event), due);
        let after = lateness_cost(weight, to.time, due);
        self.cost = self.cost.saturating_add(after).saturating_sub(before);
    }
}

/// A change whose head has passed, which counts where it is missed.
#[derive(Clone, Copy)]
struct Missable {
    act: usize,
    weight: Milli,
}

/// The relaxed problem of a path that grows and shrinks, in which a share of the cost may be loaded. Times follow what is held or
/// let go when they are settled.
pub struct Mover<'a> {
    net: &'a Network,
    penalty: u64,
    choices: &'a Choices,
    priced: PricedTimetable,

    /// The side on which each choice is decided.
    sides: Vec<Option<Side>>,

    /// The weights of the share: of its arrivals by event, and of its changes by number of the choice.
    weights: Vec<Milli>,
    charges: Vec<Milli>,
    missable: Vec<Missable>,

    /// What the share's arrivals cost, and the weight of its changes that are dropped.
    lateness: Cost,
    dropped: Cost,
    is_settled: bool,

    /// How many decisions were made or tried.
    tried: u64,
}

impl Drop for Mover<'_> {
    fn drop(self) {
        let Mover {
            net: _,
            penalty: _,
            choices: _,
            priced: _,
            sides: _,
            weights: _,
            charges: _,
            missable: _,
            lateness: _,
            dropped: _,
            is_settled: _,
            tried: _,
        } = self;
    }
}

impl<'a> Model for Mover<'a> {
    ghost use Rattle.std.specs.Prelude.{◌≤◌};
    ghost use Rattle.dm_base.specs.declared.limits.TheConstants.{PENALTY};
    ghost use Rattle.dm_live.specs.Live.{NoneFixed};
    ghost use Rattle.dm_priced.specs.Priced.{IsPriced};

    ghost Value = { Unit {0} };

    ghost view = { λ m. tt };

    ghost invariant = { λ m. (m.penalty ≤ PENALTY) × IsPriced m.net.now m.priced × NoneFixed m.priced.live.fixed };
}

impl<'a> Mover<'a> {
    /// A timetable in which no event is fixed, with none of the choices decided and no share loaded.
    pub fn new(
        alloc: Global,
        net: &'a Network,
        penalty: u64,
        choices: &'a Choices,
        priced: PricedTimetable,
    ) -> Result<Mover<'a>, AllocError>
        requires penalty { penalty ≤ PENALTY }
        requires priced { IsPriced net.now priced }
        requires open { NoneFixed priced.live.fixed }
    {
        let sides = vec![in alloc; None; choices.len()]?;
        let charges = vec![in alloc; 0; choices.len()]?;
        let weights = vec![in alloc; 0; net.events()]?;
        Ok(Mover {
            net,
            penalty,
            choices,
            priced,
            sides,
            weights,
            charges,
            missable: Vec::new(alloc),
            lateness: 0,
            dropped: 0,
            is_settled: false,
            tried: 0,
        })
    }

    pub fn net(&self) -> &'a Network {
        self.net
    }

    pub fn choices(&self) -> &'a Choices {
        self.choices
    }

    pub fn penalty(&self) -> u64 {
        self.penalty
    }

    /// How many decisions were made or tried.
    pub fn tried(&self) -> u64 {
        self.tried
    }

    /// The side on which a choice is decided.
    pub fn side(&self, number: usize) -> Option<Side> {
        self.sides.get(number).copied().flatten()
    }

    /// Computes the times that were moved since this was done last.
    pub fn settle(&mut self) {
        if self.is_settled {
            return;
        }
        let mut watch = Lateness {
            weights: &self.weights,
            cost: self.lateness,
        };
        settle::<Brand>(&mut self.priced, self.net, &mut watch, Blank::new(1));
        self.lateness = watch.cost;
        self.is_settled = true;
    }

    /// What the path costs when relaxed.
    pub fn cost(&mut self) -> Cost {
        self.settle();
        self.priced.cost(self.penalty)
    }

    /// What the terms of the share that is loaded cost.
    pub fn share_cost(&mut self) -> Cost {
        self.settle();
        let weight = self.dropped.saturating_add(self.missed());
        let penalties = weight.saturating_mul(Cost::from(self.penalty));
        self.lateness.saturating_add(penalties)
    }

    /// The weight of the share's changes that are missed.
    fn missed(&self) -> Cost {
        let mut weight: Cost = 0;
        for missable in &self.missable {
            if self.is_early(missable.act) {
                weight = weight.saturating_add(Cost::from(missable.weight));
            }
        }
        weight
    }

    /// Has these terms count, and no others.
    pub fn load(&mut self, share: &Share) -> Result<(), AllocError> {
        self.settle();
        for arrival in &share.arrivals {
            self.count_arrival(*arrival);
        }
        for connection in &share.connections {
            self.count_connection(*connection)?;
        }
        Ok(())
    }

    fn count_arrival(&mut self, arrival: Arrival) {
        let time = self.time(arrival.event);
        if let Some(slot) = self.weights.get_mut(arrival.event) {
            *slot = arrival.weight;
            let late = lateness_cost(arrival.weight, time, arrival.due);
            self.lateness = self.lateness.saturating_add(late);
        }
    }

    fn count_connection(&mut self, connection: Connection) -> Result<(), AllocError> {
        let Some(number) = connection.number else {
            self.missable.push(Missable {
                act: connection.act,
                weight: connection.weight,
            })?;
            return Ok(());
        };
        let is_dropped = self.side(number) == Some(Side::Second);
        if let Some(slot) = self.charges.get_mut(number) {
            *slot = connection.weight;
            if is_dropped {
                self.dropped = self.dropped.saturating_add(Cost::from(connection.weight));
            }
        }
        Ok(())
    }

    /// Has the terms of the share that is loaded count no more.
    pub fn unload(&mut self, share: &Share) {
        self.discount_arrivals(&share.arrivals);
        self.discount_connections(&share.connections);
        self.missable.clear();
        self.lateness = 0;
        self.dropped = 0;
    }

    fn discount_arrivals(&mut self, arrivals: &[Arrival]) {
        for arrival in arrivals {
            self.discount_arrival(arrival.event);
        }
    }

    fn discount_arrival(&mut self, event: usize) {
        if let Some(slot) = self.weights.get_mut(event) {
            *slot = 0;
        }
    }

    fn discount_connections(&mut self, connections: &[Connection]) {
        for connection in connections {
            if let Some(number) = connection.number {
                self.discount_choice(number);
            }
        }
    }

    fn discount_choice(&mut self, number: usize) {
        if let Some(slot) = self.charges.get_mut(number) {
            *slot = 0;
        }
    }

    /// Decides an undecided choice, unless that makes a cycle.
    pub fn decide(&mut self, number: usize, side: Side) -> bool {
        self.tried = self.tried.saturating_add(1);
        if self.side(number).is_some() || !self.turn_on(number, side) {
            return false;
        }
        self.set_side(number, Some(side));
        true
    }

    /// Takes back the decision of a choice.
    pub fn undecide(&mut self, number: usize) {
        if let Some(side) = self.side(number) {
            self.turn_off(number, side);
            self.set_side(number, None);
        }
    }

    /// What the share costs with one decision more, and more than anything where that makes a cycle.
    pub fn share_cost_with(&mut self, number: usize, side: Side) -> Cost {
        self.tried = self.tried.saturating_add(1);
        if self.side(number).is_some() || !self.turn_on(number, side) {
            return Cost::MAX;
        }
        let cost = self.share_cost();
        self.turn_off(number, side);
        cost
    }

    /// What the path costs with one decision more, and more than anything where that makes a cycle.
    pub fn cost_with(&mut self, number: usize, side: Side) -> Cost {
        self.tried = self.tried.saturating_add(1);
        if self.side(number).is_some() || !self.turn_on(number, side) {
            return Cost::MAX;
        }
        let cost = self.cost();
        self.turn_off(number, side);
        cost
    }

    fn set_side(&mut self, number: usize, side: Option<Side>) {
        if let Some(slot) = self.sides.get_mut(number) {
            *slot = side;
        }
    }

    /// Holds and charges for what binds on a side of a choice, unless that makes a cycle.
    fn turn_on(&mut self, number: usize, side: Side) -> bool {
        let choices = self.choices;
        let Some(act) = choices.dropped(number, side) else {
            return self.hold(choices.binding(number, side));
        };
        self.charge(act, true);
        let weight = self.charges.get(number).copied().unwrap_or(0);
        self.dropped = self.dropped.saturating_add(Cost::from(weight));
        true
    }

    /// Lets go what binds on a side of a choice, and charges for nothing.
    fn turn_off(&mut self, number: usize, side: Side) {
        let choices = self.choices;
        let Some(act) = choices.dropped(number, side) else {
            return self.release(choices.binding(number, side));
        };
        self.charge(act, false);
        let weight = self.charges.get(number).copied().unwrap_or(0);
        self.dropped = self.dropped.saturating_sub(Cost::from(weight));
    }

    /// Holds activities. It is false where that makes a cycle: then they are not held.
    fn hold(&mut self, acts: &[usize]) -> bool {
        for k in 0..acts.len() {
            if !self.hold_one(acts[k]) {
                self.release(&acts[..k]);
                return false;
            }
        }
        true
    }

    fn hold_one(&mut self, act: usize) -> bool {
        self.is_settled = false;
        act < self.net.activities() && self.priced.hold(self.net, act).is_ok()
    }

    /// Lets activities go.
    fn release(&mut self, acts: &[usize]) {
        for act in acts {
            self.release_one(*act);
        }
    }

    fn release_one(&mut self, act: usize) {
        self.is_settled = false;
        if act < self.net.activities() {
            self.priced.release(self.net, act);
        }
    }

    fn charge(&mut self, act: usize, charged: bool) {
        if act < self.net.activities() {
            self.priced.charge(self.net, act, charged);
        }
    }

    /// The time that an event had when the times were settled last, in seconds, or 0 where there is no such event.
    pub fn time(&self, event: usize) -> Secs {
        let times = self.priced.live().times();
        if event < times.events() {
            times.time(event)
        } else {
            0
        }
    }

    /// When the tail and the span of an activity let its head come, in seconds, or 0 where there is no such activity.
    pub fn earliest(&self, act: usize) -> Secs {
        if act >= self.net.activities() {
            return 0;
        }
        let tail = self.time(self.net.activity(act).tail);
        tail.saturating_add(self.priced.live().span(act))
    }

    /// Whether there is such an activity, and its head came before its tail and its span allow.
    pub fn is_early(&self, act: usize) -> bool {
        act < self.net.activities() && self.time(self.net.activity(act).head) < self.earliest(act)
    }

    /// Whether there is such an activity, it is held, and its head came just when its tail and its span allow.
    pub fn is_tight(&self, act: usize) -> bool {
        act < self.net.activities()
            && self.priced.live().is_held(act)
            && self.time(self.net.activity(act).head) == self.earliest(act)
    }

    /// Whether the times do not meet what binds on a side.
    pub fn is_unmet(&self, number: usize, side: Side) -> bool {
        for act in self.choices.binding(number, side) {
            if self.is_early(*act) {
                return true;
            }
        }
        false
    }

    /// Whether a choice is undecided and the times of the last settling do not keep it.
    pub fn is_violated(&self, number: usize) -> bool {
        let Some(free) = self.choices.get(number) else {
            return false;
        };
        if self.side(number).is_some() || !self.is_unmet(number, Side::First) {
            return false;
        }
        matches!(free.choice, Choice::Change(_)) || self.is_unmet(number, Side::Second)
    }

    /// Whether a choice holds the times or costs: a change is dropped, or what binds on its side is tight.
    pub fn is_binding(&self, number: usize) -> bool {
        let Some(side) = self.side(number) else {
            return false;
        };
        if let Some(act) = self.choices.dropped(number, side) {
            return self.is_early(act);
        }
        for act in self.choices.binding(number, side) {
            if self.is_tight(*act) {
                return true;
            }
        }
        false
    }
}

/// The activities into an event, and none where there is no such event.
pub fn entering(net: &Network, event: usize) -> &[usize] {
    row_into::<Brand>(net, event, Blank::new(1))
}

/// Settles a timetable. Nobody asks how many steps it takes.
fn settle<L: Ledger>(
    priced: &mut PricedTimetable,
    net: &Network,
    watch: &mut Lateness<'_>,
    blank: Blank,
)
    requires name { blank.name ≡ L.name }
    requires parts { blank.parts ≡ L.parts }
    requires has_a_part { 0 < blank.parts }
    requires priced { IsPriced net.now priced.old }
    requires open { NoneFixed priced.old.live.fixed }
    ensures priced { IsPriced net.now priced.new }
    ensures open { NoneFixed priced.new.live.fixed }
{
    let mut steps = Steps::<L>::new(blank);
    priced.settle_watched(net, watch, &mut steps);
}

/// The activities into an event. Nobody asks how many steps it takes.
fn row_into<L: Ledger>(net: &Network, event: usize, blank: Blank) -> &[usize]
    requires name { blank.name ≡ L.name }
    requires parts { blank.parts ≡ L.parts }
    requires has_a_part { 0 < blank.parts }
{
    if event >= net.events() {
        return &[];
    }
    let mut steps = Steps::<L>::new(blank);
    net.in_row(event, &mut steps)
}
