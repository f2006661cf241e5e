//! A timetable that holds what decisions hold.
ghost use Rattle.std.specs.Prelude.{◌≡◌, ◌<◌, ◌≤◌};
ghost use Rattle.dm_base.specs.declared.limits.TheConstants.{PENALTY};
ghost use Rattle.dm_live.specs.Live.{NoneFixed};
ghost use Rattle.dm_priced.specs.Priced.{IsPriced};

use dm_base::{Cost, Secs, Steps};
use dm_network::Network;
use dm_priced::PricedTimetable;
use std::marker::{Brand, Model};
use std::sync::ledger::{Blank, Ledger};

/// The relaxed problem of a path that grows and shrinks. Times follow what is held or let go when they are settled, so that many
/// decisions that are made and taken back one after the other move the times once.
pub struct Mover<'a> {
    net: &'a Network,
    penalty: u64,
    priced: PricedTimetable,
    is_settled: bool,
}

impl Drop for Mover<'_> {
    fn drop(self) {
        let Mover {
            net: _,
            penalty: _,
            priced: _,
            is_settled: _,
        } = self;
    }
}

impl<'a> Model for Mover<'a> {
    ghost use Rattle.std.specs.Prelude.{◌≤◌};
    ghost use Rattle.dm_base.specs.declared.limits.TheConstants.{PENALTY};
    ghost use Rattle.dm_live.specs.Live.{NoneFixed};
    ghost use Rattle.dm_priced.specs.Priced.{IsPriced};

    ghost Value = { Unit {0} };

    ghost view = { λ m. tt };

    ghost invariant = { λ m. (m.penalty ≤ PENALTY) × IsPriced m.net.now m.priced × NoneFixed m.priced.live.fixed };
}

impl<'a> Mover<'a> {
    /// A timetable in which no event is fixed.
    pub fn new(net: &'a Network, penalty: u64, priced: PricedTimetable) -> Mover<'a>
        requires penalty { penalty ≤ PENALTY }
        requires priced { IsPriced net.now priced }
        requires open { NoneFixed priced.live.fixed }
    {
        Mover {
            net,
            penalty,
            priced,
            is_settled: false,
        }
    }

    pub fn net(&self) -> &'a Network {
        self.net
    }

    /// Computes the times that were moved since this was done last.
    pub fn settle(&mut self) {
        if !self.is_settled {
            settle::<Brand>(&mut self.priced, self.net, Blank::new(1));
            self.is_settled = true;
        }
    }

    /// What the path costs when relaxed.
    pub fn cost(&mut self) -> Cost {
        self.settle();
        self.priced.cost(self.penalty)
    }

    /// Holds activities. It is false where that makes a cycle: then they are not held.
    pub fn hold(&mut self, acts: &[usize]) -> bool {
        for k in 0..acts.len() {
            if !self.hold_one(acts[k]) {
                self.release(&acts[..k]);
                return false;
            }
        }
        true
    }

    fn hold_one(&mut self, act: usize) -> bool {
        self.is_settled = false;
        act < self.net.activities() && self.priced.hold(self.net, act).is_ok()
    }

    /// Lets activities go.
    pub fn release(&mut self, acts: &[usize]) {
        for act in acts {
            self.release_one(*act);
        }
    }

    fn release_one(&mut self, act: usize) {
        self.is_settled = false;
        if act < self.net.activities() {
            self.priced.release(self.net, act);
        }
    }

    /// Charges for a change that is dropped, or no longer.
    pub fn charge(&mut self, act: usize, charged: bool) {
        if act < self.net.activities() {
            self.priced.charge(self.net, act, charged);
        }
    }

    /// The time that an event had when the times were settled last, in seconds, or 0 where there is no such event.
    pub fn time(&self, event: usize) -> Secs {
        let times = self.priced.live().times();
        if event < times.events() {
            times.time(event)
        } else {
            0
        }
    }

    /// Whether there is such an activity, and its head came before its tail and its span allow.
    pub fn is_early(&self, act: usize) -> bool {
        if act >= self.net.activities() {
            return false;
        }
        let activity = self.net.activity(act);
        let span = self.priced.live().span(act);
        self.time(activity.head) < self.time(activity.tail).saturating_add(span)
    }

    /// Whether there is such an activity, and its head came just when its tail and its span allow.
    pub fn is_tight(&self, act: usize) -> bool {
        if act >= self.net.activities() {
            return false;
        }
        let activity = self.net.activity(act);
        let span = self.priced.live().span(act);
        self.time(activity.head) == self.time(activity.tail).saturating_add(span)
    }
}

/// The activities out of an event, and none where there is no such event.
pub fn leaving(net: &Network, event: usize) -> &[usize] {
    row_at::<Brand>(net, event, End::Tail, Blank::new(1))
}

/// The activities into an event, and none where there is no such event.
pub fn entering(net: &Network, event: usize) -> &[usize] {
    row_at::<Brand>(net, event, End::Head, Blank::new(1))
}

/// Settles a timetable. Nobody asks how many steps it takes.
fn settle<L: Ledger>(priced: &mut PricedTimetable, net: &Network, blank: Blank)
    requires name { blank.name ≡ L.name }
    requires parts { blank.parts ≡ L.parts }
    requires has_a_part { 0 < blank.parts }
    requires priced { IsPriced net.now priced.old }
    requires open { NoneFixed priced.old.live.fixed }
    ensures priced { IsPriced net.now priced.new }
    ensures open { NoneFixed priced.new.live.fixed }
{
    let mut steps = Steps::<L>::new(blank);
    priced.settle(net, &mut steps);
}

/// The end of an activity at which an event stands.
#[derive(Clone, Copy)]
enum End {
    Tail,
    Head,
}

/// The activities of which this end is at an event. Nobody asks how many steps it takes.
fn row_at<L: Ledger>(net: &Network, event: usize, end: End, blank: Blank) -> &[usize]
    requires name { blank.name ≡ L.name }
    requires parts { blank.parts ≡ L.parts }
    requires has_a_part { 0 < blank.parts }
{
    if event >= net.events() {
        return &[];
    }
    let mut steps = Steps::<L>::new(blank);
    match end {
        End::Tail => net.out_row(event, &mut steps),
        End::Head => net.in_row(event, &mut steps),
    }
}
