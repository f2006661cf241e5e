//! The sweep along an order that computes the marked events anew.
ghost use Rattle.std.specs.Prelude.{ℕ, ◌≡◌, ◌^◌, ◌<◌, true, false, Bool, List, max, length, slice_index, slice_set};
ghost use Rattle.dm_network.specs.Net.{activity_at};
ghost use Rattle.dm_marks.specs.Marked.{NoneFrom};
ghost use Rattle.dm_settle.specs.Constraints.{IsSizedFor, graph_given};
ghost use Rattle.dm_settle.specs.Settling.{AreLeast, AreEarly, MayBegin, ReadsFew, arcs_swept, graph_swept};
ghost use Rattle.dm_settle.specs.Moving.{IsMove};
ghost use Rattle.dm_settle.specs.Inside.Sweep.{TailsAreEarly, MarksHeads, Renews, pulls, pulling};

use crate::constraints::Constraints;
use crate::moving::Move;
use crate::time::time_of;
use crate::times::Times;
use crate::watching::Watcher;
use dm_base::{Secs, Steps};
use dm_marks::Marks;
use dm_network::Network;
use std::sync::ledger::Ledger;

/// What a sweep reads: a network, what its events are held to, and an order of them.
#[derive(Clone, Copy)]
pub struct Sweep<'s> {
    pub net: &'s Network,
    pub constraints: &'s Constraints,

    /// The places of the events, in the order.
    pub order: &'s [usize],

    /// The rank of each event in the order, by place of the event.
    pub ranks: &'s [usize],
}

impl Sweep<'_> {
    /// Computes the marked events anew, in the order, and goes on along the held activities out of every event whose time
    /// has changed, to the heads that it may move. What comes out is the least timetable of the constraints, and no mark is left.
    /// Marks are by rank.
    ///
    /// Every event that is not marked has its time already. Each held activity goes forward in the order if it leaves an
    /// event that is marked or that a held activity enters; the others leave events whose times stay. Two watchers are told of
    /// each time that changes. It takes no memory.
    pub fn settle_watched<L: Ledger, W: Watcher, V: Watcher>(
        &self,
        marks: &mut Marks,
        times: &mut Times,
        watcher: &mut W,
        other: &mut V,
        steps: &mut Steps<L>,
    )
        requires begins { MayBegin self.now marks.old times.old }
        requires knows { W.knows watcher.old self.now.net.now self.now.constraints.now times.old }
        requires other_knows { V.knows other.old self.now.net.now self.now.constraints.now times.old }
        ensures least { AreLeast (graph_swept self.now) times.new }
        ensures early { AreEarly times.new }
        ensures room { length marks.new ≡ length marks.old }
        ensures none_left { NoneFrom marks.new 0 }
        ensures few_reads { ReadsFew (arcs_swept self.now) self.now.ranks.now
            (record { marks = marks.old; times = times.old; steps = steps.old })
            (record { marks = marks.new; times = times.new; steps = steps.new }) }
        ensures knows { W.knows watcher.new self.now.net.now self.now.constraints.now times.new }
        ensures flags { W.flags watcher.new ≡ W.flags watcher.old }
        ensures other_knows { V.knows other.new self.now.net.now self.now.constraints.now times.new }
    {
        self.net.reveal();
        self.constraints.within_limits();
        let mut place = 0;
        while let Some(next) = marks.take_first_from(place) {
            self.renew(self.order[next], marks, times, watcher, other, steps);
            place = next + 1;
        }
        times.is_early();
    }

    /// Computes an event anew, whose mark has been taken away. If its time changes, the watchers are told, and the heads that it
    /// may move are marked. Answers whether it does.
    fn renew<L: Ledger, W: Watcher, V: Watcher>(
        &self,
        event: usize,
        marks: &mut Marks,
        times: &mut Times,
        watcher: &mut W,
        other: &mut V,
        steps: &mut Steps<L>,
    ) -> bool
        requires sized { IsSizedFor self.now.net.now self.now.constraints.now }
        requires is_event { event < length self.now.net.now.events }
        requires as_many { length times.old ≡ length self.now.net.now.events }
        requires as_many_ranks { length self.now.ranks.now ≡ length self.now.net.now.events }
        requires ranks { (e : ℕ) → e < length self.now.net.now.events → slice_index self.now.ranks.now e < length marks.old }
        requires early { TailsAreEarly (graph_swept self.now) times.old event }
        requires knows { W.knows watcher.old self.now.net.now self.now.constraints.now times.old }
        requires other_knows { V.knows other.old self.now.net.now self.now.constraints.now times.old }
        ensures renews { (marked : List Bool) → marks.old ≡ slice_set marked (slice_index self.now.ranks.now event) false →
            Renews result (graph_swept self.now) self.now.ranks.now event
            (record { marks = marked; times = times.old; steps = steps.old })
            (record { marks = marks.new; times = times.new; steps = steps.new }) }
        ensures knows { W.knows watcher.new self.now.net.now self.now.constraints.now times.new }
        ensures flags { W.flags watcher.new ≡ W.flags watcher.old }
        ensures other_knows { V.knows other.new self.now.net.now self.now.constraints.now times.new }
    {
        let into = self.net.in_row(event, steps);
        let time = time_of(self.net, self.constraints, times, event, into);
        if time == times.time(event) {
            return false;
        }
        let out_of = self.net.out_row(event, steps);
        let to = Move {
            constraints: self.constraints,
            times,
            event,
            time,
            into,
            out_of,
        };
        watcher.moves(self.net, &to);
        other.moves(self.net, &to);
        self.mark_heads(&to, marks);
        times.set(event, time);
        true
    }

    /// Marks the heads of the held activities out of an event that moves. A head that is later than its activity asks for, with
    /// both times of the event, is not marked: the event does not move it.
    fn mark_heads(&self, to: &Move<'_>, marks: &mut Marks)
        requires is_move { IsMove self.now.net.now to.now }
        requires as_many_ranks { length self.now.ranks.now ≡ length self.now.net.now.events }
        requires ranks { (e : ℕ) → e < length self.now.net.now.events → slice_index self.now.ranks.now e < length marks.old }
        ensures { MarksHeads (pulling (graph_given self.now.net.now to.now.constraints.now) to.now.times.now to.now.event to.now.time)
            (slice_index self.now.ranks.now) to.now.event marks.old marks.new }
    {
        self.net.reveal();
        let latest = to.times.time(to.event).max(to.time);
        for a in to.out_of {
            if pulls(self.net, to, latest, *a) {
                self.mark_head(*a, marks);
            }
        }
    }

    /// Marks the head of an activity.
    fn mark_head(&self, a: usize, marks: &mut Marks)
        requires is_activity { a < length self.now.net.now.activities }
        requires as_many_ranks { length self.now.ranks.now ≡ length self.now.net.now.events }
        requires ranks { (e : ℕ) → e < length self.now.net.now.events → slice_index self.now.ranks.now e < length marks.old }
        ensures { marks.new ≡ slice_set marks.old (slice_index self.now.ranks.now (activity_at self.now.net.now a).head) true }
    {
        self.net.reveal();
        marks.mark(self.ranks[self.net.activity(a).head]);
    }
}

/// Whether an activity out of an event that moves is held, and its head is no later than it asks for with the later one of the
/// event's two times.
fn pulls(net: &Network, to: &Move<'_>, latest: Secs, a: usize) -> bool
    requires is_move { IsMove net.now to.now }
    requires is_activity { a < length net.now.activities }
    requires latest { latest ≡ max (slice_index to.now.times.now to.now.event) to.now.time }
    requires early { latest < 2 ^ 38 }
    ensures { result ≡ pulls (graph_given net.now to.now.constraints.now) to.now.times.now to.now.event to.now.time a }
{
    net.reveal();
    let constraints = to.constraints;
    constraints.is_held(a) && to.times.time(net.activity(a).head) <= latest + constraints.span(a)
}
