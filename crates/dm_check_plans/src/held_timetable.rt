//! The least times of what is held, as it grows and shrinks.
ghost use Rattle.std.specs.Prelude.{ℕ, ◌≡◌, ◌<◌, Bool, false, length, slice_set, IfOk, OnOk, OnErr};
ghost use Rattle.dm_graph.specs.Arcs.{HasNoCycle};
ghost use Rattle.dm_network.specs.Held.{HasNoCycleOf, arcs_of, is_held};
ghost use Rattle.dm_rows.specs.Laws.{EntersNoPassed};
ghost use Rattle.dm_rows.specs.Rows.{IsSized};
ghost use Rattle.dm_rows.specs.Timetable.{IsLeastHolding};
ghost use Rattle.dm_check_times.specs.Binding.{AreFlags, AreBelowLimit};
ghost use Rattle.dm_marks.specs.Marked.{is_marked};
ghost use Rattle.dm_check_times.specs.Noting.{NotesMoves};
ghost use Rattle.dm_check_times.specs.Timetables.{IsLeastNow};
ghost use Rattle.dm_check_plans.specs.Inside.Timetables.{IsTimetableOf, IsRoomOf, AreOfRows, KeepsSpans};

use crate::known::Known;
use dm_base::Secs;
use dm_check_times::{HeldCycle, KeptTimetable};
use dm_marks::PlaceSet;
use dm_network::Network;
use dm_rows::Rows;
use std::alloc::{AllocError, Global};
use std::marker::Model;

/// What is held, and times that follow it. After a cycle nothing is known of them, and they begin again from those of what was held
/// first.
pub struct HeldTimetable {
    kept: KeptTimetable,
    first: Known,
    has_first: bool,
}

impl Drop for HeldTimetable {
    fn drop(self) {
        let HeldTimetable {
            kept: _,
            first: _,
            has_first: _,
        } = self;
    }
}

impl Model for HeldTimetable {
    ghost use Rattle.dm_check_plans.specs.Inside.Timetables.{HeldTimetableValue};

    ghost Value = { HeldTimetableValue };

    ghost view = { λ t. record { kept = t.kept; first = t.first } };

    ghost invariant = { λ t. Unit {0} };
}

impl HeldTimetable {
    /// The floors of the events, which are to follow what is held.
    pub fn new(
        alloc: Global,
        net: &Network,
        rows: &Rows,
        held: Vec<bool>,
    ) -> Result<HeldTimetable, AllocError>
        requires sized { IsSized net.now rows.now }
        requires flags { length held.items ≡ length net.now.activities }
        ensures timetable { IfOk result (IsTimetableOf net.now) }
        ensures rows { IfOk result (AreOfRows net.now rows.now) }
        ensures held { IfOk result (λ t. t.kept.held ≡ held.items) }
    {
        net.reveal();
        rows.is_within_limits();
        let kept = KeptTimetable::holding(alloc, net, rows, held)?;
        let first = Known::new(alloc, net.activities(), kept.floors())?;
        let mut timetable = HeldTimetable {
            kept,
            first,
            has_first: false,
        };
        timetable.begin_again(net);
        Ok(timetable)
    }

    /// The times that were computed last, in seconds.
    pub fn times(&self) -> &[Secs]
        ensures { result.now ≡ self.now.kept.times }
    {
        self.kept.times()
    }

    /// Makes an activity held, or no longer. It takes no memory.
    pub fn set_held(&mut self, net: &Network, a: usize, value: bool)
        requires timetable { IsTimetableOf net.now self.old }
        requires is_activity { a < length net.now.activities }
        ensures timetable { IsTimetableOf net.now self.new }
        ensures held { self.new.kept.held ≡ slice_set self.old.kept.held a value }
        ensures times { self.new.kept.times ≡ self.old.kept.times }
        ensures keeps { KeepsSpans self.old self.new }
    {
        self.kept.set_held(net, a, value);
    }

    /// Computes the least times for what is held. `Err` comes exactly where it has a cycle. It takes no memory, and costs what has
    /// changed since the last ones, or since the first ones after a cycle. Where it answers `Ok`, the events whose times it wrote are
    /// noted as moved.
    pub fn settle(
        &mut self,
        net: &Network,
        rows: &Rows,
        moved: &mut PlaceSet,
    ) -> Result<(), HeldCycle>
        requires sized { IsSized net.now rows.now }
        requires timetable { IsTimetableOf net.now self.old }
        requires rows { AreOfRows net.now rows.now self.old }
        requires as_many_moved { length moved.old.flags ≡ length net.now.events }
        ensures as_many_moved { length moved.new.flags ≡ length net.now.events }
        ensures notes { OnOk result (NotesMoves self.old.kept.times self.new.kept.times moved.old.flags moved.new.flags) }
        ensures timetable { IsTimetableOf net.now self.new }
        ensures held { self.new.kept.held ≡ self.old.kept.held }
        ensures keeps { KeepsSpans self.old self.new }
        ensures least { (holds : ℕ → Bool) → AreFlags net.now holds self.old.kept.held → EntersNoPassed net.now rows.now holds
            → OnOk result (IsLeastHolding net.now rows.now holds self.new.kept.times) }
        ensures none { (holds : ℕ → Bool) → AreFlags net.now holds self.old.kept.held → OnOk result (HasNoCycleOf net.now holds) }
        ensures cyclic { (holds : ℕ → Bool) → AreFlags net.now holds self.old.kept.held → OnErr result (HasNoCycleOf net.now holds → ⊥) }
        ensures early { OnOk result (AreBelowLimit self.new.kept.times) }
    {
        net.reveal();
        rows.is_within_limits();
        match self.follow(net, moved) {
            Ok(()) => {
                self.keep_first(net);
                Ok(())
            }
            Err(HeldCycle) => {
                self.begin_again(net);
                Err(HeldCycle)
            }
        }
    }

    /// Makes the times follow what is held. Nothing is known of them after `Err`, which comes exactly where it has a cycle.
    fn follow(&mut self, net: &Network, moved: &mut PlaceSet) -> Result<(), HeldCycle>
        requires timetable { IsTimetableOf net.now self.old }
        requires as_many_moved { length moved.old.flags ≡ length net.now.events }
        ensures notes { NotesMoves self.old.kept.times self.new.kept.times moved.old.flags moved.new.flags }
        ensures room { IsRoomOf net.now self.new }
        ensures held { self.new.kept.held ≡ self.old.kept.held }
        ensures keeps { KeepsSpans self.old self.new }
        ensures least { OnOk result (IsLeastNow net.now self.new.kept) }
        ensures cyclic { OnErr result (HasNoCycle (arcs_of net.now (is_held self.old.kept.held)) → ⊥) }
        ensures none_stale { (e : ℕ) → is_marked self.new.kept.stale e ≡ false }
    {
        self.kept.follow(net, moved)
    }

    /// Keeps what is held and its times as the first, where there are none yet.
    fn keep_first(&mut self, net: &Network)
        requires timetable { IsTimetableOf net.now self.old }
        requires least { IsLeastNow net.now self.old.kept }
        ensures timetable { IsTimetableOf net.now self.new }
        ensures held { self.new.kept.held ≡ self.old.kept.held }
        ensures times { self.new.kept.times ≡ self.old.kept.times }
        ensures keeps { KeepsSpans self.old self.new }
    {
        if self.has_first {
            return;
        }
        self.has_first = true;
        self.first.take(self.kept.held(), self.kept.times());
    }

    /// Takes the times of what was held first, which are to follow what is held.
    fn begin_again(&mut self, net: &Network)
        requires { IsRoomOf net.now self.old }
        ensures timetable { IsTimetableOf net.now self.new }
        ensures held { self.new.kept.held ≡ self.old.kept.held }
        ensures keeps { KeepsSpans self.old self.new }
    {
        self.kept
            .begin_from(net, self.first.held(), self.first.times());
    }
}
