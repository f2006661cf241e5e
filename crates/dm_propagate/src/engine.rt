//! The engine, its changes and its readers.
ghost use Rattle.std.specs.Prelude.{◌≡◌, ◌^◌, ◌<◌, ◌≤◌, false, [], length, replicate, All, fold, IfOk, IfErr, OnOk, OnErr};
ghost use Rattle.dm_base.specs.declared.limits.TheConstants.{PENALTY};
ghost use Rattle.dm_rows.specs.Rows.{IsSized};
ghost use Rattle.dm_rows.specs.Active.{IsCycle, HasNoCycle};
ghost use Rattle.dm_rows.specs.Reach.{Reaches, ReachesFlip};
ghost use Rattle.dm_rows.specs.Resolve.{after_change, after_flip};
ghost use Rattle.dm_rows.specs.Cost.{cost_of};
ghost use Rattle.dm_rows.specs.Timetable.{IsLeast};
ghost use Rattle.dm_rows.specs.Touch.{TellsTouched};
ghost use Rattle.dm_times.specs.Faults.{RefusesTimes};
ghost use Rattle.dm_network.specs.Net.{Net};
ghost use Rattle.dm_propagate.specs.Engine.{IsEngineOf, times_of, cycle_of};
ghost use Rattle.dm_propagate.specs.Moved.{TakesInMoved, TakesInCancelled};
ghost use Rattle.dm_propagate.specs.Inside.Altering.{change_in};
ghost use Rattle.dm_propagate.specs.Reading.{KeepsClock, ReadsFew};

use crate::day::Day;
use crate::moving::{Alteration, move_to, try_rows};
use crate::starting::priced_for;
use dm_base::{Cost, Steps};
use dm_graph::search::Cyclic;
use dm_marks::PlaceSet;
use dm_network::Network;
use dm_priced::PricedTimetable;
use dm_rows::{Change, Flip, Rows};
use dm_schedule::{Scheduled, schedule_of};
use dm_settle::{NoTimes, Times};
use std::alloc::Global;
use std::marker::Model;
use std::sync::ledger::Ledger;

/// The rows of a day over one network, and their least timetable.
///
/// Its calls take the network with which it was made, of which contracts say that it is an engine of it: [`Engine::new`]
/// ensures it, and [`Engine::update`] keeps it.
pub struct Engine {
    rows: Rows,

    /// The rows that a change is tried on. Between calls they are the same.
    twin: Rows,
    priced: PricedTimetable,

    /// The events by their scheduled times, for the clock.
    schedule: Vec<Scheduled>,

    /// The events whose times have moved since it was emptied, and maybe others.
    moved: PlaceSet,
}

impl Drop for Engine {
    fn drop(self) {
        let Engine {
            rows: _,
            twin: _,
            priced: _,
            schedule: _,
            moved: _,
        } = self;
    }
}

impl Model for Engine {
    ghost use Rattle.std.specs.Prelude.{◌≡◌};
    ghost use Rattle.dm_propagate.specs.Engine.{EngineValue};

    ghost Value = { EngineValue };

    ghost view = { λ e. record { rows = e.rows; priced = e.priced; schedule = e.schedule.items; moved = e.moved } };

    ghost invariant = { λ e. e.twin ≡ e.rows };
}

impl Engine {
    /// The engine of these rows, with the room of all its changes. [`NoTimes::Cycle`] comes exactly where the rows have a
    /// cycle, unless memory is short first: then [`NoTimes::OutOfMemory`]. Its time is linear in events and activities, but for a
    /// sort of the events.
    #[tactic(auto, using(crate::proofs::Following::is_engine, crate::proofs::Following::engine_flags))]
    pub fn new(alloc: Global, net: &Network, rows: Rows) -> Result<Engine, NoTimes>
        requires { IsSized net.now rows }
        ensures engine { IfOk result (IsEngineOf net.now) }
        ensures rows { IfOk result (λ engine. engine.rows ≡ rows) }
        ensures least { IfOk result (λ engine. IsLeast net.now rows (times_of engine)) }
        ensures no_cycle { OnOk result (HasNoCycle net.now rows) }
        ensures moved { IfOk result (λ engine. engine.moved ≡ record { flags = replicate (length net.now.events) false; places = [] }) }
        ensures refused { IfErr result (RefusesTimes net.now rows) }
    {
        net.reveal();
        let priced = match priced_for(alloc, net, &rows) {
            Ok(priced) => priced,
            Err(no_times) => return Err(no_times),
        };
        let twin = rows.copy()?;
        let schedule = schedule_of(alloc, net)?;
        let moved = PlaceSet::new(alloc, net.events())?;
        Ok(Engine {
            rows,
            twin,
            priced,
            schedule,
            moved,
        })
    }

    /// Makes a change, and computes the times that it moves. [`Cyclic`] comes exactly where the changed rows have a cycle:
    /// then the engine is as before, and [`Engine::last_cycle`] is such a cycle. For a delay, a pass, a cancelled event, a lock or
    /// a clock that is not taken back, it reads the rows of the events that this can move, and not of the others. It takes no memory.
    /// Each event whose time is not what it was before, or that is cancelled or runs from then on, is [`Engine::moved`].
    pub fn update<L: Ledger>(
        &mut self,
        net: &Network,
        change: &Change,
        steps: &mut Steps<L>,
    ) -> Result<(), Cyclic>
        requires engine { IsEngineOf net.now self.old }
        requires reaches { Reaches self.old.rows change.now }
        ensures engine { IsEngineOf net.now self.new }
        ensures rows { OnOk result (self.new.rows ≡ after_change self.old.rows change.now) }
        ensures least { IsLeast net.now self.new.rows (times_of self.new) }
        ensures no_cycle { OnOk result (HasNoCycle net.now self.new.rows) }
        ensures unchanged { OnErr result ((self.new.rows ≡ self.old.rows) × (times_of self.new ≡ times_of self.old)) }
        ensures cycle { OnErr result (IsCycle net.now (after_change self.old.rows change.now) (cycle_of self.new)) }
        ensures moved { TakesInMoved self.old.moved.flags self.new.moved.flags (times_of self.old) (times_of self.new) }
        ensures cancelled { TakesInCancelled self.new.moved.flags self.old.rows self.new.rows }
        ensures few_reads { TellsTouched change.now → KeepsClock self.old.rows change.now
            → ReadsFew net.now (after_change self.old.rows change.now) change.now (times_of self.old) (times_of self.new) steps.old
            steps.new }
    {
        self.alter(net, &Alteration::Change(change), steps)
    }

    /// Sets each decision of a list in turn, as [`Engine::update`] makes a change.
    pub fn adopt<L: Ledger>(
        &mut self,
        net: &Network,
        flips: &[Flip],
        steps: &mut Steps<L>,
    ) -> Result<(), Cyclic>
        requires engine { IsEngineOf net.now self.old }
        requires reach { All (ReachesFlip self.old.rows) flips.now }
        ensures engine { IsEngineOf net.now self.new }
        ensures rows { OnOk result (self.new.rows ≡ fold after_flip self.old.rows flips.now) }
        ensures least { IsLeast net.now self.new.rows (times_of self.new) }
        ensures no_cycle { OnOk result (HasNoCycle net.now self.new.rows) }
        ensures unchanged { OnErr result ((self.new.rows ≡ self.old.rows) × (times_of self.new ≡ times_of self.old)) }
        ensures cycle { OnErr result (IsCycle net.now (fold after_flip self.old.rows flips.now) (cycle_of self.new)) }
        ensures moved { TakesInMoved self.old.moved.flags self.new.moved.flags (times_of self.old) (times_of self.new) }
        ensures cancelled { TakesInCancelled self.new.moved.flags self.old.rows self.new.rows }
    {
        self.alter(net, &Alteration::Adoption(flips), steps)
    }

    /// Whether the rows have no cycle after a change, which is not made: the engine stays as it is. [`Cyclic`] comes exactly
    /// where they have one, and [`Engine::last_cycle`] is such a cycle.
    pub fn try_update<L: Ledger>(
        &mut self,
        net: &Network,
        change: &Change,
        steps: &mut Steps<L>,
    ) -> Result<(), Cyclic>
        requires engine { IsEngineOf net.now self.old }
        requires reaches { Reaches self.old.rows change.now }
        ensures engine { IsEngineOf net.now self.new }
        ensures unchanged { (self.new.rows ≡ self.old.rows) × (times_of self.new ≡ times_of self.old) }
        ensures moved { self.new.moved ≡ self.old.moved }
        ensures no_cycle { OnOk result (HasNoCycle net.now (after_change self.old.rows change.now)) }
        ensures cycle { OnErr result (IsCycle net.now (after_change self.old.rows change.now) (cycle_of self.new)) }
    {
        self.try_altered(net, &Alteration::Change(change), steps)
    }

    /// Whether the rows have no cycle with the decisions of a list set, as [`Engine::try_update`].
    pub fn try_adopt<L: Ledger>(
        &mut self,
        net: &Network,
        flips: &[Flip],
        steps: &mut Steps<L>,
    ) -> Result<(), Cyclic>
        requires engine { IsEngineOf net.now self.old }
        requires reach { All (ReachesFlip self.old.rows) flips.now }
        ensures engine { IsEngineOf net.now self.new }
        ensures unchanged { (self.new.rows ≡ self.old.rows) × (times_of self.new ≡ times_of self.old) }
        ensures moved { self.new.moved ≡ self.old.moved }
        ensures no_cycle { OnOk result (HasNoCycle net.now (fold after_flip self.old.rows flips.now)) }
        ensures cycle { OnErr result (IsCycle net.now (fold after_flip self.old.rows flips.now) (cycle_of self.new)) }
    {
        self.try_altered(net, &Alteration::Adoption(flips), steps)
    }

    /// What [`Engine::update`] and [`Engine::adopt`] promise, of any alteration.
    #[tactic(auto, using(crate::proofs::Following::is_engine, crate::proofs::Following::engine_flags))]
    fn alter<L: Ledger>(
        &mut self,
        net: &Network,
        what: &Alteration<'_>,
        steps: &mut Steps<L>,
    ) -> Result<(), Cyclic>
        requires engine { IsEngineOf net.now self.old }
        requires reaches { Reaches self.old.rows (change_in what.now) }
        ensures engine { IsEngineOf net.now self.new }
        ensures rows { OnOk result (self.new.rows ≡ after_change self.old.rows (change_in what.now)) }
        ensures least { IsLeast net.now self.new.rows (times_of self.new) }
        ensures no_cycle { OnOk result (HasNoCycle net.now self.new.rows) }
        ensures unchanged { OnErr result ((self.new.rows ≡ self.old.rows) × (times_of self.new ≡ times_of self.old)) }
        ensures cycle { OnErr result (IsCycle net.now (after_change self.old.rows (change_in what.now)) (cycle_of self.new)) }
        ensures moved { TakesInMoved self.old.moved.flags self.new.moved.flags (times_of self.old) (times_of self.new) }
        ensures cancelled { TakesInCancelled self.new.moved.flags self.old.rows self.new.rows }
        ensures few_reads { TellsTouched (change_in what.now) → KeepsClock self.old.rows (change_in what.now)
            → ReadsFew net.now (after_change self.old.rows (change_in what.now)) (change_in what.now)
            (times_of self.old) (times_of self.new) steps.old steps.new }
    {
        net.reveal();
        what.make(&mut self.twin);
        let day = Day {
            net,
            rows: &self.rows,
        };
        match move_to(
            &mut self.priced,
            &day,
            &self.twin,
            what,
            self.schedule.as_slice(),
            &mut self.moved,
            steps,
        ) {
            Ok(()) => {
                what.make(&mut self.rows);
                Ok(())
            }
            Err(Cyclic) => {
                self.twin.copy_from(&self.rows);
                Err(Cyclic)
            }
        }
    }

    /// What [`Engine::try_update`] and [`Engine::try_adopt`] promise, of any alteration.
    #[tactic(auto, using(crate::proofs::Following::is_engine, crate::proofs::Following::engine_flags))]
    fn try_altered<L: Ledger>(
        &mut self,
        net: &Network,
        what: &Alteration<'_>,
        steps: &mut Steps<L>,
    ) -> Result<(), Cyclic>
        requires engine { IsEngineOf net.now self.old }
        requires reaches { Reaches self.old.rows (change_in what.now) }
        ensures engine { IsEngineOf net.now self.new }
        ensures unchanged { (self.new.rows ≡ self.old.rows) × (times_of self.new ≡ times_of self.old) }
        ensures moved { self.new.moved ≡ self.old.moved }
        ensures no_cycle { OnOk result (HasNoCycle net.now (after_change self.old.rows (change_in what.now))) }
        ensures cycle { OnErr result (IsCycle net.now (after_change self.old.rows (change_in what.now)) (cycle_of self.new)) }
    {
        what.make(&mut self.twin);
        let day = Day {
            net,
            rows: &self.rows,
        };
        let outcome = try_rows(
            &mut self.priced,
            &day,
            &self.twin,
            what,
            self.schedule.as_slice(),
            steps,
        );
        self.twin.copy_from(&self.rows);
        outcome
    }

    /// The rows.
    pub fn rows(&self) -> &Rows
        ensures { result.now ≡ self.now.rows }
    {
        &self.rows
    }

    /// The times of the events.
    pub fn times(&self) -> &Times
        ensures { result.now ≡ times_of self.now }
    {
        self.priced.live().times()
    }

    /// What the times cost, in thousandths of passenger seconds, at a penalty in seconds for each passenger, at most
    /// 1,000,000. It is a sum of numbers that are kept, and takes no look at the network.
    pub fn cost(&self, net: &Network, penalty: u64) -> Cost
        requires engine { IsEngineOf net.now self.now }
        requires penalty { penalty ≤ PENALTY }
        ensures cost { result ≡ cost_of net.now self.now.rows (times_of self.now) penalty }
        ensures limit { result < 2 ^ 100 }
    {
        net.reveal();
        self.priced.cost(penalty)
    }

    /// The events whose times are not what they were when this was last emptied, those that were cancelled or restored since
    /// then, and maybe others.
    pub fn moved(&self) -> &PlaceSet
        ensures { result.now ≡ self.now.moved }
    {
        &self.moved
    }

    /// Empties [`Engine::moved`]. It costs what is in.
    #[tactic(auto, using(crate::proofs::Following::forgetting_engine))]
    pub fn forget_moved(&mut self)
        ensures engine { (net : Net) → IsEngineOf net self.old → IsEngineOf net self.new }
        ensures forgets { self.new ≡ record self.old {
          moved = record {
            flags = replicate (length self.old.moved.flags) false;
            places = [];
          };
        } }
    {
        self.moved.clear();
    }

    /// The activities of the cycle for which a change was refused last, each head the next tail.
    pub fn last_cycle(&self) -> &[usize]
        ensures { result.now ≡ cycle_of self.now }
    {
        self.priced.live().last_cycle()
    }
}
