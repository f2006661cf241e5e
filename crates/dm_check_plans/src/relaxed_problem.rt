//! The relaxed problem of a path, as decisions are made and taken back.
ghost use Rattle.std.specs.Prelude.{◌≡◌, ◌<◌, ◌≤◌, ◌++◌, [], ◌∷◌, IsTrue, ◌↔◌, length, IfOk, IfSome, IfNone, OnOk, OnErr};
ghost use Rattle.dm_base.specs.declared.limits.TheConstants.{PENALTY};
ghost use Rattle.dm_rows.specs.Rows.{IsSized};
ghost use Rattle.dm_rows.specs.Decide.{choice_of};
ghost use Rattle.dm_rows.specs.Relax.{is_relaxed_lost};
ghost use Rattle.dm_tree.specs.Relaxed.{relaxed_cost_of, IsViolated};
ghost use Rattle.dm_check_rows.specs.Claims.{Tells};
ghost use Rattle.dm_check_times.specs.Binding.{AreBelowLimit};
ghost use Rattle.dm_check_times.specs.KeptCosts.{IsKeptCostOf, IsPricedFor};
ghost use Rattle.dm_paths.specs.Flags.{AreFlags, is_flagged};
ghost use Rattle.dm_paths.specs.Decisions.{IsOpen};
ghost use Rattle.dm_check_plans.specs.RelaxedProblems.{IsRelaxedProblemOf, IsSolved, HasRelaxedCycle, times_of};
ghost use Rattle.dm_check_plans.specs.Inside.Violations.{IsSomeViolated};

use crate::held_timetable::HeldTimetable;
use crate::timed::TimedRows;
use crate::turning::{turn, weigh};
use dm_base::{Cost, Secs};
use dm_check_times::{Charges, HeldCycle, KeptCost, changes_of};
use dm_marks::PlaceSet;
use dm_network::Network;
use dm_paths::{Undecided, all_undecided, binding_flags, flip_of, place_of_choice};
use dm_rows::{Choice, Decision, Rows, is_free_change, is_lost_change};
use std::alloc::{AllocError, Global};
use std::marker::Model;

/// A path of decisions over rows, with what its relaxed problem holds and charges for. Its calls take the network and the rows
/// for which it was made.
pub struct RelaxedProblem {
    path: Vec<Decision>,
    undecided: Undecided,
    charged: Vec<bool>,
    timetable: HeldTimetable,
    kept_cost: KeptCost,

    /// The events whose times may not be those of the cost.
    moved: PlaceSet,

    /// Whether no other has another time. It is not so behind a cycle.
    is_noted: bool,

    /// The places of the network's changes.
    places: Vec<usize>,
}

impl Drop for RelaxedProblem {
    fn drop(self) {
        let RelaxedProblem {
            path: _,
            undecided: _,
            charged: _,
            timetable: _,
            kept_cost: _,
            moved: _,
            is_noted: _,
            places: _,
        } = self;
    }
}

impl Model for RelaxedProblem {
    ghost use Rattle.dm_check_plans.specs.RelaxedProblems.{RelaxedProblemValue};

    ghost Value = { RelaxedProblemValue };

    ghost view = { λ r. record {
      path = r.path.items;
      changes = r.undecided.changes.items;
      pairs = r.undecided.pairs.items;
      charged = r.charged.items;
      timetable = r.timetable;
      kept_cost = r.kept_cost;
      moved = r.moved;
      is_noted = r.is_noted;
      places = r.places.items;
    } };

    ghost invariant = { λ r. Unit {0} };
}

impl RelaxedProblem {
    /// The path without a decision.
    pub fn new(alloc: Global, net: &Network, rows: &Rows) -> Result<RelaxedProblem, AllocError>
        requires { IsSized net.now rows.now }
        ensures problem { IfOk result (IsRelaxedProblemOf net.now rows.now) }
        ensures path { IfOk result (λ problem. problem.path ≡ []) }
    {
        let held = binding_flags(alloc, net, rows)?;
        let charged = lost_flags(alloc, net, rows)?;
        let kept_cost = cost_charging(alloc, net, rows, &charged)?;
        Ok(RelaxedProblem {
            path: Vec::new(alloc),
            undecided: all_undecided(alloc, net, rows)?,
            charged,
            timetable: HeldTimetable::new(alloc, net, rows, held)?,
            kept_cost,
            moved: PlaceSet::new(alloc, net.events())?,
            is_noted: false,
            places: changes_of(alloc, net)?,
        })
    }

    /// Computes the least times of the relaxed problem. `Err` comes exactly where it has a cycle. It takes no memory.
    pub fn solve(&mut self, net: &Network, rows: &Rows) -> Result<(), HeldCycle>
        requires sized { IsSized net.now rows.now }
        requires problem { IsRelaxedProblemOf net.now rows.now self.old }
        ensures problem { IsRelaxedProblemOf net.now rows.now self.new }
        ensures path { self.new.path ≡ self.old.path }
        ensures solved { OnOk result (IsSolved net.now rows.now self.new) }
        ensures cyclic { OnErr result (HasRelaxedCycle net.now rows.now self.old.path) }
    {
        match self.timetable.settle(net, rows, &mut self.moved) {
            Ok(()) => {
                self.take_cost(net, rows);
                Ok(())
            }
            Err(HeldCycle) => {
                self.is_noted = false;
                Err(HeldCycle)
            }
        }
    }

    /// Takes the times, which are the least ones, into the cost.
    fn take_cost(&mut self, net: &Network, rows: &Rows)
        requires sized { IsSized net.now rows.now }
        requires problem { IsRelaxedProblemOf net.now rows.now self.old }
        requires early { AreBelowLimit (times_of self.old) }
        ensures problem { IsRelaxedProblemOf net.now rows.now self.new }
        ensures path { self.new.path ≡ self.old.path }
        ensures times { times_of self.new ≡ times_of self.old }
        ensures kept { self.new.kept_cost.times ≡ times_of self.old }
    {
        let charges = Charges::Flagged(&self.charged);
        self.kept_cost.bring(
            net,
            rows,
            &charges,
            self.timetable.times(),
            self.is_noted,
            &mut self.moved,
        );
        self.is_noted = true;
    }

    /// Decides a choice that is free and that the path leaves undecided. The times are then those of before.
    pub fn decide(
        &mut self,
        net: &Network,
        rows: &Rows,
        decision: Decision,
    ) -> Result<(), AllocError>
        requires sized { IsSized net.now rows.now }
        requires problem { IsRelaxedProblemOf net.now rows.now self.old }
        requires open { IsOpen net.now rows.now self.old.path (choice_of decision) }
        ensures problem { OnOk result (IsRelaxedProblemOf net.now rows.now self.new) }
        ensures path { OnOk result (self.new.path ≡ self.old.path ++ decision ∷ []) }
    {
        net.reveal();
        let flip = flip_of(net, rows, decision);
        turn(net, flip, true, &mut self.timetable, &mut self.charged);
        weigh(net, rows, flip, &self.charged, &mut self.kept_cost);
        self.undecided.set(flip, false);
        let Ok(()) = self.path.push(decision) else {
            return Err(AllocError);
        };
        Ok(())
    }

    /// Takes the last decision back, where there is one. The times are then those of before.
    pub fn take_back(&mut self, net: &Network, rows: &Rows) -> Option<Decision>
        requires sized { IsSized net.now rows.now }
        requires problem { IsRelaxedProblemOf net.now rows.now self.old }
        ensures problem { IsRelaxedProblemOf net.now rows.now self.new }
        ensures path { IfSome result (λ d. self.old.path ≡ self.new.path ++ d ∷ []) }
        ensures open { IfSome result (λ d. IsOpen net.now rows.now self.new.path (choice_of d)) }
        ensures none { IfNone result (self.old.path ≡ []) }
        ensures same { IfNone result (self.new ≡ self.old) }
    {
        net.reveal();
        match self.path.pop() {
            Some(decision) => {
                let flip = flip_of(net, rows, decision);
                turn(net, flip, false, &mut self.timetable, &mut self.charged);
                weigh(net, rows, flip, &self.charged, &mut self.kept_cost);
                self.undecided.set(flip, true);
                Some(decision)
            }
            None => None,
        }
    }

    /// The relaxed cost, where the times are the least ones.
    pub fn cost(&self, net: &Network, rows: &Rows, penalty: u64) -> Cost
        requires sized { IsSized net.now rows.now }
        requires problem { IsRelaxedProblemOf net.now rows.now self.now }
        requires solved { IsSolved net.now rows.now self.now }
        requires penalty { penalty ≤ PENALTY }
        ensures { result ≡ relaxed_cost_of net.now rows.now self.now.path (times_of self.now) penalty }
    {
        self.kept_cost.cost(net, penalty)
    }

    /// The times, in seconds.
    pub fn times(&self) -> &[Secs]
        ensures { result.now ≡ times_of self.now }
    {
        self.timetable.times()
    }

    /// Whether the relaxed problem charges for an activity.
    pub fn is_charged(&self, net: &Network, rows: &Rows, a: usize) -> bool
        requires problem { IsRelaxedProblemOf net.now rows.now self.now }
        requires is_activity { a < length net.now.activities }
        ensures { result ≡ is_relaxed_lost net.now rows.now self.now.path a }
    {
        self.charged[a]
    }

    /// Whether a choice is free and the path leaves it undecided.
    pub fn is_open(&self, net: &Network, rows: &Rows, choice: Choice) -> bool
        requires { IsRelaxedProblemOf net.now rows.now self.now }
        ensures { Tells (IsOpen net.now rows.now self.now.path choice) result }
    {
        net.reveal();
        match place_of_choice(net, choice) {
            Some(place) => self.undecided.is(place),
            None => false,
        }
    }

    /// Whether a choice is undecided and violated, where the times are the least ones.
    pub fn is_violated(&self, net: &Network, rows: &Rows, choice: Choice) -> bool
        requires sized { IsSized net.now rows.now }
        requires problem { IsRelaxedProblemOf net.now rows.now self.now }
        requires solved { IsSolved net.now rows.now self.now }
        ensures { IsTrue result ↔ IsViolated net.now rows.now self.now.path (times_of self.now) choice }
    {
        let timed = TimedRows {
            net,
            rows,
            times: self.timetable.times(),
        };
        timed.is_violated(&self.undecided, choice)
    }

    /// Whether some undecided choice is violated, where the times are the least ones.
    pub fn is_any_violated(&self, net: &Network, rows: &Rows) -> bool
        requires sized { IsSized net.now rows.now }
        requires problem { IsRelaxedProblemOf net.now rows.now self.now }
        requires solved { IsSolved net.now rows.now self.now }
        ensures { Tells (IsSomeViolated net.now rows.now self.now.path (times_of self.now)) result }
    {
        let timed = TimedRows {
            net,
            rows,
            times: self.timetable.times(),
        };
        timed.is_any_violated(&self.undecided, &self.places)
    }
}

/// A flag for each activity: set for each lost change that no path may decide.
fn lost_flags(alloc: Global, net: &Network, rows: &Rows) -> Result<Vec<bool>, AllocError>
    requires { IsSized net.now rows.now }
    ensures { IfOk result (λ flags. AreFlags (is_relaxed_lost net.now rows.now []) (length net.now.activities) flags.items) }
{
    let mut flags = Vec::with_capacity(alloc, net.activities())?;
    for a in 0..net.activities() {
        flags.push(is_lost_for_good(net, rows, a))?;
    }
    Ok(flags)
}

/// Whether an activity is a lost change that no path may decide: it is not free.
fn is_lost_for_good(net: &Network, rows: &Rows, a: usize) -> bool
    requires sized { IsSized net.now rows.now }
    requires is_activity { a < length net.now.activities }
    ensures { result ≡ is_relaxed_lost net.now rows.now [] a }
{
    is_lost_change(net, rows, a) && !is_free_change(net, rows, a)
}

/// A cost of the rows with every event at 0, where the flagged activities are charged for.
fn cost_charging(
    alloc: Global,
    net: &Network,
    rows: &Rows,
    charged: &[bool],
) -> Result<KeptCost, AllocError>
    requires sized { IsSized net.now rows.now }
    requires flags { length charged.now ≡ length net.now.activities }
    ensures kept { IfOk result (IsKeptCostOf net.now) }
    ensures priced { IfOk result (IsPricedFor net.now rows.now (is_flagged charged.now)) }
{
    let mut cost = KeptCost::new(alloc, net)?;
    cost.renew_all(net, rows, &Charges::Flagged(charged));
    Ok(cost)
}
