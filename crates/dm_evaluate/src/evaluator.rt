//! The evaluator, its moves and its readers.
ghost use Rattle.std.specs.Prelude.{◌≡◌, ◌++◌, ◌^◌, ◌<◌, ◌≤◌, [], ◌∷◌, true, IsTrue, ◌↔◌, IfSome, IfOk, IfErr, OnOk, OnErr};
ghost use Rattle.dm_base.specs.declared.limits.TheConstants.{PENALTY};
ghost use Rattle.dm_rows.specs.Rows.{IsSized};
ghost use Rattle.dm_rows.specs.Decide.{choice_of};
ghost use Rattle.dm_rows.specs.Relax.{is_decided, is_relaxed_active};
ghost use Rattle.dm_times.specs.Faults.{RefusesHolding};
ghost use Rattle.dm_tree.specs.Relaxed.{IsRelaxedLeast, relaxed_cost_of, IsRelaxedCycle, HasNoRelaxedCycle, IsViolated};
ghost use Rattle.dm_relax.specs.Relaxed.{first_violated};
ghost use Rattle.dm_evaluate.specs.Evaluator.{IsEvaluatorOf, times_of, cycle_of, path_without};
ghost use Rattle.dm_paths.specs.Decisions.{IsOpen};

use crate::marks::ViolationMarks;
use crate::places::{is_decided, place_of};
use crate::starting::root_timetable;
use crate::turning::{turn_off, turn_on};
use crate::violations::{first_violated, is_violated};
use dm_base::{Cost, Steps};
use dm_graph::search::Cyclic;
use dm_network::Network;
use dm_paths::{Undecided, all_undecided, flip_of, place_of_choice};
use dm_priced::PricedTimetable;
use dm_rows::{Choice, Decision, Rows};
use dm_settle::{NoTimes, Times};
use std::alloc::Global;
use std::marker::Model;
use std::sync::ledger::Ledger;

/// The relaxed problem of a path of decisions over the rows of one network, with its least times and their cost.
///
/// Its calls take the network with which it was made, of which contracts say that it is an evaluator of it.
pub struct Evaluator {
    rows: Rows,

    /// The decisions, with room for one of each choice.
    path: Vec<Decision>,
    undecided: Undecided,
    priced: PricedTimetable,
    marks: ViolationMarks,
}

impl Drop for Evaluator {
    fn drop(self) {
        let Evaluator {
            rows: _,
            path: _,
            undecided: _,
            priced: _,
            marks: _,
        } = self;
    }
}

impl Model for Evaluator {
    ghost use Rattle.std.specs.Prelude.{◌+◌, ◌≤◌, length, vec_capacity};
    ghost use Rattle.dm_evaluate.specs.Evaluator.{EvaluatorValue};

    ghost Value = { EvaluatorValue };

    ghost view = { λ e. record {
      rows = e.rows;
      path = e.path.items;
      changes = e.undecided.changes.items;
      pairs = e.undecided.pairs.items;
      priced = e.priced;
      marks = record { changes = e.marks.changes; pairs = e.marks.pairs };
    } };

    ghost invariant = { λ e. length e.undecided.changes.items + length e.undecided.pairs.items ≤ vec_capacity e.path };
}

impl Evaluator {
    /// The evaluator of the path without a decision, with the room of all its moves. [`NoTimes::Cycle`] comes exactly where what
    /// then binds has a cycle, and shows one, unless memory is short first: then [`NoTimes::OutOfMemory`]. Its time is linear
    /// in events and activities where the trains go in the order of their scheduled times.
    pub fn new(alloc: Global, net: &Network, rows: Rows) -> Result<Evaluator, NoTimes>
        requires { IsSized net.now rows }
        ensures evaluator { IfOk result (IsEvaluatorOf net.now) }
        ensures rows { IfOk result (λ evaluator. evaluator.rows ≡ rows) }
        ensures path { IfOk result (λ evaluator. evaluator.path ≡ []) }
        ensures least { IfOk result (λ evaluator. IsRelaxedLeast net.now rows [] (times_of evaluator)) }
        ensures no_cycle { OnOk result (HasNoRelaxedCycle net.now rows []) }
        ensures refused { IfErr result (RefusesHolding net.now (is_relaxed_active net.now rows [])) }
    {
        net.reveal();
        let undecided = all_undecided(alloc, net, &rows)?;
        let path = Vec::with_capacity(alloc, undecided.changes.len() + undecided.pairs.len())?;
        let marks = ViolationMarks::all(alloc, net)?;
        match root_timetable(alloc, net, &rows) {
            Ok(priced) => Ok(Evaluator {
                rows,
                path,
                undecided,
                priced,
                marks,
            }),
            Err(no_times) => Err(no_times),
        }
    }

    /// Decides a choice that is open, which [`Evaluator::is_open`] tells, and computes the times that this moves. [`Cyclic`]
    /// comes exactly where what then binds has a cycle: then the path and the times are as before, and
    /// [`Evaluator::last_cycle`] is such a cycle. It takes no memory.
    pub fn decide<L: Ledger>(
        &mut self,
        net: &Network,
        decision: Decision,
        steps: &mut Steps<L>,
    ) -> Result<(), Cyclic>
        requires evaluator { IsEvaluatorOf net.now self.old }
        requires open { IsOpen net.now self.old.rows self.old.path (choice_of decision) }
        ensures evaluator { IsEvaluatorOf net.now self.new }
        ensures rows { self.new.rows ≡ self.old.rows }
        ensures path { OnOk result (self.new.path ≡ self.old.path ++ decision ∷ []) }
        ensures least { IsRelaxedLeast net.now self.new.rows self.new.path (times_of self.new) }
        ensures no_cycle { OnOk result (HasNoRelaxedCycle net.now self.old.rows (self.old.path ++ decision ∷ [])) }
        ensures unchanged { OnErr result ((self.new.path ≡ self.old.path) × (times_of self.new ≡ times_of self.old)) }
        ensures cycle { OnErr result (IsRelaxedCycle net.now self.old.rows (self.old.path ++ decision ∷ []) (cycle_of self.new)) }
    {
        net.reveal();
        let flip = flip_of(net, &self.rows, decision);
        match turn_on(&mut self.priced, &mut self.marks, net, flip, steps) {
            Ok(()) => {
                self.undecided.set(flip, false);
                self.path.push_reserved(decision);
                Ok(())
            }
            Err(Cyclic) => Err(Cyclic),
        }
    }

    /// Takes back the decision of a choice that the path decides, whichever came after it, which [`Evaluator::has_decided`]
    /// tells, and computes the times that this
    /// moves. It takes no memory.
    pub fn undecide<L: Ledger>(&mut self, net: &Network, choice: Choice, steps: &mut Steps<L>)
        requires evaluator { IsEvaluatorOf net.now self.old }
        requires decided { is_decided self.old.path choice ≡ true }
        ensures evaluator { IsEvaluatorOf net.now self.new }
        ensures rows { self.new.rows ≡ self.old.rows }
        ensures path { self.new.path ≡ path_without choice self.old.path }
        ensures least { IsRelaxedLeast net.now self.new.rows self.new.path (times_of self.new) }
    {
        net.reveal();
        let place = place_of(&self.path, choice);
        let flip = flip_of(net, &self.rows, self.path[place]);
        turn_off(&mut self.priced, &mut self.marks, net, flip, steps);
        self.undecided.set(flip, true);
        let _decision = self.path.remove(place);
    }

    /// The rows over which the paths are evaluated.
    pub fn rows(&self) -> &Rows
        ensures { result.now ≡ self.now.rows }
    {
        &self.rows
    }

    /// The decisions, in the order in which they were made.
    pub fn path(&self) -> &[Decision]
        ensures { result.now ≡ self.now.path }
    {
        &self.path
    }

    /// The least times of the relaxed problem.
    pub fn times(&self) -> &Times
        ensures { result.now ≡ times_of self.now }
    {
        self.priced.live().times()
    }

    /// The relaxed cost, in thousandths of passenger seconds, at a penalty in seconds for each passenger, at most 1,000,000.
    /// It is a sum of three numbers that are kept.
    pub fn cost(&self, net: &Network, penalty: u64) -> Cost
        requires evaluator { IsEvaluatorOf net.now self.now }
        requires penalty { penalty ≤ PENALTY }
        ensures cost { result ≡ relaxed_cost_of net.now self.now.rows self.now.path (times_of self.now) penalty }
        ensures limit { result < 2 ^ 100 }
    {
        net.reveal();
        self.priced.cost(penalty)
    }

    /// Whether a choice is free, and the path leaves it undecided.
    pub fn is_open(&self, net: &Network, choice: Choice) -> bool
        requires { IsEvaluatorOf net.now self.now }
        ensures { IsTrue result ↔ IsOpen net.now self.now.rows self.now.path choice }
    {
        net.reveal();
        match place_of_choice(net, choice) {
            Some(place) => self.undecided.is(place),
            None => false,
        }
    }

    /// Whether the path decides a choice. It is looked for from the last decision on.
    pub fn has_decided(&self, choice: Choice) -> bool
        ensures { result ≡ is_decided self.now.path choice }
    {
        is_decided(&self.path, choice)
    }

    /// The first choice that is undecided and that the times violate, the changes in ascending id and then the pairs, or None
    /// where they violate nothing. It is found from the first mark on, and a mark of what the times keep is taken away when it
    /// is met, so that it costs what is marked before the choice.
    pub fn violated<L: Ledger>(&mut self, net: &Network, steps: &mut Steps<L>) -> Option<Choice>
        requires { IsEvaluatorOf net.now self.old }
        ensures evaluator { IsEvaluatorOf net.now self.new }
        ensures others { self.new ≡ record self.old { marks = self.new.marks } }
        ensures first { result ≡ first_violated net.now self.old.rows self.old.path (times_of self.old) }
        ensures open { IfSome result (IsOpen net.now self.old.rows self.old.path) }
    {
        net.reveal();
        let times = self.priced.live().times();
        let marks = &mut self.marks;
        first_violated(net, &self.rows, &self.undecided, times, marks, steps)
    }

    /// Whether a choice is open and the times do not keep it.
    pub fn is_violated<L: Ledger>(
        &self,
        net: &Network,
        choice: Choice,
        steps: &mut Steps<L>,
    ) -> bool
        requires { IsEvaluatorOf net.now self.now }
        ensures { IsTrue result ↔ IsViolated net.now self.now.rows self.now.path (times_of self.now) choice }
    {
        is_violated(
            net,
            &self.rows,
            &self.undecided,
            self.times(),
            choice,
            steps,
        )
    }

    /// The timetable of the relaxed problem with its cost, held to what the path decides. No event is fixed.
    pub fn into_priced(self) -> PricedTimetable
        ensures { result ≡ self.priced }
    {
        let Evaluator {
            rows: _,
            path: _,
            undecided: _,
            priced,
            marks: _,
        } = self;
        priced
    }

    /// The activities of the cycle for which a decision was refused last, each head the next tail.
    pub fn last_cycle(&self) -> &[usize]
        ensures { result.now ≡ cycle_of self.now }
    {
        self.priced.live().last_cycle()
    }
}
