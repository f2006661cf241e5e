//! The choices of a plan: which choices they are, and what they make of the rows.
ghost use Rattle.std.specs.Prelude.{ℕ, ◌≡◌, ◌≤◌, ◌+◌, All, map, length, IfOk, MatchBool};
ghost use Rattle.dm_base.specs.declared.limits.TheConstants.{PENALTY};
ghost use Rattle.dm_rows.specs.Rows.{IsSized};
ghost use Rattle.dm_rows.specs.Decide.{choice_of, with_decisions};
ghost use Rattle.dm_tree.specs.Plans.{whole_task, AreSomeOf, DiffersFrom, CostsWith};
ghost use Rattle.dm_check_rows.specs.Claims.{Tells};
ghost use Rattle.dm_check_times.specs.Timetables.{IsRoomOf};
ghost use Rattle.dm_check_plans.specs.Inside.Paths.{AreFree, is_next};

use dm_base::Cost;
use dm_check_rows::is_cost_of;
use dm_check_times::{HeldCycle, KeptTimetable};
use dm_marks::PlaceSet;
use dm_network::Network;
use dm_paths::{differs_from, with_decisions};
use dm_rows::{Choice, Decision, Rows};
use std::alloc::AllocError;

/// Whether decisions decide some of the choices allowed, in their order and each at most once.
pub fn are_some_of(allowed: &[Choice], decisions: &[Decision]) -> bool
    ensures { Tells (AreSomeOf allowed.now (map choice_of decisions.now)) result }
{
    let mut next = 0usize;
    for choice in allowed {
        next = next_after(decisions, next, *choice);
    }
    next == decisions.len()
}

/// The place behind the decision at a place where it decides this choice, and else the place itself.
fn next_after(decisions: &[Decision], next: usize, choice: Choice) -> usize
    ensures { MatchBool (is_next decisions.now next choice) (result ≡ next + 1) (result ≡ next) }
{
    if next < decisions.len() && decisions[next].choice().is_same(choice) {
        next + 1
    } else {
        next
    }
}

/// Whether no decision is what the rows have already.
pub fn are_all_different(net: &Network, rows: &Rows, decisions: &[Decision]) -> bool
    requires sized { IsSized net.now rows.now }
    requires free { AreFree net.now rows.now decisions.now }
    ensures { (penalty budget : ℕ) → Tells (All (DiffersFrom (whole_task net.now rows.now penalty budget)) decisions.now) result }
{
    for decision in decisions {
        if !differs_from(net, rows, *decision) {
            return false;
        }
    }
    true
}

/// Whether the rows have no cycle with these decisions of free choices, and cost this.
pub fn cost_with(
    net: &Network,
    penalty: u64,
    timetable: &mut KeptTimetable,
    moved: &mut PlaceSet,
    rows: &Rows,
    decisions: &[Decision],
    cost: Cost,
) -> Result<bool, AllocError>
    requires sized { IsSized net.now rows.now }
    requires room { IsRoomOf net.now timetable.old }
    requires as_many_moved { length moved.old.flags ≡ length net.now.events }
    requires free { AreFree net.now rows.now decisions.now }
    requires penalty { penalty ≤ PENALTY }
    ensures as_many_moved { length moved.new.flags ≡ length moved.old.flags }
    ensures tells { IfOk result (λ b. (budget : ℕ) → Tells (CostsWith (whole_task net.now rows.now penalty budget) decisions.now cost) b) }
    ensures room { IsRoomOf net.now timetable.new }
{
    let set = match with_decisions(net, rows, decisions) {
        Ok(set) => set,
        Err(full) => return Err(full),
    };
    match timetable.fill(net, &set, moved) {
        Ok(()) => Ok(is_cost_of(net, &set, timetable.times(), penalty, cost)),
        Err(HeldCycle) => Ok(false),
    }
}
