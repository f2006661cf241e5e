//! Whole plans.
ghost use Rattle.std.specs.Prelude.{ℕ, ◌≡◌, ◌≤◌, length, IfOk};
ghost use Rattle.dm_base.specs.declared.limits.TheConstants.{PENALTY};
ghost use Rattle.dm_rows.specs.Rows.{IsSized};
ghost use Rattle.dm_tree.specs.Plans.{whole_task, IsTruePlan};
ghost use Rattle.dm_check_rows.specs.Claims.{Tells};
ghost use Rattle.dm_check_times.specs.Timetables.{IsRoomOf};
ghost use Rattle.dm_check_plans.specs.Inside.Visiting.{IsOwnCost, IsMarked, IsToldOf};
ghost use Rattle.dm_check_plans.specs.Choosing.{AreTrueChoices};

use crate::choices::{are_all_different, are_some_of, cost_with};
use crate::grounds::Grounds;
use crate::leaves::{Wanted, is_any, is_least};
use dm_base::Cost;
use dm_check_times::{HeldCycle, KeptTimetable, cost_of};
use dm_marks::PlaceSet;
use dm_network::Network;
use dm_rows::{Decision, Rows, free_choices};
use dm_tree::{Mark, Node, Plan};
use std::alloc::{AllocError, Global};

/// Room for the times of rows.
#[derive(Drop)]
struct Room {
    timetable: KeptTimetable,
    moved: PlaceSet,
}

/// Whether a plan is a true plan of the rows whose tree may have so many nodes. Nothing is asked of the plan, and the rows may
/// have a cycle. The penalty is in seconds for each passenger, at most 1,000,000. `Err` is want of memory alone; what is taken
/// is linear in the network and the tree.
pub fn is_true_plan(
    alloc: Global,
    net: &Network,
    penalty: u64,
    rows: &Rows,
    budget: u64,
    plan: &Plan,
) -> Result<bool, AllocError>
    requires sized { IsSized net.now rows.now }
    requires penalty { penalty ≤ PENALTY }
    ensures { IfOk result (Tells (IsTruePlan (whole_task net.now rows.now penalty budget) plan.now)) }
{
    let nodes = plan.tree.as_slice();
    if !is_told_of(nodes, plan.bound, plan.mark, budget) {
        return Ok(false);
    }
    let mut room = match room_for(alloc, net) {
        Ok(room) => room,
        Err(full) => return Err(full),
    };
    let choices = plan.choices.as_slice();
    match are_choices(alloc, net, penalty, &mut room, rows, choices, plan.cost) {
        Ok(true) => {}
        Ok(false) => return Ok(false),
        Err(full) => return Err(full),
    }
    let own = own_cost(net, penalty, &mut room, rows);
    let grounds = Grounds {
        net,
        rows,
        penalty,
        own,
        plan: plan.cost,
    };
    match grounds.are_all_true(alloc, nodes) {
        Ok(all) => Ok(all),
        Err(full) => Err(full),
    }
}

/// Whether choices are free ones in order that differ from the rows, and make them cost this. Nothing is asked of them, and the
/// rows may have a cycle. The penalty is in seconds for each passenger, at most 1,000,000. `Err` is want of memory alone.
pub fn are_true_choices(
    alloc: Global,
    net: &Network,
    penalty: u64,
    rows: &Rows,
    choices: &[Decision],
    cost: Cost,
) -> Result<bool, AllocError>
    requires sized { IsSized net.now rows.now }
    requires penalty { penalty ≤ PENALTY }
    ensures { IfOk result (λ b. (budget : ℕ)
        → Tells (AreTrueChoices (whole_task net.now rows.now penalty budget) choices.now cost) b) }
{
    let mut room = match room_for(alloc, net) {
        Ok(room) => room,
        Err(full) => return Err(full),
    };
    match are_choices(alloc, net, penalty, &mut room, rows, choices, cost) {
        Ok(good) => Ok(good),
        Err(full) => Err(full),
    }
}

fn room_for(alloc: Global, net: &Network) -> Result<Room, AllocError>
    ensures room { IfOk result (λ room. IsRoomOf net.now room.timetable) }
    ensures as_many_moved { IfOk result (λ room. length room.moved.flags ≡ length net.now.events) }
{
    let timetable = match KeptTimetable::new(alloc, net) {
        Ok(timetable) => timetable,
        Err(full) => return Err(full),
    };
    match PlaceSet::new(alloc, net.events()) {
        Ok(moved) => Ok(Room { timetable, moved }),
        Err(full) => Err(full),
    }
}

/// Whether the bound, the mark and the budget are told rightly of the nodes.
fn is_told_of(nodes: &[Node], bound: Cost, mark: Mark, budget: u64) -> bool
    ensures { Tells (IsToldOf nodes.now bound mark budget) result }
{
    if nodes.len() as u64 > budget {
        return false;
    }
    if !is_marked(nodes, mark, budget) {
        return false;
    }
    is_least(nodes, bound)
}

/// Whether the mark is `Optimal` where no leaf is open, and `Open` where one is and two more nodes would be too many.
fn is_marked(nodes: &[Node], mark: Mark, budget: u64) -> bool
    ensures { Tells (IsMarked nodes.now mark budget) result }
{
    let open = is_any(nodes, Wanted::Open);
    match mark {
        Mark::Optimal => !open,
        Mark::Open => open && budget < nodes.len() as u64 + 2,
    }
}

/// Whether choices are free ones in order that differ from the rows, and make them cost this.
fn are_choices(
    alloc: Global,
    net: &Network,
    penalty: u64,
    room: &mut Room,
    rows: &Rows,
    choices: &[Decision],
    cost: Cost,
) -> Result<bool, AllocError>
    requires sized { IsSized net.now rows.now }
    requires penalty { penalty ≤ PENALTY }
    requires room { IsRoomOf net.now room.old.timetable }
    requires as_many_moved { length room.old.moved.flags ≡ length net.now.events }
    ensures tells { IfOk result (λ b. (budget : ℕ)
        → Tells (AreTrueChoices (whole_task net.now rows.now penalty budget) choices.now cost) b) }
    ensures room { IsRoomOf net.now room.new.timetable }
    ensures as_many_moved { length room.new.moved.flags ≡ length room.old.moved.flags }
{
    let free = match free_choices(alloc, net, rows) {
        Ok(free) => free,
        Err(full) => return Err(full),
    };
    if !are_some_of(&free, choices) {
        return Ok(false);
    }
    if !are_all_different(net, rows, choices) {
        return Ok(false);
    }
    let (timetable, moved) = (&mut room.timetable, &mut room.moved);
    match cost_with(net, penalty, timetable, moved, rows, choices, cost) {
        Ok(costs) => Ok(costs),
        Err(full) => Err(full),
    }
}

/// What the rows themselves cost, or None where they have a cycle.
fn own_cost(net: &Network, penalty: u64, room: &mut Room, rows: &Rows) -> Option<Cost>
    requires sized { IsSized net.now rows.now }
    requires penalty { penalty ≤ PENALTY }
    requires room { IsRoomOf net.now room.old.timetable }
    requires as_many_moved { length room.old.moved.flags ≡ length net.now.events }
    ensures { IsOwnCost net.now rows.now penalty result }
{
    net.reveal();
    match room.timetable.fill(net, rows, &mut room.moved) {
        Ok(()) => Some(cost_of(net, rows, room.timetable.times(), penalty)),
        Err(HeldCycle) => None,
    }
}
