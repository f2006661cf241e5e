//! Plans of windows.
ghost use Rattle.std.specs.Prelude.{IfOk};
ghost use Rattle.dm_desk.specs.Searching.{MaySearch};
ghost use Rattle.dm_outlook.specs.Searching.{FindsInWindow};

use dm_desk::{PlanRequest, Search};
use dm_parts::AnyPlan;
use dm_stretch::Window;
use dm_window::{window_plan, window_solution};
use std::alloc::{AllocError, Global};

/// A plan of a window, of the kind that is asked for.
pub fn planned(
    alloc: Global,
    request: &PlanRequest<'_>,
    window: &Window,
) -> Result<AnyPlan, AllocError>
    requires { MaySearch request.now }
    ensures { IfOk result (FindsInWindow request.now window.now) }
{
    let (net, penalty, snapshot) = (request.net, request.penalty, request.snapshot);
    match request.asked {
        Search::Plan(budget) => match window_plan(alloc, net, penalty, snapshot, window, budget) {
            Ok(plan) => Ok(AnyPlan::Whole(plan)),
            Err(AllocError) => Err(AllocError),
        },
        Search::Solve(budget) => {
            match window_solution(alloc, net, penalty, snapshot, window, budget) {
                Ok(plan) => Ok(AnyPlan::ByParts(plan)),
                Err(AllocError) => Err(AllocError),
            }
        }
    }
}
