//! What guides a search.
ghost use Rattle.dm_task.specs.Tasks.{IsPosedTask};

use dm_base::Cost;
use dm_guide::{Searcher, Start, guide, in_turn};
use dm_rows::Decision;
use dm_task::{Guide, Task};
use dm_traverse::evaluator_at_base;
use dm_tree::Node;
use std::alloc::AllocError;

/// The searcher at a place, from 0, among so many, at the base of a task whose rows have no cycle.
pub fn searcher_at<'t>(
    task: &Task<'t>,
    place: usize,
    many: usize,
) -> Result<Searcher<'t>, AllocError>
    requires { IsPosedTask task.now }
{
    let evaluator = evaluator_at_base(task)?;
    Searcher::new(task, evaluator, place, many)
}

/// What guides a search from a tree and choices that cost so much, by one searcher, where there is room for a choice.
pub(crate) fn guide_alone(
    task: &Task<'_>,
    nodes: &[Node],
    choices: &[Decision],
    cost: Cost,
) -> Result<Guide, AllocError>
    requires { IsPosedTask task.now }
{
    if task.budget < 3 {
        return Ok(Guide::new(task.alloc));
    }
    let mut searchers = Vec::new(task.alloc);
    searchers.push(searcher_at(task, 0, 1)?)?;
    let start = Start {
        nodes,
        choices,
        cost,
    };
    guide(
        task.alloc,
        searchers.as_mut_slice(),
        &in_turn,
        start,
        task.budget,
    )
}
