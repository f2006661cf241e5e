//! Good choices first, and then a tree.

use crate::climbing::climb;
use crate::found::Found;
use crate::rounds::Round;
use crate::searchers::{Searcher, go_back};
use crate::sharing::grow;
use dm_base::Cost;
use dm_polish::{dive, take_over};
use dm_rows::Decision;
use dm_scout::Scout;
use dm_task::Guide;
use dm_tree::Node;
use std::alloc::{AllocError, Global};

/// How many decisions are made or tried for each node of the budget by windows, and by kicks.
const TRIES: u64 = 16;

/// Where a search begins: the nodes of a tree in preorder, and choices with what they cost.
#[derive(Clone, Copy)]
pub struct Start<'s> {
    pub nodes: &'s [Node],
    pub choices: &'s [Decision],
    pub cost: Cost,
}

/// A guide for a search of so many nodes, which begins from a tree and choices. All searchers stand at the root of one task, of
/// which every decision of the start behind the base is a free choice; where there are none there is nothing that guides. A
/// round is run by having the first searcher play it and each of the others, at once or one after the other.
pub fn guide<'t, F: Fn(&Round, &mut Searcher<'t>, &mut [Searcher<'t>])>(
    alloc: Global,
    searchers: &mut [Searcher<'t>],
    run: &F,
    start: Start<'_>,
    budget: u64,
) -> Result<Guide, AllocError>
    requires { F.IsAlwaysCallable run.now }
{
    let Some((first, others)) = searchers.split_first_mut() else {
        return Ok(Guide::new(alloc));
    };
    for other in others.iter() {
        first.tree.learn_of(&first.scout, &other.tree)?;
    }
    let mut found = Found {
        path: Vec::new(alloc),
        cost: start.cost,
    };
    find(first, others, run, start, budget, &mut found)?;
    grow(first, others, run, start.nodes, found, budget)
}

/// Plays a round with one searcher after the other.
pub fn in_turn<'t>(round: &Round, first: &mut Searcher<'t>, others: &mut [Searcher<'t>]) {
    first.play(round);
    for k in 0..others.len() {
        others[k].play(round);
    }
}

/// Finds good choices that cost less than those of the start, if the searchers find some. The first stands at the root before and
/// after.
fn find<'t, F: Fn(&Round, &mut Searcher<'t>, &mut [Searcher<'t>])>(
    first: &mut Searcher<'t>,
    others: &mut [Searcher<'t>],
    run: &F,
    start: Start<'_>,
    budget: u64,
    found: &mut Found,
) -> Result<(), AllocError>
    requires { F.IsAlwaysCallable run.now }
{
    // Where nothing is violated at the root, or it costs too much, there is nothing better.
    if first.scout.cost() >= start.cost || first.scout.first_violated()?.is_none() {
        return Ok(());
    }
    begin(first, start)?;
    if first.scout.violated()?.is_empty() {
        climb(first, others, run, budget.saturating_mul(TRIES))?;
    }
    find_here(&mut first.scout, found)?;
    go_back(&mut first.scout)
}

/// Dives, or takes over the choices of the start where those that are met so cost no less.
fn begin(first: &mut Searcher<'_>, start: Start<'_>) -> Result<(), AllocError> {
    let dived = dive(first.alloc, &mut first.scout, &first.tree.tried_gains)?;
    if !dived || first.scout.cost() >= start.cost {
        go_back(&mut first.scout)?;
        take_over(&mut first.scout, start.choices)?;
    }
    Ok(())
}

/// Takes the choices where the scout stands, if they violate nothing and cost less than what was found before.
fn find_here(scout: &mut Scout<'_>, found: &mut Found) -> Result<(), AllocError> {
    let cost = scout.cost();
    if scout.first_violated()?.is_none() && cost < found.cost {
        found.path = scout.path()?;
        found.cost = cost;
    }
    Ok(())
}
