//! Choices that are made better in rounds.

use crate::rounds::{Round, Seeds, Work, play};
use crate::searchers::Searcher;
use dm_polish::{NARROW, all_binding, binding};
use std::alloc::AllocError;

/// How many choices a window has at most, and how often it branches.
const WIDE: usize = 32;

/// How many rounds of kicks there are at most.
const ROUNDS: usize = 4;

/// A round of fewer choices than this for each searcher is the first one's alone.
const FEW: usize = 8;

/// Makes the choices better, by windows and by kicks with so many decisions each.
pub fn climb<'t, F: Fn(&Round, &mut Searcher<'t>, &mut [Searcher<'t>])>(
    first: &mut Searcher<'t>,
    others: &mut [Searcher<'t>],
    run: &F,
    tries: u64,
) -> Result<(), AllocError>
    requires { F.IsAlwaysCallable run.now }
{
    allow(first, others, tries);
    let seeds = all_binding(first.alloc, &mut first.scout)?;
    open_windows(first, others, run, seeds, WIDE)?;
    allow(first, others, tries);
    kick(first, others, run)
}

/// Allows each searcher so many decisions more.
fn allow<'t>(first: &mut Searcher<'t>, others: &mut [Searcher<'t>], tries: u64) {
    first.kicks.windows.allow(&first.scout, tries);
    for k in 0..others.len() {
        let other = &mut others[k];
        other.kicks.windows.allow(&other.scout, tries);
    }
}

/// Opens windows around these choices, and then around what these touch, until nothing becomes better.
fn open_windows<'t, F: Fn(&Round, &mut Searcher<'t>, &mut [Searcher<'t>])>(
    first: &mut Searcher<'t>,
    others: &mut [Searcher<'t>],
    run: &F,
    seeds: Vec<usize>,
    size: usize,
) -> Result<(), AllocError>
    requires { F.IsAlwaysCallable run.now }
{
    let mut seeds = seeds;
    for _ in 0..u64::MAX {
        if seeds.is_empty() || first.kicks.windows.is_spent(&first.scout) {
            return Ok(());
        }
        let parts = parts_of(&seeds, others);
        let work = Work::Windows(seeds_of(first, seeds, parts)?, size);
        play(first, others, run, &Round { parts, work })?;
        if parts > 1 {
            merge(first, others)?;
        }
        seeds = binding_touched(first)?;
    }
    Ok(())
}

/// Kicks each choice that binds, and later those near which something became better.
fn kick<'t, F: Fn(&Round, &mut Searcher<'t>, &mut [Searcher<'t>])>(
    first: &mut Searcher<'t>,
    others: &mut [Searcher<'t>],
    run: &F,
) -> Result<(), AllocError>
    requires { F.IsAlwaysCallable run.now }
{
    let mut seeds = all_binding(first.alloc, &mut first.scout)?;
    for _ in 0..ROUNDS {
        let parts = parts_of(&seeds, others);
        let work = Work::Kicks(seeds_of(first, seeds, parts)?);
        play(first, others, run, &Round { parts, work })?;
        if parts > 1 {
            merge(first, others)?;
        }
        let touched = Vec::from_slice(first.alloc, first.kicks.windows.touched.list())?;
        let near = binding_touched(first)?;
        open_windows(first, others, run, near, NARROW)?;
        seeds = binding(first.alloc, &mut first.scout, &touched)?;
        if seeds.is_empty() || first.kicks.windows.is_spent(&first.scout) {
            return Ok(());
        }
    }
    Ok(())
}

/// How many searchers begin from these choices.
fn parts_of(seeds: &[usize], others: &[Searcher<'_>]) -> usize {
    let all = others.len().saturating_add(1);
    if seeds.len() < all.saturating_mul(FEW) {
        1
    } else {
        all
    }
}

/// Choices to begin from where the first searcher stands.
fn seeds_of(first: &Searcher<'_>, numbers: Vec<usize>, parts: usize) -> Result<Seeds, AllocError> {
    let sides = if parts > 1 {
        first.scout.sides()?
    } else {
        Vec::new(first.alloc)
    };
    Ok(Seeds { numbers, sides })
}

/// Has the first searcher take over what the others have made better, one after the other.
fn merge<'t>(first: &mut Searcher<'t>, others: &[Searcher<'t>]) -> Result<(), AllocError> {
    for other in others {
        first.take_over(other)?;
    }
    Ok(())
}

/// Those of the choices that the first searcher has touched that bind.
fn binding_touched(first: &mut Searcher<'_>) -> Result<Vec<usize>, AllocError> {
    binding(
        first.alloc,
        &mut first.scout,
        first.kicks.windows.touched.list(),
    )
}
