//! What several searchers do at once, each its part.

use crate::parts::Leaves;
use crate::searchers::Searcher;
use dm_scout::Side;
use std::alloc::AllocError;

/// What searchers do at once. All of them read it, and each changes nothing but itself and the count of parts that were taken.
pub struct Round {
    /// How many searchers have a part in it: all of them, or the first alone.
    pub(crate) parts: usize,
    pub(crate) work: Work,
}

impl Drop for Round {
    fn drop(self) {
        let Round { parts: _, work: _ } = self;
    }
}

/// What there is to do.
#[derive(Drop)]
pub enum Work {
    /// A window of so many choices around each of these.
    Windows(Seeds, usize),

    /// A kick of each of these choices.
    Kicks(Seeds),

    /// Expands the leaves of a tree.
    Leaves(Leaves),
}

/// Choices to begin from, and the sides on which the first searcher has all choices, none where it is alone.
pub struct Seeds {
    pub numbers: Vec<usize>,
    pub sides: Vec<Option<Side>>,
}

impl Drop for Seeds {
    fn drop(self) {
        let Seeds {
            numbers: _,
            sides: _,
        } = self;
    }
}

/// Has all searchers that have a part in a round do it. The first alone needs nobody to run it.
pub fn play<'t, F: Fn(&Round, &mut Searcher<'t>, &mut [Searcher<'t>])>(
    first: &mut Searcher<'t>,
    others: &mut [Searcher<'t>],
    run: &F,
    round: &Round,
) -> Result<(), AllocError>
    requires { F.IsAlwaysCallable run.now }
{
    if round.parts < 2 {
        first.play(round);
    } else {
        run(round, first, others);
    }
    first.check()?;
    for other in others.iter() {
        other.check()?;
    }
    Ok(())
}

/// The part of a searcher: of so many equal blocks of a list the one of its place.
pub fn block<T>(list: &[T], place: usize, parts: usize) -> &[T] {
    let many = list.len();
    let from = many.saturating_mul(place).checked_div(parts);
    let to = many
        .saturating_mul(place.saturating_add(1))
        .checked_div(parts);
    list.get(from.unwrap_or(0)..to.unwrap_or(0)).unwrap_or(&[])
}
