//! Good choices along one path.

use crate::gaining::{By, Scores, TriedGains, try_both};
use dm_scout::{Scout, Side};
use std::alloc::{AllocError, Global};

/// Goes down one path until nothing is violated. Each time it decides the choice whose sides are furthest apart, on the side
/// that costs less. It is false where each side makes a cycle somewhere.
pub fn dive(alloc: Global, scout: &mut Scout<'_>, root: &TriedGains) -> Result<bool, AllocError> {
    let choices = scout.choices().len();
    let mut tried_gains = root.copy(alloc)?;
    let mut scores = Scores::new(alloc, By::Regret, choices)?;
    scout.note_violated()?;
    for _ in 0..choices.saturating_mul(2) {
        scores.follow(scout, &tried_gains)?;
        let Some(i) = scores.top() else {
            return Ok(true);
        };
        let is_new = tried_gains.get(i).is_none();
        let gains = try_both(scout, i);
        if is_new {
            let _before = tried_gains.set(i, gains);
            scores.look_at(scout, &tried_gains, i);
        } else if !decide_cheaper(scout, i, gains.first <= gains.second)? {
            return Ok(false);
        }
    }
    Ok(scout.first_violated()?.is_none())
}

/// Decides a choice on the cheaper side, or on the other where that makes a cycle. It is false where both do.
pub fn decide_cheaper(scout: &mut Scout<'_>, i: usize, is_first: bool) -> Result<bool, AllocError> {
    let side = if is_first { Side::First } else { Side::Second };
    if scout.decide(i, side)? {
        return Ok(true);
    }
    scout.decide(i, side.other())
}
