//! Where choices stand.

use dm_rows::Decision;
use dm_scout::{Scout, Side, side_of};
use std::alloc::AllocError;

/// Decides each choice as these choices say, and the others as the rows have them.
pub fn take_over(scout: &mut Scout<'_>, choices: &[Decision]) -> Result<(), AllocError> {
    for decision in choices {
        let number = scout.choices().find(scout.net(), decision.choice());
        if let Some(i) = number {
            let _decided = scout.decide(i, side_of(*decision))?;
        }
    }
    for i in (0..scout.choices().len()).rev() {
        let side = scout.choices().own_side(i);
        let _decided = scout.decide(i, side)?;
    }
    Ok(())
}

/// Has each choice stand on its side of these.
pub fn stand_at(scout: &mut Scout<'_>, sides: &[Option<Side>]) -> Result<(), AllocError> {
    for i in 0..sides.len() {
        if scout.side(i) != sides[i] {
            scout.undecide(i)?;
        }
    }
    for i in 0..sides.len() {
        let _set = scout.set(i, sides[i])?;
    }
    Ok(())
}
