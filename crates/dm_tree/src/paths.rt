//! The way from one place of a tree to the next one in preorder.
ghost use Rattle.std.specs.Prelude.{◌≡◌, ◌∷◌, [], IfOk, MatchBool};
ghost use Rattle.std.specs.Bool.{OnTrue};
ghost use Rattle.dm_tree.specs.Pending.{pending, KeepsFront};

use dm_rows::Decision;
use std::alloc::AllocError;

/// Goes on from a leaf to the next place in preorder: to the second child of the last choice of which the path took the
/// first. It is false where none is left.
pub fn turn_back(path: &mut Vec<Decision>) -> Result<bool, AllocError>
    ensures due { IfOk result (λ turned. MatchBool turned
        (pending path.old.items ≡ path.new.items ∷ pending path.new.items)
        (pending path.old.items ≡ [])) }
    ensures kept { IfOk result (λ turned. OnTrue turned (KeepsFront path.old.items path.new.items)) }
{
    while let Some(decision) = path.pop() {
        if decision.is_first() {
            path.push(decision.other())?;
            return Ok(true);
        }
    }
    Ok(false)
}
