//! Where a guide's tree branches.
ghost use Rattle.std.specs.Prelude.{◌≡◌, List, Some, None, IfSome, IfNone, MatchBool, slice_get};
ghost use Rattle.dm_rows.specs.declared.messages.Decision.{Decision as DecisionValue};
ghost use Rattle.dm_team.specs.Nodes.{child_of, hint_along, branching_of, branching_at};

use dm_rows::{Choice, Decision};
use dm_task::{Guide, Hint};

/// The choice on which the guide's tree branches at a path, or None where it does not go on there.
pub(crate) fn branching(guide: &Guide, path: &[Decision]) -> Option<Choice>
    ensures { result ≡ branching_at guide.now.hints.items path.now }
{
    branching_on(hint_at(guide.hints.as_slice(), path))
}

fn branching_on(hint: Option<Hint>) -> Option<Choice>
    ensures { result ≡ branching_of hint }
{
    match hint {
        Some(
            Hint {
                choice: Some(choice),
                below: Some(_),
            },
        ) => Some(choice),
        _ => None,
    }
}

/// What the guide says of the node to which a path leads.
fn hint_at(hints: &[Hint], path: &[Decision]) -> Option<Hint>
    ensures { result ≡ hint_along hints.now (Some 0) path.now }
{
    let mut node = 0;
    for i in 0..path.len() {
        node = child(hints, node, path[i])?;
    }
    hint_of(hints, node)
}

/// The number of the child of a node to which a decision leads, or None where the guide says nothing of it.
fn child(hints: &[Hint], node: usize, decision: Decision) -> Option<usize>
    ensures some { IfSome result (λ n. child_of (slice_get hints.now node) decision ≡ Some n) }
    ensures none { IfNone result ((path : List DecisionValue)
        → hint_along hints.now (child_of (slice_get hints.now node) decision) path ≡ None) }
{
    let hint = hint_of(hints, node)?;
    let below = hint.below?;
    if decision.is_first() {
        Some(below)
    } else if below < hints.len() {
        Some(below + 1)
    } else {
        None
    }
}

fn hint_of(hints: &[Hint], node: usize) -> Option<Hint>
    ensures { result ≡ slice_get hints.now node }
{
    if node < hints.len() {
        Some(hints[node])
    } else {
        None
    }
}

pub(crate) fn is_hinted(hint: Option<Choice>, choice: Choice) -> bool
    ensures { MatchBool result (hint ≡ Some choice) (hint ≡ Some choice → ⊥) }
{
    match hint {
        Some(hinted) => hinted == choice,
        None => false,
    }
}
