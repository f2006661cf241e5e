//! Whether two lines say the same.
ghost use Rattle.std.specs.Prelude.{◌≡◌, MatchBool};

use dm_feed::Line;

/// Whether two lines are one.
pub(crate) fn is_same_line(one: &Line, other: &Line) -> bool
    ensures { MatchBool result (one.now ≡ other.now) (one.now ≡ other.now → ⊥) }
{
    match (one, other) {
        (Line::Say(said), Line::Say(message)) => said.is_same(message),
        (Line::Time(e), Line::Time(f)) => e.0 == f.0,
        (Line::CostNow, Line::CostNow) => true,
        (Line::Plan(budget), Line::Plan(nodes)) => *budget == *nodes,
        (Line::Solve(budget), Line::Solve(nodes)) => *budget == *nodes,
        (Line::Adopt, Line::Adopt) => true,
        (Line::Carry, Line::Carry) => true,
        (Line::Read, Line::Read) => true,
        _ => false,
    }
}
