//! What holds of all plans by parts. A law has no code: it is proved as the contract of an empty function.
ghost use Rattle.dm_part_bounds.specs.Laws.{BoundsByPartsHold, OnePartWillDo};

/// A true part's bound is below what any choices cost within its share; no choices cost less than the bound of a true plan by
/// parts; and where it is marked optimal, its choices are optimal.
pub fn bounds_by_parts_hold()
    ensures { BoundsByPartsHold }
{}

/// A true plan is a true plan by one part, which has all terms of the cost; where the plan is marked optimal, so is that one.
pub fn one_part_will_do()
    ensures { OnePartWillDo }
{}
