//! What becomes of the boards that a call is given, under one name for clauses.
ghost use Rattle.std.specs.Prelude.{Option};
ghost use Rattle.dm_commands.specs.Boards.{Ended};

use dm_outside::Board;

/// The boards of a call.
pub type BoardList = Vec<Box<dyn Board>>;

/// What a call leaves of a list of boards, for clauses alone: there is nothing to call.
pub trait Ending {
    /// Whether the boards have come from the first list to the second one as a call has to leave them that ends with a run, or
    /// without one.
    ghost ends: { Self → Self → Option Ended → Type 0 };
}

impl Ending for Vec<Box<dyn Board>> {
    ghost use Rattle.dm_commands.specs.Boards.{EndBoards};

    ghost ends = { λ old new. EndBoards (λ b. (Board-box b).place b.value) (λ b. (Board-box b).times b.value)
        (λ b. (Board-box b).flags b.value) (λ b. (Board-box b).faults b.value) (λ b. (Board-box b).is_sound b.value) old.items new.items };
}
