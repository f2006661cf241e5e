//! The stops of the boards of a run.
ghost use Rattle.std.specs.Prelude.{◌≤◌, map, string_bytes, vec_len, IfOk};
ghost use Rattle.dm_base.specs.declared.limits.TheConstants.{BOARDS};
ghost use Rattle.dm_words.specs.Words.{AreStopsOf};

use crate::command::{CommandWords, read_words};
use std::alloc::{AllocError, Global};

/// The stops of the boards that the words of a run ask for, in their order, or none where the words ask for no run.
pub fn board_words(alloc: Global, words: &[String]) -> Result<Vec<u32>, AllocError>
    ensures stops { IfOk result (λ stops. AreStopsOf (map string_bytes words.now) stops.items) }
    ensures few { IfOk result (λ stops. vec_len stops ≤ BOARDS) }
{
    match read_words(words) {
        Some(CommandWords::Run(run)) => run.boards.to_vec(alloc),
        _ => Ok(Vec::new(alloc)),
    }
}
