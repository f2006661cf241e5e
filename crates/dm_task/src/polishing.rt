//! Who makes choices better near some that were turned.

use dm_rows::Decision;
use std::alloc::AllocError;

/// One who stands at choices of a task, and makes them better near some that were turned. Nothing is promised of what it finds.
pub trait Polishing: Drop {
    /// Turns choices, and makes those near them better, with so many decisions at most. Where the whole then costs less than
    /// before, it stays there and gives the decisions behind the base by number. Else it goes back.
    fn polish(
        &mut self,
        turned: &[Decision],
        tries: u64,
    ) -> Result<Option<Vec<Decision>>, AllocError>;
}
