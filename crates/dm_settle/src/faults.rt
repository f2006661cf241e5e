//! Why constraints have no times.

use dm_base::{ActId, Items};
use std::alloc::AllocError;

/// Why constraints have no times.
#[derive(Debug, Drop)]
pub enum NoTimes {
    /// Held activities that form a cycle, each head the next tail.
    Cycle(Items<ActId>),

    /// There is not enough memory.
    OutOfMemory,
}

impl From<AllocError> for NoTimes {
    ghost use Rattle.std.specs.Prelude.{◌≡◌};
    ghost use Rattle.dm_settle.specs.declared.faults.NoTimes.TheVariants.{OutOfMemory};

    ghost from_gives = { λ _ fault. fault ≡ OutOfMemory };

    fn from(_error: AllocError) -> NoTimes {
        NoTimes::OutOfMemory
    }
}
