//! Why a watch goes no further.
ghost use Rattle.std.specs.Prelude.{◌≡◌};
ghost use Rattle.dm_watch.specs.Stops.{stop_of};
ghost use Rattle.dm_watch.specs.declared.stops.RoundStop.TheVariants.{OutOfMemory};

use dm_store::StoreError;
use std::alloc::{AllocError, AllocFailed};

/// Why a round was not finished. Nothing of it was shown, unless a reply file could not be written.
#[derive(Clone, Copy, Debug, PartialEq, Eq)]
pub enum RoundStop {
    /// There was no memory.
    OutOfMemory,

    /// The feed of this number, from 1, could not be synced.
    Unsynced(usize),

    /// The journal or a reply file could not be written or synced.
    Failed,

    /// With the round the journal would be longer than its largest length. Nothing of it was written.
    Full,
}

impl From<AllocError> for RoundStop {
    ghost from_gives = { λ _ stop. stop ≡ OutOfMemory };

    fn from(_: AllocError) -> RoundStop {
        RoundStop::OutOfMemory
    }
}

impl<T: Drop> From<AllocFailed<T>> for RoundStop {
    ghost from_gives = { λ _ stop. stop ≡ OutOfMemory };

    fn from(_: AllocFailed<T>) -> RoundStop {
        RoundStop::OutOfMemory
    }
}

/// Why a round was not finished, where a call of the store or of its journal answered so.
pub(crate) fn stop_of(error: StoreError) -> RoundStop
    ensures { result ≡ stop_of error }
{
    match error {
        StoreError::OutOfMemory => RoundStop::OutOfMemory,
        StoreError::Full => RoundStop::Full,
        _ => RoundStop::Failed,
    }
}
