//! Why rows have no order.

use dm_graph::search::Cyclic;
use std::alloc::AllocError;

/// Why rows have no order.
#[derive(Clone, Copy, Drop)]
pub enum OrderFault {
    /// The active activities have a cycle.
    Cyclic,

    /// There is not enough memory.
    OutOfMemory,
}

impl From<AllocError> for OrderFault {
    ghost use Rattle.std.specs.Prelude.{◌≡◌};
    ghost use Rattle.dm_order.specs.declared.faults.OrderFault.TheVariants.{OutOfMemory};

    ghost from_gives = { λ _ fault. fault ≡ OutOfMemory };

    fn from(_error: AllocError) -> OrderFault {
        OrderFault::OutOfMemory
    }
}

impl From<Cyclic> for OrderFault {
    ghost use Rattle.std.specs.Prelude.{◌≡◌};
    ghost use Rattle.dm_order.specs.declared.faults.OrderFault.TheVariants.{Cyclic};

    ghost from_gives = { λ _ fault. fault ≡ Cyclic };

    fn from(_error: Cyclic) -> OrderFault {
        OrderFault::Cyclic
    }
}
