//! What is told of each time that a sweep writes.
ghost use Rattle.std.specs.Prelude.{◌≡◌};
ghost use Rattle.dm_settle.specs.Moving.{IsMove, times_after};

use crate::moving::Move;
use dm_network::Network;

/// What a sweep tells of each time that it writes, before it does. A sum over the times can be kept by it.
pub trait Watcher {
    ghost use Rattle.std.specs.Prelude.{ℕ, Bool, List};
    ghost use Rattle.dm_network.specs.Net.{Net};
    ghost use Rattle.dm_settle.specs.Constraints.{ConstraintsValue};

    /// Whether it has been told of every time, under what the events are held to.
    ghost knows: { Self → Net → ConstraintsValue → List ℕ → Type 0 };

    /// The flags by which it goes, which no time changes.
    ghost flags: { Self → List Bool };

    /// An event will move so.
    fn moves(&mut self, net: &Network, to: &Move<'_>)
        requires is_move { IsMove net.now to.now }
        requires knows { knows self.old net.now to.now.constraints.now to.now.times.now }
        ensures knows { knows self.new net.now to.now.constraints.now (times_after to.now) }
        ensures flags { flags self.new ≡ flags self.old };
}

/// One that is told, and keeps nothing.
#[derive(Clone, Copy)]
pub struct Unwatched;

impl Watcher for Unwatched {
    ghost use Rattle.std.specs.Prelude.{[]};

    ghost knows = { λ w net given times. Unit {0} };

    ghost flags = { λ w. [] };

    fn moves(&mut self, _net: &Network, _to: &Move<'_>) {}
}
