//! Where a feed may be held up.

use dm_outside::Gate;

/// Where a feed or a worker may be held up, for tests of what others do meanwhile. Every gate is one.
pub trait HoldPoint {
    /// Holds up a feed or a worker, by its number, at a point. A desk calls it for a feed at 1, before a line is handled, and at
    /// 2, after its reply is kept. A crate above has points of its own from 3 on.
    fn hold_up(&self, who: u32, point: u32);
}

impl<G: Gate> HoldPoint for G {
    fn hold_up(&self, who: u32, point: u32) {
        self.pass(who, point)
    }
}
