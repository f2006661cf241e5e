//! The sums of the times, kept through a sweep.
ghost use Rattle.std.specs.Prelude.{◌++◌};
ghost use Rattle.dm_priced.specs.Inside.Adding.{AreKnown};

use crate::adding::{EventFlags, is_flagged, lateness_anew, lateness_then, missed_anew};
use dm_base::Cost;
use dm_network::Network;
use dm_settle::{Move, Watcher};

/// What the lateness of the arrivals costs, and the weight of the changes that are missed, by the events that have passed or are
/// cancelled and those beside which a change may be missed, or which are cancelled.
#[derive(Clone, Copy)]
pub struct Watch<'a> {
    pub flags: EventFlags<'a>,
    pub beside: &'a [bool],
    pub lateness: Cost,
    pub missed: Cost,
}

impl Watcher for Watch<'_> {
    ghost use Rattle.std.specs.Prelude.{◌++◌};
    ghost use Rattle.dm_priced.specs.Inside.Adding.{AreKnown};

    ghost knows = { λ w net given x.
        AreKnown net w.flags.passed.now w.flags.cancelled.now w.beside.now given.spans x w.lateness w.missed };

    ghost flags = { λ w. w.flags.passed.now ++ w.flags.cancelled.now };

    // Nearly all moves are of events that are not flagged: nothing is missed beside them, and they are not cancelled. So this part
    // is short.
    #[inline(always)]
    fn moves(&mut self, net: &Network, to: &Move<'_>) {
        if is_flagged(self.beside, to.event) {
            self.missed = missed_anew(net, self.flags, *to, self.missed);
            self.lateness = lateness_anew(net, self.flags, *to, self.lateness);
            return;
        }
        self.lateness = lateness_then(net, self.flags, to, self.lateness);
    }
}
