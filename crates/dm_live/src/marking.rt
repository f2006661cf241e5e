//! Marks at the heads of the held activities out of an event.
ghost use Rattle.std.specs.Prelude.{◌≡◌, ◌+◌, ◌<◌, length};
ghost use Rattle.dm_settle.specs.Constraints.{IsSizedFor, arcs_given};
ghost use Rattle.dm_live.specs.Live.{MarksHeads};

use dm_base::Steps;
use dm_marks::Marks;
use dm_network::Network;
use dm_settle::Constraints;
use std::sync::ledger::Ledger;

/// Marks the heads of the held activities out of an event. It reads one row.
pub fn mark_heads<L: Ledger>(
    marks: &mut Marks,
    net: &Network,
    constraints: &Constraints,
    event: usize,
    steps: &mut Steps<L>,
)
    requires sized { IsSizedFor net.now constraints.now }
    requires as_many { length marks.old ≡ length net.now.events }
    requires is_event { event < length net.now.events }
    ensures marks { MarksHeads (arcs_given net.now constraints.now) event marks.old marks.new }
    ensures counted { steps.new ≡ steps.old + 1 }
{
    net.reveal();
    for a in net.out_row(event, steps) {
        if constraints.is_held(*a) {
            marks.mark(net.activity(*a).head);
        }
    }
}
