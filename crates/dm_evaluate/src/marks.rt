//! Marks of the choices that times do not keep.
ghost use Rattle.std.specs.Prelude.{ℕ, ◌≡◌, ◌<◌, true, List, length, IfOk};
ghost use Rattle.dm_network.specs.Net.{activity_at, is_change};
ghost use Rattle.dm_marks.specs.Marked.{is_marked};
ghost use Rattle.dm_evaluate.specs.Marks.{MarksUnkept};

use crate::marking::{mark_early, mark_unmet};
use dm_base::ActKind;
use dm_marks::Marks;
use dm_network::Network;
use dm_settle::{Move, Watcher};
use std::alloc::{AllocError, Global};

/// Marks at the changes whose head comes too early and at the pairs of which neither direction has all its headways met,
/// whether a path decides them or not. A mark that is none any more stays until it is met.
pub struct ViolationMarks {
    /// By place of the activity.
    pub changes: Marks,
    pub pairs: Marks,
}

impl Drop for ViolationMarks {
    fn drop(self) {
        let ViolationMarks {
            changes: _,
            pairs: _,
        } = self;
    }
}

impl ViolationMarks {
    /// Marks at every change and every pair. Their time is linear in these.
    pub fn all(alloc: Global, net: &Network) -> Result<ViolationMarks, AllocError>
        ensures { IfOk result (λ m. (spans : List ℕ) (x : List ℕ)
            → MarksUnkept net.now spans x (record { changes = m.changes; pairs = m.pairs })) }
    {
        let mut changes = Marks::new(alloc, net.activities())?;
        mark_changes(&mut changes, net);
        let pairs = Marks::all(alloc, net.pairs())?;
        Ok(ViolationMarks { changes, pairs })
    }
}

/// Marks every change.
fn mark_changes(changes: &mut Marks, net: &Network)
    requires { length changes.old ≡ length net.now.activities }
    ensures size { length changes.new ≡ length changes.old }
    ensures marked { (a : ℕ) → a < length net.now.activities → is_change (activity_at net.now a).kind ≡ true
        → is_marked changes.new a ≡ true }
{
    for a in 0..net.activities() {
        if matches!(net.activity(a).kind, ActKind::Change) {
            changes.mark(a);
        }
    }
}

impl Watcher for ViolationMarks {
    ghost use Rattle.std.specs.Prelude.{[]};
    ghost use Rattle.dm_evaluate.specs.Marks.{MarksUnkept};

    ghost knows = { λ m net given x. MarksUnkept net given.spans x (record { changes = m.changes; pairs = m.pairs }) };

    ghost flags = { λ m. [] };

    fn moves(&mut self, net: &Network, to: &Move<'_>) {
        net.reveal();
        mark_early(&mut self.changes, net, to, to.into);
        mark_early(&mut self.changes, net, to, to.out_of);
        mark_unmet(&mut self.pairs, net, to);
    }
}
