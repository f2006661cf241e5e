//! The least tree with given leaves.
ghost use Rattle.std.specs.Prelude.{◌≡◌, IfOk, Err};
ghost use Rattle.dm_tree.specs.Trees.{Assembles, HaveNoTree};

use crate::drafts::Draft;
use crate::{AssembleFault, Leaf, Partial};
use std::alloc::Global;

/// The least tree with these leaves, in any order, and a hole wherever none is given. It is `NotATree` exactly where no tree
/// has them: where two have one path or one path goes on behind another, where they ask for two choices at one path, where
/// a leaf is an inner node, or where a `First` names one event twice.
///
/// Each node takes one look at each leaf that lies at it or below.
pub fn assemble(alloc: Global, leaves: Vec<Leaf>) -> Result<Partial, AssembleFault>
    ensures tree { IfOk result (λ t. Assembles leaves.items t) }
    ensures not_a_tree { result ≡ Err AssembleFault.NotATree → HaveNoTree leaves.items }
{
    let Ok(mut draft) = Draft::new(alloc, &leaves) else {
        return Err(AssembleFault::OutOfMemory);
    };
    for _ in 0..u64::MAX {
        match draft.grow(alloc, &leaves) {
            Ok(true) => {}
            Ok(false) => {
                let Draft { nodes, .. } = draft;
                return Ok(Partial::new(nodes));
            }
            Err(fault) => return Err(fault),
        }
    }
    // So many nodes stand in no memory.
    Err(AssembleFault::OutOfMemory)
}
