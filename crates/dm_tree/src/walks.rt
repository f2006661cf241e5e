//! Trees walked in preorder.
ghost use Rattle.std.specs.Prelude.{IfOk};
ghost use Rattle.dm_tree.specs.Trees.{AreLeavesOf};

use crate::paths::turn_back;
use crate::{Leaf, Tree};
use dm_base::Items;
use dm_rows::Decision;
use std::alloc::{AllocError, Global};

/// The leaves in preorder, each with the decisions from the root to it.
pub fn leaves(alloc: Global, tree: &Tree) -> Result<Vec<Leaf>, AllocError>
    ensures { IfOk result (λ found. AreLeavesOf tree.now found.items) }
{
    let mut found = Vec::new(alloc);
    let mut path: Vec<Decision> = Vec::new(alloc);
    let nodes = tree.as_slice();
    for node in nodes {
        if let Some(choice) = node.choice() {
            path.push(choice.first())?;
            continue;
        }
        let here = Vec::from_slice(alloc, &path)?;
        found.push(Leaf {
            path: Items::from_vec(here),
            node: *node,
        })?;
        turn_back(&mut path)?;
    }
    Ok(found)
}
