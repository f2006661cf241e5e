//! How much parts hold together.

ghost use Rattle.std.specs.Prelude.{◌≡◌};
ghost use Rattle.dm_parts.specs.Sizes.{nodes_of};

use crate::Part;

/// How many nodes the parts have together.
pub fn nodes_in(parts: &[Part]) -> u128
    ensures { result ≡ nodes_of parts.now }
{
    let mut nodes = 0u128;
    for part in parts {
        nodes += part.tree.as_slice().len() as u128;
    }
    nodes
}
