//! Plans whose trees are one long path.

use crate::plans::{plan_of, printed};
use dm_base::{ActId, Items};
use dm_rows::Choice;
use dm_samples::{Case, Failure};
use dm_tree::{Mark, Node, Plan, Tree, leaves, nodes};
use std::alloc::{AllocError, Global};

/// How many choices a path has at most.
const DEPTH: u64 = 8_191;

/// A plan of so many choices as the case says, one below the other, printed and read back in the second version.
pub fn told_of_long_tree(alloc: Global, case: &Case<'_>) -> Result<String, Failure> {
    let plan = long_plan(alloc, case)?;
    let (count, found) = (nodes(&plan.tree), leaves(alloc, &plan.tree)?);
    let (leaves, path) = (
        found.len(),
        found.last().map_or(0, |leaf| leaf.path.as_slice().len()),
    );
    let printed = printed(alloc, &plan)?;
    let back = is_read_back(alloc, false, &plan, printed.taken())?;
    Ok(format!(in alloc; "{count} nodes, {leaves} leaves, last path {path}, back: {back}")?)
}

/// Such a plan read from its text in the first version, which has each leaf with its whole path.
pub fn told_of_long_leaves(alloc: Global, case: &Case<'_>) -> Result<String, Failure> {
    let plan = long_plan(alloc, case)?;
    let text = long_leaves(alloc, depth_of(case))?;
    let text = text.as_bytes();
    let (size, back) = (text.len(), is_read_back(alloc, true, &plan, text)?);
    Ok(format!(in alloc; "{size} bytes, back: {back}")?)
}

/// Whether a text in the first version or in the second is that of a plan with this tree.
fn is_read_back(alloc: Global, is_first: bool, plan: &Plan, text: &[u8]) -> Result<bool, Failure> {
    match plan_of(alloc, is_first, text)? {
        Ok((again, used)) => {
            Ok(used == text.len() && again.tree.as_slice() == plan.tree.as_slice())
        }
        Err(_) => Ok(false),
    }
}

fn depth_of(case: &Case<'_>) -> u32 {
    case.number(0).min(DEPTH) as u32
}

fn long_plan(alloc: Global, case: &Case<'_>) -> Result<Plan, Failure> {
    match Tree::from_nodes(alloc, long_nodes(alloc, depth_of(case))?) {
        Ok(tree) => Ok(Plan {
            entry: 1,
            choices: Items::from_vec(Vec::new(alloc)),
            cost: 1,
            bound: 1,
            mark: Mark::Optimal,
            tree,
        }),
        Err(_) => Err(Failure::NoDay),
    }
}

/// Each choice has a leaf below its first decision, and the next choice below its second.
fn long_nodes(alloc: Global, depth: u32) -> Result<Vec<Node>, AllocError> {
    let mut made = Vec::new(alloc);
    for act in 0..depth {
        made.push(Node::Inner(Choice::Change(ActId(act))))?;
        made.push(Node::Cycle)?;
    }
    made.push(Node::Bound(1))?;
    Ok(made)
}

fn long_leaves(alloc: Global, depth: u32) -> Result<String, AllocError> {
    let leaves = u64::from(depth).saturating_add(1);
    let mut text = format!(in alloc; "plan optimal cost 1 bound 1 choices 0 leaves {leaves}\n")?;
    let mut path = String::new(alloc);
    for act in 0..depth {
        let keep = format!(in alloc; "leaf cycle{path} keep {act}\n")?;
        text.push_str(&keep)?;
        let drop = format!(in alloc; " drop {act}")?;
        path.push_str(&drop)?;
    }
    let last = format!(in alloc; "leaf bound 1{path}\n")?;
    text.push_str(&last)?;
    Ok(text)
}
