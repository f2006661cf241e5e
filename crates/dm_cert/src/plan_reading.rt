//! Plans read from their texts, line by line.
ghost use Rattle.dm_tree.specs.declared.plans.Plan.{Plan as PlanValue};
ghost use Rattle.std.specs.Prelude.{◌≡◌, ◌⊎◌, ℕ, ◌+◌, ◌<◌, ◌≤◌, length, IfOk};
ghost use Rattle.dm_base.specs.declared.limits.TheConstants.{TEXT};
ghost use Rattle.dm_cert.specs.PlanTexts.{IsVersion};
ghost use Rattle.dm_cert.specs.PlansRead.{Answers, BeginsWithPlan, ReadsPlan, TellsChoices, TellsHeading, TellsPlan, TellsTree, want_of_memory};
ghost use Rattle.dm_cert.specs.Inside.Growing.{AnswersGrown, IsTreeOf};

use crate::faults::WANT_OF_MEMORY;
use crate::growth::{Growth, Stage};
use crate::leaf_lines::leaf_line;
use crate::listed::read_listed;
use crate::plan_lines::{Heading, heading_in};
use crate::{CertFault, CertKind};
use dm_base::Items;
use dm_rows::Decision;
use dm_text::Lines;
use dm_tree::{AssembleFault, Node, Plan, Tree};
use std::alloc::Global;

/// The lines show no tree.
const NO_TREE: CertFault = CertFault {
    line: 1,
    kind: CertKind::NotATree,
};

/// The next line, which should be the first of a plan.
fn heading_line(version: u32, lines: &mut Lines) -> Result<Heading, CertFault>
    ensures { Answers (TellsHeading version) (λ h. h) lines.old lines.new result }
{
    let number = lines.line();
    let Some(line) = lines.next_line() else {
        return Err(CertFault {
            line: number,
            kind: CertKind::Truncated,
        });
    };
    let Some(heading) = heading_in(version, line) else {
        return Err(CertFault {
            line: number,
            kind: CertKind::Form,
        });
    };
    Ok(heading)
}

/// As many choices of a plan as are counted. The list grows as lines are found, so that a number says nothing of memory.
pub fn read_choices(
    alloc: Global,
    lines: &mut Lines,
    count: u128,
) -> Result<Vec<Decision>, CertFault>
    ensures { Answers (TellsChoices count) (λ v. v.items) lines.old lines.new result }
{
    read_listed(alloc, lines, count)
}

/// The tree that grows from as many leaves as the first line says.
fn grown(alloc: Global, lines: &mut Lines, count: u128) -> Result<Growth, CertFault>
    ensures { AnswersGrown count lines.old lines.new result }
{
    let mut growth = Growth::new(alloc);
    let mut taken = 0u128;
    while taken < count {
        let leaf = match leaf_line(alloc, lines) {
            Ok(leaf) => leaf,
            Err(fault) => return Err(fault),
        };
        let Ok(()) = growth.add(&leaf) else {
            return Err(WANT_OF_MEMORY);
        };
        taken += 1;
    }
    Ok(growth)
}

fn tree_of(alloc: Global, nodes: Vec<Node>) -> Result<Tree, CertFault>
    ensures { IsTreeOf nodes.items result }
{
    match Tree::from_nodes(alloc, nodes) {
        Ok(tree) => Ok(tree),
        Err(AssembleFault::NotATree) => Err(NO_TREE),
        Err(AssembleFault::OutOfMemory) => Err(WANT_OF_MEMORY),
    }
}

/// The tree of which these are the nodes that grew from the leaves.
fn tree_from_leaves(alloc: Global, lines: &mut Lines, size: u128) -> Result<Tree, CertFault>
    ensures { Answers (TellsTree 1 size) (λ t. t) lines.old lines.new result }
{
    let growth = match grown(alloc, lines, size) {
        Ok(growth) => growth,
        Err(fault) => return Err(fault),
    };
    match growth.stage {
        Stage::Whole => {
            let Growth { nodes, .. } = growth;
            tree_of(alloc, nodes)
        }
        Stage::Due => Err(NO_TREE),
        Stage::Broken => Err(NO_TREE),
    }
}

/// The tree whose nodes stand in the lines.
fn tree_from_nodes(alloc: Global, lines: &mut Lines, size: u128) -> Result<Tree, CertFault>
    ensures { Answers (TellsTree 2 size) (λ t. t) lines.old lines.new result }
{
    match read_listed::<Node>(alloc, lines, size) {
        Ok(nodes) => tree_of(alloc, nodes),
        Err(fault) => Err(fault),
    }
}

/// The tree of a plan in a version, whose lines are so many leaves or nodes. `Err` tells the first line that is cut or misshapen,
/// or that the lines show no whole tree, or want of memory.
pub fn read_tree(
    alloc: Global,
    version: u32,
    lines: &mut Lines,
    size: u128,
) -> Result<Tree, CertFault>
    requires { IsVersion version }
    ensures { Answers (TellsTree version size) (λ t. t) lines.old lines.new result }
{
    if version == 1 {
        tree_from_leaves(alloc, lines, size)
    } else {
        tree_from_nodes(alloc, lines, size)
    }
}

/// The plan whose text begins at the next line, for the rows at an entry.
pub(crate) fn plan_at(
    alloc: Global,
    version: u32,
    entry: u32,
    lines: &mut Lines,
) -> Result<Plan, CertFault>
    requires { IsVersion version }
    ensures { Answers (TellsPlan version entry) (λ p. p) lines.old lines.new result }
{
    let heading = match heading_line(version, lines) {
        Ok(heading) => heading,
        Err(fault) => return Err(fault),
    };
    let choices = match read_choices(alloc, lines, heading.choices) {
        Ok(choices) => choices,
        Err(fault) => return Err(fault),
    };
    let tree = match read_tree(alloc, version, lines, heading.size) {
        Ok(tree) => tree,
        Err(fault) => return Err(fault),
    };
    Ok(Plan {
        entry,
        choices: Items::from_vec(choices),
        cost: heading.cost,
        bound: heading.bound,
        mark: heading.mark,
        tree,
    })
}

/// The plan whose text the bytes begin with, for the rows at an entry, and how many bytes its text has. The version is 1 or
/// 2. What follows the text does not matter. Memory is taken as lines are found: a number in the text reserves none.
///
/// `Form` and `Truncated` name the first line that is not as the format says, or not whole, counted from 1. Where all lines
/// are as the format says, `NotATree` comes exactly where no whole tree has these leaves in this order (version 1), or the
/// nodes are not one whole tree in preorder (version 2).
pub fn read_plan(
    alloc: Global,
    version: u32,
    entry: u32,
    bytes: &[u8],
) -> Result<(Plan, usize), CertFault>
    requires version { IsVersion version }
    requires short { length bytes.now ≤ TEXT }
    ensures reads { ReadsPlan version entry bytes.now result }
    ensures ok { IfOk result (λ read. BeginsWithPlan version entry bytes.now read.0 read.1) }

    // A plan whose text stands there is read, unless memory runs out.
    ensures exactly { (plan : PlanValue) (used : ℕ) → BeginsWithPlan version entry bytes.now plan used →
        (result ≡ Ok (plan, used)) ⊎ (result ≡ Err want_of_memory) }
{
    let mut lines = Lines::new(bytes);
    let plan = match plan_at(alloc, version, entry, &mut lines) {
        Ok(plan) => plan,
        Err(fault) => return Err(fault),
    };
    let left = lines.left();
    Ok((plan, bytes.len() - left.len()))
}
