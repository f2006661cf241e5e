//! The lines of the text of a plan by parts, each read from its front. Nothing here takes memory.
ghost use Rattle.std.specs.Prelude.{◌≡◌};
ghost use Rattle.std.specs.Option.{option_map};
ghost use Rattle.dm_tree.specs.Trees.{choice_in};
ghost use Rattle.dm_cert.specs.Inside.SolvedLines.{solved_mark_in, solved_counts_in, solved_costs_in, solved_heading_in, part_ids_in, part_nodes_in, part_heading_in, is_part_heading, part_node_in_front, part_leaf_in, part_node_in, rest_in};

use crate::plan_lines::{change_in, number_behind, pair_in};
use dm_base::Cost;
use dm_parts::PartNode;
use dm_text::behind;
use dm_tree::{Mark, Node};

/// What the first line of a plan by parts says: with the costs how many lines of choices follow, how many parts, and how many
/// nodes these have together.
#[derive(Clone, Copy)]
pub struct SolvedHeading {
    pub mark: Mark,
    pub cost: Cost,
    pub bound: Cost,
    pub choices: u128,
    pub parts: u128,
    pub nodes: u128,
}

/// What the first line of a part says: how many arrivals and changes its share has, how many nodes follow, and the bound.
#[derive(Clone, Copy)]
pub struct PartHeading {
    pub arrivals: u128,
    pub changes: u128,
    pub nodes: u128,
    pub bound: Cost,
}

/// What is left behind the parts before: so many parts, nodes and ids.
#[derive(Clone, Copy)]
pub(crate) struct Left {
    pub parts: u128,
    pub nodes: u128,
    pub ids: u128,
}

/// The mark in front, and what stands behind it.
fn solved_mark_in(line: &[u8]) -> Option<(Mark, &[u8])>
    ensures { option_map (λ p. (p.0, p.1.now)) result ≡ solved_mark_in line.now }
{
    if let Some(rest) = behind(line, "solved optimal") {
        return Some((Mark::Optimal, rest));
    }
    let Some(rest) = behind(line, "solved open") else {
        return None;
    };
    Some((Mark::Open, rest))
}

/// How many choices, parts and nodes follow, behind the costs.
fn solved_counts_in(
    mark: Mark,
    cost: Cost,
    bound: Cost,
    line: &[u8],
) -> Option<(SolvedHeading, &[u8])>
    ensures { option_map (λ p. (p.0, p.1.now)) result ≡ solved_counts_in mark cost bound line.now }
{
    let Some((choices, rest)) = number_behind(line, " choices ") else {
        return None;
    };
    let Some((parts, rest)) = number_behind(rest, " parts ") else {
        return None;
    };
    let Some((nodes, rest)) = number_behind(rest, " nodes ") else {
        return None;
    };
    let heading = SolvedHeading {
        mark,
        cost,
        bound,
        choices,
        parts,
        nodes,
    };
    Some((heading, rest))
}

/// What stands behind the mark.
fn solved_costs_in(mark: Mark, line: &[u8]) -> Option<(SolvedHeading, &[u8])>
    ensures { option_map (λ p. (p.0, p.1.now)) result ≡ solved_costs_in mark line.now }
{
    let Some((cost, rest)) = number_behind(line, " cost ") else {
        return None;
    };
    let Some((bound, rest)) = number_behind(rest, " bound ") else {
        return None;
    };
    solved_counts_in(mark, cost, bound, rest)
}

/// What the first line of a plan by parts says. Without parts it has no nodes.
pub fn solved_heading_in(line: &[u8]) -> Option<SolvedHeading>
    ensures { result ≡ solved_heading_in line.now }
{
    let Some((mark, rest)) = solved_mark_in(line) else {
        return None;
    };
    match solved_costs_in(mark, rest) {
        Some((heading, [])) if heading.parts > 0 || heading.nodes == 0 => Some(heading),
        _ => None,
    }
}

/// How many arrivals and changes a share has.
fn part_ids_in(line: &[u8]) -> Option<((u128, u128), &[u8])>
    ensures { option_map (λ p. (p.0, p.1.now)) result ≡ part_ids_in line.now }
{
    let Some((arrivals, rest)) = number_behind(line, "part events ") else {
        return None;
    };
    let Some((changes, rest)) = number_behind(rest, " changes ") else {
        return None;
    };
    Some(((arrivals, changes), rest))
}

/// What stands behind the numbers of a share.
fn part_nodes_in(arrivals: u128, changes: u128, line: &[u8]) -> Option<(PartHeading, &[u8])>
    ensures { option_map (λ p. (p.0, p.1.now)) result ≡ part_nodes_in arrivals changes line.now }
{
    let Some((nodes, rest)) = number_behind(line, " nodes ") else {
        return None;
    };
    let Some((bound, rest)) = number_behind(rest, " bound ") else {
        return None;
    };
    let heading = PartHeading {
        arrivals,
        changes,
        nodes,
        bound,
    };
    Some((heading, rest))
}

/// Whether a part may be so where so much is left: it has some node, no more nodes and ids than are left, and the last part has
/// all nodes that are.
fn is_part_heading(left: Left, heading: PartHeading) -> bool
    ensures { result ≡ is_part_heading left.parts left.nodes left.ids heading }
{
    if heading.nodes == 0 || heading.nodes > left.nodes {
        return false;
    }
    if heading.arrivals > left.ids || heading.changes > left.ids - heading.arrivals {
        return false;
    }
    left.parts != 1 || heading.nodes == left.nodes
}

/// What the first line of a part says, where so much is left.
pub(crate) fn part_heading_in(left: Left, line: &[u8]) -> Option<PartHeading>
    ensures { result ≡ part_heading_in left.parts left.nodes left.ids line.now }
{
    let Some(((arrivals, changes), rest)) = part_ids_in(line) else {
        return None;
    };
    match part_nodes_in(arrivals, changes, rest) {
        Some((heading, [])) if is_part_heading(left, heading) => Some(heading),
        _ => None,
    }
}

/// A leaf or a cycle of a part, and what stands behind it.
fn part_leaf_in(line: &[u8]) -> Option<(PartNode, &[u8])>
    ensures { option_map (λ p. (p.0, p.1.now)) result ≡ part_leaf_in line.now }
{
    if let Some(rest) = behind(line, "cycle") {
        return Some((PartNode::Cycle, rest));
    }
    let Some((cost, rest)) = number_behind(line, "leaf ") else {
        return None;
    };
    Some((PartNode::Leaf(cost), rest))
}

/// A choice as a node of a part. No other node stands there.
fn inner(node: Node) -> Option<PartNode>
    ensures { result ≡ option_map (λ c. PartNode.Inner c) (choice_in node) }
{
    match node.choice() {
        Some(choice) => Some(PartNode::Inner(choice)),
        None => None,
    }
}

/// A node of a part in front, and what stands behind it.
fn part_node_in_front(line: &[u8]) -> Option<(PartNode, &[u8])>
    ensures { option_map (λ p. (p.0, p.1.now)) result ≡ part_node_in_front line.now }
{
    if let Some((node, rest)) = change_in(line) {
        let Some(node) = inner(node) else {
            return None;
        };
        return Some((node, rest));
    }
    if let Some((node, rest)) = pair_in(line) {
        let Some(node) = inner(node) else {
            return None;
        };
        return Some((node, rest));
    }
    part_leaf_in(line)
}

/// The node of a line of a part.
pub(crate) fn part_node_in(line: &[u8]) -> Option<PartNode>
    ensures { result ≡ part_node_in line.now }
{
    match part_node_in_front(line) {
        Some((node, [])) => Some(node),
        _ => None,
    }
}

/// The rest that a line says.
pub(crate) fn rest_in(line: &[u8]) -> Option<Cost>
    ensures { result ≡ rest_in line.now }
{
    match number_behind(line, "rest ") {
        Some((rest, [])) => Some(rest),
        _ => None,
    }
}
