//! The lines of a plan's text, each read from its front. Nothing here takes memory.
ghost use Rattle.std.specs.Prelude.{◌≡◌};
ghost use Rattle.std.specs.Option.{option_map};
ghost use Rattle.dm_feed.specs.Parts.{largest_id};
ghost use Rattle.dm_cert.specs.PlanTexts.{largest_cost};
ghost use Rattle.dm_cert.specs.PlansRead.{size_words};
ghost use Rattle.dm_cert.specs.Inside.PlanLines.{number_behind, first_in, decision_in, choice_in, mark_in, counts_in, costs_in, heading_in, leaf_in, leaf_behind, change_in, pair_in, node_in, bound_in, open_in, end_in, node_in_front};

use dm_base::{ActId, Cost, EventId};
use dm_rows::{Choice, Decision};
use dm_text::{behind, number_in_front};
use dm_tree::{Mark, Node};

/// The largest id of an event or an activity.
const LARGEST_ID: u128 = 4_294_967_295;

/// What a plan's first line says: with the costs how many lines of choices follow, and how many of the tree.
#[derive(Clone, Copy)]
pub struct Heading {
    pub mark: Mark,
    pub cost: Cost,
    pub bound: Cost,
    pub choices: u128,
    pub size: u128,
}

pub(crate) fn number_behind<'l>(line: &'l [u8], text: &str) -> Option<(u128, &'l [u8])>
    ensures { option_map (λ p. (p.0, p.1.now)) result ≡ number_behind largest_cost text.now line.now }
{
    let Some(rest) = behind(line, text) else {
        return None;
    };
    number_in_front(rest, u128::MAX)
}

pub(crate) fn id_behind<'l>(line: &'l [u8], text: &str) -> Option<(u32, &'l [u8])>
    ensures { option_map (λ p. (p.0, p.1.now)) result ≡ number_behind largest_id text.now line.now }
{
    let Some(rest) = behind(line, text) else {
        return None;
    };
    let Some((id, rest)) = number_in_front(rest, LARGEST_ID) else {
        return None;
    };
    Some((id as u32, rest))
}

/// Which event of a pair goes first.
fn first_in(line: &[u8]) -> Option<(Decision, &[u8])>
    ensures { option_map (λ p. (p.0, p.1.now)) result ≡ first_in line.now }
{
    let Some((first, rest)) = id_behind(line, " first ") else {
        return None;
    };
    let Some((second, rest)) = id_behind(rest, " ") else {
        return None;
    };
    Some((Decision::First(EventId(first), EventId(second)), rest))
}

/// The decision in front, and what stands behind it.
pub(crate) fn decision_in(line: &[u8]) -> Option<(Decision, &[u8])>
    ensures { option_map (λ p. (p.0, p.1.now)) result ≡ decision_in line.now }
{
    if let Some((act, rest)) = id_behind(line, " keep ") {
        return Some((Decision::Keep(ActId(act)), rest));
    }
    if let Some((act, rest)) = id_behind(line, " drop ") {
        return Some((Decision::Drop(ActId(act)), rest));
    }
    first_in(line)
}

/// The decision of a line of a plan's choices.
pub(crate) fn choice_in(line: &[u8]) -> Option<Decision>
    ensures { result ≡ choice_in line.now }
{
    let Some(rest) = behind(line, "choice") else {
        return None;
    };
    match decision_in(rest) {
        Some((decision, [])) => Some(decision),
        _ => None,
    }
}

/// The mark in front, and what stands behind it.
fn mark_in(line: &[u8]) -> Option<(Mark, &[u8])>
    ensures { option_map (λ p. (p.0, p.1.now)) result ≡ mark_in line.now }
{
    if let Some(rest) = behind(line, "plan optimal") {
        return Some((Mark::Optimal, rest));
    }
    let Some(rest) = behind(line, "plan open") else {
        return None;
    };
    Some((Mark::Open, rest))
}

/// What stands before the number of the tree's lines.
fn size_words(version: u32) -> &'static str
    ensures { result.now ≡ size_words version }
{
    if version == 1 { " leaves " } else { " nodes " }
}

/// How many lines of choices and of the tree follow, behind the costs.
fn counts_in(
    version: u32,
    mark: Mark,
    cost: Cost,
    bound: Cost,
    line: &[u8],
) -> Option<(Heading, &[u8])>
    ensures { option_map (λ p. (p.0, p.1.now)) result ≡ counts_in version mark cost bound line.now }
{
    let Some((choices, rest)) = number_behind(line, " choices ") else {
        return None;
    };
    let Some((size, rest)) = number_behind(rest, size_words(version)) else {
        return None;
    };
    let heading = Heading {
        mark,
        cost,
        bound,
        choices,
        size,
    };
    Some((heading, rest))
}

/// What stands behind the mark.
fn costs_in(version: u32, mark: Mark, line: &[u8]) -> Option<(Heading, &[u8])>
    ensures { option_map (λ p. (p.0, p.1.now)) result ≡ costs_in version mark line.now }
{
    let Some((cost, rest)) = number_behind(line, " cost ") else {
        return None;
    };
    let Some((bound, rest)) = number_behind(rest, " bound ") else {
        return None;
    };
    counts_in(version, mark, cost, bound, rest)
}

/// What a plan's first line says, in a version.
pub fn heading_in(version: u32, line: &[u8]) -> Option<Heading>
    ensures { result ≡ heading_in version line.now }
{
    let Some((mark, rest)) = mark_in(line) else {
        return None;
    };
    match costs_in(version, mark, rest) {
        Some((heading, [])) => Some(heading),
        _ => None,
    }
}

/// A bound leaf whose cost stands behind the text.
fn bound_in<'l>(line: &'l [u8], text: &str) -> Option<(Node, &'l [u8])>
    ensures { option_map (λ p. (p.0, p.1.now)) result ≡ bound_in text.now line.now }
{
    let Some((cost, rest)) = number_behind(line, text) else {
        return None;
    };
    Some((Node::Bound(cost), rest))
}

/// An open leaf whose cost stands behind the text.
fn open_in<'l>(line: &'l [u8], text: &str) -> Option<(Node, &'l [u8])>
    ensures { option_map (λ p. (p.0, p.1.now)) result ≡ open_in text.now line.now }
{
    let Some((cost, rest)) = number_behind(line, text) else {
        return None;
    };
    Some((Node::Open(cost), rest))
}

/// A leaf behind the words of its kind, and what stands behind it.
fn leaf_behind<'l>(
    line: &'l [u8],
    cycle: &str,
    bound: &str,
    opened: &str,
) -> Option<(Node, &'l [u8])>
    ensures { option_map (λ p. (p.0, p.1.now)) result ≡ leaf_behind cycle.now bound.now opened.now line.now }
{
    if let Some(rest) = behind(line, cycle) {
        return Some((Node::Cycle, rest));
    }
    if let Some((node, rest)) = bound_in(line, bound) {
        return Some((node, rest));
    }
    open_in(line, opened)
}

/// A leaf without its path, and what stands behind it.
pub(crate) fn leaf_in(line: &[u8]) -> Option<(Node, &[u8])>
    ensures { option_map (λ p. (p.0, p.1.now)) result ≡ leaf_in line.now }
{
    leaf_behind(line, "leaf cycle", "leaf bound ", "leaf open ")
}

/// A choice whether to keep a change.
pub(crate) fn change_in(line: &[u8]) -> Option<(Node, &[u8])>
    ensures { option_map (λ p. (p.0, p.1.now)) result ≡ change_in line.now }
{
    let Some((act, rest)) = id_behind(line, "inner change ") else {
        return None;
    };
    Some((Node::Inner(Choice::Change(ActId(act))), rest))
}

/// A choice which event of a pair goes first. The smaller id stands first.
pub(crate) fn pair_in(line: &[u8]) -> Option<(Node, &[u8])>
    ensures { option_map (λ p. (p.0, p.1.now)) result ≡ pair_in line.now }
{
    let Some((small, rest)) = id_behind(line, "inner pair ") else {
        return None;
    };
    let Some((large, rest)) = id_behind(rest, " ") else {
        return None;
    };
    if small < large {
        Some((
            Node::Inner(Choice::Pair(EventId(small), EventId(large))),
            rest,
        ))
    } else {
        None
    }
}

/// A leaf of version 2, and what stands behind it.
fn end_in(line: &[u8]) -> Option<(Node, &[u8])>
    ensures { option_map (λ p. (p.0, p.1.now)) result ≡ end_in line.now }
{
    leaf_behind(line, "cycle", "bound ", "open ")
}

/// A node in front, and what stands behind it.
fn node_in_front(line: &[u8]) -> Option<(Node, &[u8])>
    ensures { option_map (λ p. (p.0, p.1.now)) result ≡ node_in_front line.now }
{
    if let Some((node, rest)) = change_in(line) {
        return Some((node, rest));
    }
    if let Some((node, rest)) = pair_in(line) {
        return Some((node, rest));
    }
    end_in(line)
}

/// The node of a line of version 2.
pub(crate) fn node_in(line: &[u8]) -> Option<Node>
    ensures { result ≡ node_in line.now }
{
    match node_in_front(line) {
        Some((node, [])) => Some(node),
        _ => None,
    }
}
