//! One part of all terms, with the tree of a plan.
ghost use Rattle.std.specs.Prelude.{◌≡◌, ◌<◌, ◌≤◌, length, map, IfOk};
ghost use Rattle.dm_part_bounds.specs.OnePart.{all_terms, arrives, changes, part_node};
ghost use Rattle.dm_part_plans.specs.Terms.{terms_of};

use dm_base::{ActId, ActKind, EventId, EventKind, Items};
use dm_network::Network;
use dm_parts::{Part, PartNode, Share};
use dm_tree::{Node, Plan};
use std::alloc::{AllocError, Global};

/// The part of all terms with a plan's tree and bound. A leaf of the tree carries what it costs, whether or not that closes it.
pub(crate) fn one_part(alloc: Global, net: &Network, plan: &Plan) -> Result<Part, AllocError>
    ensures share { IfOk result (λ part. part.share ≡ all_terms net.now) }
    ensures tree { IfOk result (λ part. part.tree ≡ map part_node plan.now.tree) }
    ensures bound { IfOk result (λ part. part.bound ≡ plan.now.bound) }
{
    let arrivals = all_arrivals(alloc, net)?;
    let changes = all_changes(alloc, net)?;
    let tree = part_nodes(alloc, plan.tree.as_slice())?;
    Ok(Part {
        share: Share {
            arrivals: Items::from_vec(arrivals),
            changes: Items::from_vec(changes),
        },
        tree: Items::from_vec(tree),
        bound: plan.bound,
    })
}

/// How many terms the cost has: arrivals and changes.
pub(crate) fn terms_in(net: &Network) -> u64
    ensures { result ≡ terms_of net.now }
{
    net.reveal();
    count_of_arrivals(net) + count_of_changes(net)
}

fn count_of_arrivals(net: &Network) -> u64
    ensures count { result ≡ length (all_terms net.now).arrivals }
    ensures limit { result ≤ length net.now.events }
{
    let mut count = 0;
    for i in 0..net.events() {
        if arrives(net, i) {
            count += 1;
        }
    }
    count
}

fn count_of_changes(net: &Network) -> u64
    ensures count { result ≡ length (all_terms net.now).changes }
    ensures limit { result ≤ length net.now.activities }
{
    let mut count = 0;
    for a in 0..net.activities() {
        if changes(net, a) {
            count += 1;
        }
    }
    count
}

fn all_arrivals(alloc: Global, net: &Network) -> Result<Vec<EventId>, AllocError>
    ensures { IfOk result (λ ids. ids.items ≡ (all_terms net.now).arrivals) }
{
    let mut ids = Vec::new(alloc);
    for i in 0..net.events() {
        if arrives(net, i) {
            ids.push(net.event(i).id)?;
        }
    }
    Ok(ids)
}

fn arrives(net: &Network, i: usize) -> bool
    requires { i < length net.now.events }
    ensures { result ≡ arrives net.now i }
{
    match net.event(i).kind {
        EventKind::Arrival => true,
        EventKind::Departure => false,
    }
}

fn all_changes(alloc: Global, net: &Network) -> Result<Vec<ActId>, AllocError>
    ensures { IfOk result (λ ids. ids.items ≡ (all_terms net.now).changes) }
{
    let mut ids = Vec::new(alloc);
    for a in 0..net.activities() {
        if changes(net, a) {
            ids.push(net.activity(a).id)?;
        }
    }
    Ok(ids)
}

fn changes(net: &Network, a: usize) -> bool
    requires { a < length net.now.activities }
    ensures { result ≡ changes net.now a }
{
    match net.activity(a).kind {
        ActKind::Change => true,
        ActKind::Drive | ActKind::Wait | ActKind::Turnaround | ActKind::Headway => false,
    }
}

fn part_nodes(alloc: Global, nodes: &[Node]) -> Result<Vec<PartNode>, AllocError>
    ensures { IfOk result (λ all. all.items ≡ map part_node nodes.now) }
{
    let mut all = Vec::new(alloc);
    for node in nodes {
        all.push(part_node(*node))?;
    }
    Ok(all)
}

fn part_node(node: Node) -> PartNode
    ensures { result ≡ part_node node }
{
    match node {
        Node::Inner(choice) => PartNode::Inner(choice),
        Node::Bound(cost) | Node::Open(cost) => PartNode::Leaf(cost),
        Node::Cycle | Node::Hole => PartNode::Cycle,
    }
}
