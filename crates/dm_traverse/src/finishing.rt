//! A search that ends with a true plan.
ghost use Rattle.std.specs.Prelude.{◌≡◌, ◌+◌, ◌<◌, ◌≤◌, [], IfOk, MatchBool, length, map};
ghost use Rattle.std.specs.List.{list_any};
ghost use Rattle.dm_base.specs.declared.limits.TheConstants.{PENALTY, BUDGET};
ghost use Rattle.dm_evaluate.specs.Evaluator.{IsEvaluatorOf};
ghost use Rattle.dm_task.specs.Tasks.{IsPosedTask, task_of};
ghost use Rattle.dm_rows.specs.Rows.{IsSized};
ghost use Rattle.dm_rows.specs.Active.{HasNoCycle};
ghost use Rattle.dm_rows.specs.Cost.{Costs};
ghost use Rattle.dm_tree.specs.Plans.{whole_task, CostsWith, IsTruePlan};
ghost use Rattle.dm_traverse.specs.Finish.{IsStart, GoesOnFrom};
ghost use Rattle.dm_traverse.specs.Inside.Searching.{AreBest, AreUsedUp, Keeps, IsStanding};
ghost use Rattle.dm_traverse.specs.Moving.{IsOver};
ghost use Rattle.dm_traverse.specs.Inside.Ending.{closed, carried, least_with, bound_of, is_open, mark_of, IsPlanOf};

use crate::Outcome;
use crate::searching::{Best, Standing, Walker};
use crate::walking::{behind, make, outcome_here};
use dm_base::{Cost, Items};
use dm_evaluate::Evaluator;
use dm_network::Network;
use dm_rows::{Decision, Rows};
use dm_task::{Guide, Task};
use dm_tree::{Mark, Node, Partial, Plan, Tree, assemble};
use std::alloc::{AllocError, Global};

/// How often a tree is gone through before the limit is lifted.
const TRAVERSALS: usize = 256;

/// The task of a whole network: no choice stands before the search.
pub fn whole<'t>(
    alloc: Global,
    net: &'t Network,
    rows: &'t Rows,
    penalty: u64,
    budget: u64,
) -> Task<'t>
    requires sized { IsSized net.now rows.now }
    requires penalty { penalty ≤ PENALTY }
    requires budget { budget ≤ BUDGET }
    ensures posed { IsPosedTask result }
    ensures task { task_of result ≡ whole_task net.now rows.now penalty budget }
{
    Task {
        alloc,
        net,
        rows,
        penalty,
        base: &[],
        budget,
    }
}

/// A true plan for a task, with an entry, by an evaluator of the task and by what a guide says. The rows have no cycle, and cost so
/// much by themselves. The budget is at least 1. It is what is made of a tree of one hole and no choices.
pub fn plan_with(
    task: &Task<'_>,
    entry: u32,
    own: Cost,
    evaluator: Evaluator,
    guide: &Guide,
) -> Result<Plan, AllocError>
    requires posed { IsPosedTask task.now }
    requires no_cycle { HasNoCycle task.now.net.now task.now.rows.now }
    requires some { 1 ≤ task.now.budget }
    requires own { Costs task.now.net.now task.now.rows.now task.now.penalty own }
    requires evaluator { IsOver (task_of task.now) evaluator }
    ensures plan { IfOk result (IsTruePlan (task_of task.now)) }
    ensures entry { IfOk result (λ plan. plan.entry ≡ entry) }
{
    let standing = standing_at_hole(task, own)?;
    finish_standing(task, entry, standing, evaluator, guide)
}

/// The tree of one hole and no choices, with which the rows cost so much.
fn standing_at_hole(task: &Task<'_>, own: Cost) -> Result<Standing, AllocError>
    requires posed { IsPosedTask task.now }
    requires no_cycle { HasNoCycle task.now.net.now task.now.rows.now }
    requires some { 1 ≤ task.now.budget }
    requires own { Costs task.now.net.now task.now.rows.now task.now.penalty own }
    ensures { IfOk result (IsStanding (task_of task.now)) }
{
    task.net.reveal();
    // No leaves are those of a tree, so that only memory may be missing.
    let Ok(unsearched) = assemble(task.alloc, Vec::new(task.alloc)) else {
        return Err(AllocError);
    };
    let nodes = Vec::from_slice(task.alloc, unsearched.as_slice())?;
    let nothing = Vec::new(task.alloc);
    let choices = Items::from_vec(nothing);
    let best = Best { choices, cost: own };
    Ok(Standing { nodes, best })
}

/// A true plan for a task, with an entry and a tree of at most `budget` nodes, from a tree and choices that cost so much, by an
/// evaluator of the task and by what a guide says. It searches each hole of the tree that it is given, and each open leaf while there
/// is room for two nodes more: first those that cost least.
pub fn finish_with(
    task: &Task<'_>,
    entry: u32,
    partial: Partial,
    best: Vec<Decision>,
    cost: Cost,
    evaluator: Evaluator,
    guide: &Guide,
) -> Result<Plan, AllocError>
    requires posed { IsPosedTask task.now }
    requires start { IsStart (task_of task.now) partial best.items }
    requires costs { CostsWith (task_of task.now) best.items cost }
    requires evaluator { IsOver (task_of task.now) evaluator }
    ensures plan { IfOk result (IsTruePlan (task_of task.now)) }
    ensures entry { IfOk result (λ plan. plan.entry ≡ entry) }
    ensures cost { IfOk result (λ plan. plan.cost ≤ cost) }
    ensures goes_on { IfOk result (λ plan. GoesOnFrom partial plan.tree) }
{
    let standing = standing_with(task, partial, best, cost)?;
    finish_standing(task, entry, standing, evaluator, guide)
}

/// A tree and choices that cost so much.
fn standing_with(
    task: &Task<'_>,
    partial: Partial,
    best: Vec<Decision>,
    cost: Cost,
) -> Result<Standing, AllocError>
    requires posed { IsPosedTask task.now }
    requires start { IsStart (task_of task.now) partial best.items }
    requires costs { CostsWith (task_of task.now) best.items cost }
    ensures stands { IfOk result (IsStanding (task_of task.now)) }
    ensures cost { IfOk result (λ s. s.best.cost ≡ cost) }
    ensures nodes { IfOk result (λ s. s.nodes.items ≡ partial) }
{
    task.net.reveal();
    let choices = Items::from_vec(best);
    let nodes = Vec::from_slice(task.alloc, partial.as_slice())?;
    let best = Best { choices, cost };
    Ok(Standing { nodes, best })
}

/// The plan of a tree and choices that stand, when all has been searched.
fn finish_standing(
    task: &Task<'_>,
    entry: u32,
    standing: Standing,
    evaluator: Evaluator,
    guide: &Guide,
) -> Result<Plan, AllocError>
    requires posed { IsPosedTask task.now }
    requires stands { IsStanding (task_of task.now) standing }
    requires evaluator { IsOver (task_of task.now) evaluator }
    ensures plan { IfOk result (IsTruePlan (task_of task.now)) }
    ensures entry { IfOk result (λ plan. plan.entry ≡ entry) }
    ensures cost { IfOk result (λ plan. plan.cost ≤ standing.best.cost) }
    ensures goes_on { IfOk result (λ plan. GoesOnFrom standing.nodes.items plan.tree) }
{
    task.net.reveal();
    let mut walker = Walker {
        task: *task,
        evaluator,
    };
    let searched = walker.search_with(standing, guide)?;
    plan_of(task.alloc, entry, searched)
}

impl Walker<'_> {
    /// Searches a tree until each open leaf that costs less than the best choices is one for which there is no room.
    fn search_with(&mut self, standing: Standing, guide: &Guide) -> Result<Standing, AllocError>
        requires { IsStanding self.old standing }
        ensures stands { IfOk result (IsStanding self.old) }
        ensures used { IfOk result (λ s. AreUsedUp self.old.budget s.best.cost s.nodes.items) }
        ensures no_dearer { IfOk result (λ s. s.best.cost ≤ standing.best.cost) }
        ensures kept { IfOk result (λ s. Keeps standing.nodes.items s.nodes.items) }
    {
        let path = behind(guide.path.as_slice(), self.task.base.len());
        let improved = self.improve(standing, path)?;
        let guided = self.traverse(improved, 0, guide)?;
        let spread = self.traverse_all(guided)?;
        self.last_traversal(spread)
    }

    /// The tree with the choices to which a path leads, where they cost less.
    fn improve(&mut self, standing: Standing, path: &[Decision]) -> Result<Standing, AllocError>
        requires { IsStanding self.old standing }
        ensures stands { IfOk result (IsStanding self.old) }
        ensures no_dearer { IfOk result (λ s. s.best.cost ≤ standing.best.cost) }
        ensures kept { IfOk result (λ s. Keeps standing.nodes.items s.nodes.items) }
        ensures same { self.new ≡ self.old }
    {
        let Standing { nodes, best } = standing;
        let better = self.better(path, best)?;
        Ok(Standing {
            nodes,
            best: better,
        })
    }

    /// The choices to which a path leads, where they cost less.
    fn better(&mut self, path: &[Decision], best: Best) -> Result<Best, AllocError>
        requires best { AreBest self.old best.choices best.cost }
        ensures best { IfOk result (λ b. AreBest self.old b.choices b.cost) }
        ensures no_dearer { IfOk result (λ b. b.cost ≤ best.cost) }
        ensures same { self.new ≡ self.old }
    {
        if path.is_empty() {
            return Ok(best);
        }
        for decision in path {
            if !self.make(*decision) {
                return Ok(best);
            }
        }
        solved_at(&self.task, &mut self.evaluator, best)
    }

    /// Makes a decision more, where its choice is open and it makes no cycle.
    fn make(&mut self, decision: Decision) -> bool
        ensures { self.new ≡ self.old }
    {
        make(self.task.net, &mut self.evaluator, decision)
    }

    /// Goes through the tree with a limit that rises from the least cost of an open leaf, so that the budget is spent where least
    /// is known.
    fn traverse_all(&mut self, standing: Standing) -> Result<Standing, AllocError>
        requires { IsStanding self.old standing }
        ensures stands { IfOk result (IsStanding self.old) }
        ensures no_dearer { IfOk result (λ s. s.best.cost ≤ standing.best.cost) }
        ensures kept { IfOk result (λ s. Keeps standing.nodes.items s.nodes.items) }
        ensures same { self.new ≡ self.old }
    {
        let guide = Guide::new(self.task.alloc);
        let mut standing = standing;
        for _ in 0..TRAVERSALS {
            let best = standing.best.cost;
            let Some(limit) = next_limit(&standing.nodes, best, self.task.budget) else {
                return Ok(standing);
            };
            standing = self.traverse(standing, limit, &guide)?;
        }
        Ok(standing)
    }

    /// Goes through the tree with no limit but the cost of the best choices, where there is room for two nodes more.
    fn last_traversal(&mut self, standing: Standing) -> Result<Standing, AllocError>
        requires { IsStanding self.old standing }
        ensures stands { IfOk result (IsStanding self.old) }
        ensures no_dearer { IfOk result (λ s. s.best.cost ≤ standing.best.cost) }
        ensures kept { IfOk result (λ s. Keeps standing.nodes.items s.nodes.items) }
        ensures used { IfOk result (λ s. AreUsedUp self.old.budget s.best.cost s.nodes.items) }
    {
        let limit = standing.best.cost;
        if !has_room(&standing.nodes, self.task.budget) {
            return Ok(standing);
        }
        let guide = Guide::new(self.task.alloc);
        let searched = self.traverse(standing, limit, &guide)?;
        Ok(searched)
    }
}

/// The evaluator of a task's rows, which have no cycle.
pub(crate) fn evaluator_of(task: &Task<'_>) -> Result<Evaluator, AllocError>
    requires posed { IsPosedTask task.now }
    ensures evaluator { IfOk result (IsEvaluatorOf task.now.net.now) }
    ensures rows { IfOk result (λ evaluator. evaluator.rows ≡ task.now.rows.now) }
    ensures path { IfOk result (λ evaluator. evaluator.path ≡ []) }
{
    let rows = task.rows.copy()?;
    // What binds at the root has no cycle where the rows have none, so that only memory may be missing.
    match Evaluator::new(task.alloc, task.net, rows) {
        Ok(evaluator) => Ok(evaluator),
        Err(_no_times) => Err(AllocError),
    }
}

/// The choices of the completion where the evaluator stands, if nothing is violated there and they cost less than the best.
fn solved_at(task: &Task<'_>, evaluator: &mut Evaluator, best: Best) -> Result<Best, AllocError>
    requires posed { IsPosedTask task.now }
    requires evaluator { IsOver (task_of task.now) evaluator.old }
    requires best { AreBest (task_of task.now) best.choices best.cost }
    ensures best { IfOk result (λ b. AreBest (task_of task.now) b.choices b.cost) }
    ensures no_dearer { IfOk result (λ b. b.cost ≤ best.cost) }
    ensures evaluator { IsOver (task_of task.now) evaluator.new }
{
    task.net.reveal();
    let outcome = outcome_here(task, evaluator, best.cost, None)?;
    match outcome {
        Outcome::Solved(cost, choices) => Ok(Best { choices, cost }),
        Outcome::Cycle | Outcome::Pruned(_) | Outcome::Branch(_, _) => Ok(best),
    }
}

/// The limit of the next traversal: a sixteenth of the way from the least cost of an open leaf up to the best cost; 0 where there
/// are holes, of which the costs are not known yet; and None where no open leaf costs less or two nodes more have no room.
fn next_limit(nodes: &[Node], best: Cost, budget: u64) -> Option<Cost> {
    if nodes.iter().any(|node| matches!(node, Node::Hole)) {
        return Some(0);
    }
    let low = least_open(nodes, best);
    if low < best && has_room(nodes, budget) {
        Some(low + (best - low) / 16 + 1)
    } else {
        None
    }
}

/// Whether a tree of these nodes has room for two more.
fn has_room(nodes: &[Node], budget: u64) -> bool
    ensures { MatchBool result (length nodes.now + 2 ≤ budget) (budget < length nodes.now + 2) }
{
    nodes.len() as u128 + 2 <= budget as u128
}

/// The least cost of an open leaf, or that of the best choices where none costs less.
fn least_open(nodes: &[Node], best: Cost) -> Cost
    ensures { result ≤ best }
{
    let mut low = best;
    for node in nodes {
        low = lower(low, *node);
    }
    low
}

fn lower(low: Cost, node: Node) -> Cost
    ensures { result ≤ low }
{
    match node {
        Node::Open(cost) => low.min(cost),
        Node::Inner(_) | Node::Cycle | Node::Bound(_) | Node::Hole => low,
    }
}

/// The plan with these choices and nodes.
fn plan_of(alloc: Global, entry: u32, standing: Standing) -> Result<Plan, AllocError>
    ensures { IfOk result (IsPlanOf entry standing.nodes.items standing.best.choices standing.best.cost) }
{
    let Standing { nodes, best } = standing;
    let closed = closed_nodes(alloc, &nodes, best.cost)?;
    let bound = bound_of(&closed, best.cost);
    let mark = mark_of(&closed);
    // Settled nodes are a whole tree, so that only memory may be missing.
    let Ok(tree) = Tree::from_nodes(alloc, closed) else {
        return Err(AllocError);
    };
    Ok(Plan {
        entry,
        choices: best.choices,
        cost: best.cost,
        bound,
        mark,
        tree,
    })
}

/// The nodes, with a bound for each open leaf that costs no less than the best choices.
fn closed_nodes(alloc: Global, nodes: &[Node], best: Cost) -> Result<Vec<Node>, AllocError>
    ensures { IfOk result (λ ns. ns.items ≡ map (closed best) nodes.now) }
{
    let mut all = Vec::new(alloc);
    for node in nodes {
        all.push(closed(*node, best))?;
    }
    Ok(all)
}

fn closed(node: Node, best: Cost) -> Node
    ensures { result ≡ closed best node }
{
    match node {
        Node::Open(cost) if best <= cost => Node::Bound(cost),
        Node::Inner(_) | Node::Cycle | Node::Bound(_) | Node::Open(_) | Node::Hole => node,
    }
}

/// The least cost that a leaf carries, or that of the best choices where no leaf carries less.
fn bound_of(nodes: &[Node], best: Cost) -> Cost
    ensures { result ≡ bound_of best nodes.now }
{
    let mut bound = best;
    for node in nodes {
        bound = least_with(bound, *node);
    }
    bound
}

/// The lesser of a bound and what a leaf carries.
fn least_with(bound: Cost, node: Node) -> Cost
    ensures { result ≡ least_with bound (carried node) }
{
    match node {
        Node::Bound(cost) | Node::Open(cost) => bound.min(cost),
        Node::Inner(_) | Node::Cycle | Node::Hole => bound,
    }
}

/// Open where some leaf is left open.
fn mark_of(nodes: &[Node]) -> Mark
    ensures { result ≡ mark_of nodes.now }
{
    if some_open(nodes) {
        Mark::Open
    } else {
        Mark::Optimal
    }
}

fn some_open(nodes: &[Node]) -> bool
    ensures { result ≡ list_any is_open nodes.now }
{
    nodes.iter().any(|node| is_open(*node))
}

fn is_open(node: Node) -> bool
    ensures { result ≡ is_open node }
{
    matches!(node, Node::Open(_))
}
