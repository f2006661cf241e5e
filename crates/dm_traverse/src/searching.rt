//! A tree that is searched node by node in preorder.
ghost use Rattle.std.specs.Prelude.{◌≡◌, ◌∷◌, ◌++◌, ◌+◌, ◌⊎◌, ◌≤◌, [], length, reverse, List, IfOk, OnOk, None};
ghost use Rattle.dm_base.specs.declared.limits.TheConstants.{BUDGET};
ghost use Rattle.dm_network.specs.Start.{IsNetwork};
ghost use Rattle.dm_rows.specs.declared.messages.Decision.{Decision as DecisionValue};
ghost use Rattle.dm_rows.specs.Decide.{IsChoiceList};
ghost use Rattle.dm_tree.specs.declared.forms.Node.TheVariants.{Inner as InnerNode, Hole as HoleNode};
ghost use Rattle.dm_tree.specs.Trees.{choice_in};
ghost use Rattle.dm_rows.specs.Sides.{first_decision};
ghost use Rattle.dm_tree.specs.Pending.{pending};
ghost use Rattle.dm_traverse.specs.Finish.{IsKnown};
ghost use Rattle.dm_traverse.specs.Steps.{IsFoundThere};
ghost use Rattle.dm_traverse.specs.Inside.Searching.{AreBest, AreUsedUp, Keeps, IsSearched, IsStanding, IsCeiling, IsFound, KeepsLeaf, IsAdvanced};

use crate::Outcome;
use crate::walking::step_there;
use dm_base::{Cost, Items};
use dm_evaluate::Evaluator;
use dm_rows::{Choice, Decision};
use dm_task::{Guide, Hint, Task};
use dm_tree::{Node, turn_back};
use std::alloc::{AllocError, Global};
use std::marker::Model;

/// Choices that differ from the rows, and what the rows cost with them.
#[derive(Drop)]
pub(crate) struct Best {
    pub(crate) choices: Items<Decision>,
    pub(crate) cost: Cost,
}

/// The nodes of a tree in preorder, and the best choices so far.
#[derive(Drop)]
pub(crate) struct Standing {
    pub(crate) nodes: Vec<Node>,
    pub(crate) best: Best,
}

/// The first nodes of a tree in preorder, the path to the next one, and the nodes from there on, of which the next one stands
/// last.
#[derive(Drop)]
struct Search {
    nodes: Vec<Node>,
    path: Vec<Decision>,
    due: Vec<Node>,
}

/// A guide, and its nodes for the last of the nodes that are due.
#[derive(Drop)]
struct Hints<'g> {
    guide: &'g Guide,
    due: Vec<Option<usize>>,
}

/// An evaluator that is brought from path to path, each behind the base of a task. It is seen as the task.
pub(crate) struct Walker<'t> {
    pub(crate) task: Task<'t>,
    pub(crate) evaluator: Evaluator,
}

impl Drop for Walker<'_> {
    fn drop(self) {
        let Walker {
            task: _,
            evaluator: _,
        } = self;
    }
}

impl<'t> Model for Walker<'t> {
    ghost use Rattle.dm_task.specs.Tasks.{IsPosedTask, task_of};
    ghost use Rattle.dm_tree.specs.Plans.{Task as PlanTask};
    ghost use Rattle.dm_traverse.specs.Moving.{IsOver};

    ghost Value = { PlanTask };

    ghost view = { λ w. task_of w.task };

    ghost invariant = { λ w. IsPosedTask w.task × IsOver (task_of w.task) w.evaluator };
}

/// What is found at a leaf.
#[derive(Drop)]
pub(crate) enum Found {
    /// It is this leaf.
    Settled(Node),

    /// It costs as much as these choices, which are better than the best so far.
    Better(Best),

    /// It is this choice, with two holes below it.
    Split(Choice),
}

impl Search {
    /// Nothing is settled: the root is the next node.
    fn new(alloc: Global, nodes: Vec<Node>) -> Search
        ensures nodes { result.nodes.items ≡ [] }
        ensures path { result.path.items ≡ [] }
        ensures due { result.due.items ≡ reverse nodes.items }
    {
        let mut due = nodes;
        due.reverse();
        Search {
            nodes: Vec::new(alloc),
            path: Vec::new(alloc),
            due,
        }
    }

    /// Settles a choice and goes on to its first child.
    fn descend(&mut self, choice: Choice) -> Result<(), AllocError>
        ensures nodes { OnOk result (self.new.nodes.items ≡ self.old.nodes.items ++ InnerNode choice ∷ []) }
        ensures path { OnOk result (self.new.path.items ≡ self.old.path.items ++ first_decision choice ∷ []) }
        ensures due { self.new.due.items ≡ self.old.due.items }
    {
        self.nodes.push(Node::Inner(choice))?;
        self.path.push(choice.first())?;
        Ok(())
    }

    /// Settles a choice in place of a leaf, with two holes below it, and goes on to the first.
    fn split(&mut self, choice: Choice) -> Result<(), AllocError>
        ensures nodes { OnOk result (self.new.nodes.items ≡ self.old.nodes.items ++ InnerNode choice ∷ []) }
        ensures path { OnOk result (self.new.path.items ≡ self.old.path.items ++ first_decision choice ∷ []) }
        ensures due { OnOk result (self.new.due.items ≡ (self.old.due.items ++ HoleNode ∷ []) ++ HoleNode ∷ []) }
    {
        self.due.push(Node::Hole)?;
        self.due.push(Node::Hole)?;
        self.descend(choice)
    }

    /// Settles a leaf and goes on to the next node in preorder, if there is one.
    fn leave(&mut self, leaf: Node) -> Result<(), AllocError>
        ensures nodes { OnOk result (self.new.nodes.items ≡ self.old.nodes.items ++ leaf ∷ []) }
        ensures path { OnOk result ((pending self.old.path.items ≡ self.new.path.items ∷ pending self.new.path.items)
            ⊎ (pending self.old.path.items ≡ [])) }
        ensures due { self.new.due.items ≡ self.old.due.items }
    {
        self.nodes.push(leaf)?;
        match turn_back(&mut self.path) {
            Ok(_turned) => Ok(()),
            Err(fault) => Err(fault),
        }
    }
}

impl Hints<'_> {
    /// What the guide says of the node that stands next.
    fn next(&mut self) -> Option<Hint> {
        match self.due.pop() {
            Some(Some(node)) => self.guide.hint(node),
            _ => None,
        }
    }

    /// Goes on to the guide's children, where the search branches as it does, and else to none.
    fn branch(&mut self, hint: Option<Hint>, choice: Choice) -> Result<(), AllocError> {
        let below = match hint {
            Some(hint) if hint.choice == Some(choice) => hint.below,
            _ => None,
        };
        self.due.push(beside(below))?;
        self.due.push(below)?;
        Ok(())
    }
}

/// The guide's second child.
fn beside(below: Option<usize>) -> Option<usize> {
    match below {
        Some(node) => node.checked_add(1),
        None => None,
    }
}

impl Walker<'_> {
    /// Goes through a tree in preorder: each hole is searched, and each leaf below the limit while there is room for two nodes
    /// more.
    pub(crate) fn traverse(
        &mut self,
        standing: Standing,
        limit: Cost,
        guide: &Guide,
    ) -> Result<Standing, AllocError>
        requires stands { IsStanding self.old standing }
        ensures stands { IfOk result (IsStanding self.old) }
        ensures used { IfOk result (λ s. AreUsedUp self.old.budget limit s.nodes.items) }
        ensures no_dearer { IfOk result (λ s. s.best.cost ≤ standing.best.cost) }
        ensures kept { IfOk result (λ s. Keeps standing.nodes.items s.nodes.items) }
        ensures same { self.new ≡ self.old }
    {
        self.reveal();
        let alloc = self.task.alloc;
        let mut hints = Hints {
            guide,
            due: vec![in alloc; Some(0)]?,
        };
        let mut search = Search::new(alloc, standing.nodes);
        let best = self.search_all(&mut search, standing.best, limit, &mut hints)?;
        Ok(Standing {
            nodes: search.nodes,
            best,
        })
    }

    /// Settles each node that is due, and gives the best choices that are found on the way.
    fn search_all(
        &mut self,
        search: &mut Search,
        best: Best,
        limit: Cost,
        hints: &mut Hints<'_>,
    ) -> Result<Best, AllocError>
        requires best { AreBest self.old best.choices best.cost }
        requires search { IsSearched self.old limit best.cost
            search.old.nodes.items (reverse search.old.due.items) search.old.path.items }
        ensures best { IfOk result (λ b. AreBest self.old b.choices b.cost) }
        ensures search { IfOk result (λ b. IsSearched self.old limit b.cost search.new.nodes.items [] search.new.path.items) }
        ensures no_dearer { IfOk result (λ b. b.cost ≤ best.cost) }
        ensures kept { IfOk result (λ b. Keeps (search.old.nodes.items ++ reverse search.old.due.items) search.new.nodes.items) }
        ensures same { self.new ≡ self.old }
    {
        let mut now = best;
        while let Some(node) = search.due.pop() {
            now = self.advance(search, node, now, limit, hints)?;
        }
        Ok(now)
    }

    /// Settles the node that stands next.
    fn advance(
        &mut self,
        search: &mut Search,
        node: Node,
        best: Best,
        limit: Cost,
        hints: &mut Hints<'_>,
    ) -> Result<Best, AllocError>
        requires best { AreBest self.old best.choices best.cost }
        requires search { IsSearched self.old limit best.cost
            search.old.nodes.items (node ∷ reverse search.old.due.items) search.old.path.items }
        ensures advanced { IfOk result (IsAdvanced self.old limit (length search.old.nodes.items) best.cost
            search.new.nodes.items (reverse search.new.due.items) search.new.path.items) }
        ensures kept { IfOk result (λ b. Keeps (search.old.nodes.items ++ node ∷ reverse search.old.due.items)
            (search.new.nodes.items ++ reverse search.new.due.items)) }
        ensures same { self.new ≡ self.old }
    {
        self.reveal();
        let hint = hints.next();
        if let Some(choice) = node.choice() {
            hints.branch(hint, choice)?;
            search.descend(choice)?;
            return Ok(best);
        }
        let wanted = wanted_at(hint, limit, best.cost);
        let ceiling = ceiling_of(search, self.task.budget, limit, wanted);
        let path = search.path.as_slice();
        let found = self.found_at(path, node, best.cost, ceiling, hinted(hint))?;
        if let Found::Split(choice) = &found {
            hints.branch(hint, *choice)?;
        }
        self.place(search, node, best, limit, ceiling, found)
    }

    /// Settles what was found at the leaf that stands next.
    fn place(
        &self,
        search: &mut Search,
        leaf: Node,
        best: Best,
        limit: Cost,
        ceiling: Cost,
        found: Found,
    ) -> Result<Best, AllocError>
        requires ceiling { IsCeiling self.now.budget (length search.old.nodes.items + 1 + length search.old.due.items) limit ceiling }
        requires leaf { None ≡ choice_in leaf }
        requires found { IsFound self.now search.old.path.items best.cost ceiling found }
        requires stays { KeepsLeaf leaf found }
        requires best { AreBest self.now best.choices best.cost }
        requires search { IsSearched self.now limit best.cost
            search.old.nodes.items (leaf ∷ reverse search.old.due.items) search.old.path.items }
        ensures advanced { IfOk result (IsAdvanced self.now limit (length search.old.nodes.items) best.cost
            search.new.nodes.items (reverse search.new.due.items) search.new.path.items) }
        ensures kept { IfOk result (λ b. Keeps (search.old.nodes.items ++ leaf ∷ reverse search.old.due.items)
            (search.new.nodes.items ++ reverse search.new.due.items)) }
    {
        self.reveal();
        match found {
            Found::Settled(leaf) => {
                search.leave(leaf)?;
                Ok(best)
            }
            Found::Better(better) => {
                search.leave(Node::Bound(better.cost))?;
                Ok(better)
            }
            Found::Split(choice) => {
                search.split(choice)?;
                Ok(best)
            }
        }
    }

    /// What is true of every walker's task.
    fn reveal(&self)
        ensures network { IsNetwork self.now.net }
        ensures base { IsChoiceList self.now.net self.now.rows self.now.base }
    {
        self.task.net.reveal();
    }

    /// What a search does with a path, branching on the choice that it is hinted at where that one is violated.
    fn step_there(
        &mut self,
        path: &[Decision],
        best: Cost,
        hint: Option<Choice>,
    ) -> Result<Outcome, AllocError>
        requires { IsChoiceList self.old.net self.old.rows (self.old.base ++ path.now) }
        ensures outcome { IfOk result (IsFoundThere self.old.net self.old.rows (self.old.base ++ path.now) self.old.penalty best) }
        ensures same { self.new ≡ self.old }
    {
        step_there(&self.task, &mut self.evaluator, path, best, hint)
    }

    /// What is found at a leaf: at a hole, and at an open leaf below the ceiling, what one step finds.
    fn found_at(
        &mut self,
        path: &[Decision],
        leaf: Node,
        best: Cost,
        ceiling: Cost,
        hint: Option<Choice>,
    ) -> Result<Found, AllocError>
        requires list { IsChoiceList self.old.net self.old.rows (self.old.base ++ path.now) }
        requires leaf { choice_in leaf ≡ None }
        requires best { (choices : List DecisionValue) × AreBest self.old choices best }
        requires known { IsKnown self.old best path.now leaf }
        ensures found { IfOk result (IsFound self.old path.now best ceiling) }
        ensures stays { IfOk result (KeepsLeaf leaf) }
        ensures same { self.new ≡ self.old }
    {
        match leaf {
            Node::Hole => self.step_found(path, best, ceiling, hint),
            Node::Open(cost) if cost < ceiling => self.step_found(path, best, ceiling, hint),
            Node::Inner(_) | Node::Cycle | Node::Bound(_) | Node::Open(_) => {
                Ok(Found::Settled(leaf))
            }
        }
    }

    /// What one step finds at a path.
    fn step_found(
        &mut self,
        path: &[Decision],
        best: Cost,
        ceiling: Cost,
        hint: Option<Choice>,
    ) -> Result<Found, AllocError>
        requires list { IsChoiceList self.old.net self.old.rows (self.old.base ++ path.now) }
        requires best { (choices : List DecisionValue) × AreBest self.old choices best }
        ensures found { IfOk result (IsFound self.old path.now best ceiling) }
        ensures same { self.new ≡ self.old }
    {
        self.task.net.reveal();
        match self.step_there(path, best, hint)? {
            Outcome::Cycle => Ok(Found::Settled(Node::Cycle)),
            Outcome::Pruned(cost) => Ok(Found::Settled(Node::Bound(cost))),
            Outcome::Solved(cost, choices) => Ok(Found::Better(Best { choices, cost })),
            Outcome::Branch(cost, choice) => {
                if cost < ceiling {
                    Ok(Found::Split(choice))
                } else {
                    Ok(Found::Settled(Node::Open(cost)))
                }
            }
        }
    }
}

/// How little a leaf costs that is searched: where the guide has a choice there, each one that costs less than the best.
fn wanted_at(hint: Option<Hint>, limit: Cost, best: Cost) -> Cost
    ensures { limit ≤ result }
{
    match hint {
        Some(Hint { below: Some(_), .. }) => limit.max(best),
        _ => limit,
    }
}

/// The choice that the guide branches on, or knows to be violated.
fn hinted(hint: Option<Hint>) -> Option<Choice> {
    match hint {
        Some(hint) => hint.choice,
        None => None,
    }
}

/// How little a leaf costs that is searched where one node stands next: none is where two nodes more have no room.
fn ceiling_of(search: &Search, budget: u64, limit: Cost, wanted: Cost) -> Cost
    requires total { length search.now.nodes.items + 1 + length search.now.due.items ≤ BUDGET }
    requires wanted { limit ≤ wanted }
    ensures { IsCeiling budget (length search.now.nodes.items + 1 + length search.now.due.items) limit result }
{
    let total = (search.nodes.len() + 1 + search.due.len()) as u64;
    if total + 2 <= budget { wanted } else { 0 }
}
