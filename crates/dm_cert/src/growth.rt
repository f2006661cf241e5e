//! Trees that grow from their leaves in preorder.
ghost use Rattle.dm_tree.specs.declared.forms.Leaf.{Leaf as LeafValue};
ghost use Rattle.dm_rows.specs.declared.messages.Decision.{Decision as DecisionValue};
ghost use Rattle.std.specs.Prelude.{◌≡◌, ◌∷◌, ◌++◌, ◌<◌, [], List, IfOk, OnOk, MatchBool, MatchOption, false, true};
ghost use Rattle.dm_tree.specs.Pending.{pending};
ghost use Rattle.dm_cert.specs.PlansRead.{IsSpelledLeaf};
ghost use Rattle.dm_cert.specs.Inside.Growing.{Grows, IsBroken, IsDown, IsGrown};

use dm_rows::Decision;
use dm_tree::{Leaf, Node, turn_back};
use std::alloc::{AllocError, Global};

/// How far a tree has grown.
#[derive(Clone, Copy)]
pub enum Stage {
    /// The next leaf is due at the path or below it.
    Due,

    /// Every place has its node.
    Whole,

    /// No tree has these leaves in this order.
    Broken,
}

/// The nodes of a tree of which the first leaves were given, in preorder, and the path to the place that is due.
#[derive(Drop)]
pub(crate) struct Growth {
    pub(crate) nodes: Vec<Node>,
    pub(crate) path: Vec<Decision>,
    pub(crate) stage: Stage,
}

/// What the path goes on with behind another one.
fn behind_path<'l>(whole: &'l [Decision], path: &[Decision]) -> Option<&'l [Decision]>
    ensures { MatchOption result
        ((tail : List DecisionValue) → whole.now ≡ path.now ++ tail → ⊥)
        (λ tail. whole.now ≡ path.now ++ tail.now) }
{
    if whole.len() < path.len() {
        return None;
    }
    for (i, decision) in path.iter().enumerate() {
        if !whole[i].is_same(*decision) {
            return None;
        }
    }
    Some(&whole[path.len()..])
}

/// Goes down along these decisions, each of which is that of a first child; it is false where one is not.
fn descend(
    nodes: &mut Vec<Node>,
    path: &mut Vec<Decision>,
    tail: &[Decision],
) -> Result<bool, AllocError>
    ensures { (read : List LeafValue) (l : LeafValue) → l.path ≡ path.old.items ++ tail.now →
        IsGrown read (l ∷ []) nodes.old.items (path.old.items ∷ pending path.old.items) →
        IfOk result (λ all. MatchBool all (IsDown read l nodes.new.items path.new.items) (IsBroken (read ++ l ∷ []))) }
{
    for decision in tail {
        if !decision.is_first() {
            return Ok(false);
        }
        nodes.push(Node::Inner(decision.choice()))?;
        path.push(*decision)?;
    }
    Ok(true)
}

impl Growth {
    /// No node yet: the root is due.
    pub(crate) fn new(alloc: Global) -> Growth
        ensures { Grows [] result.nodes.items result.path.items result.stage }
    {
        Growth {
            nodes: Vec::new(alloc),
            path: Vec::new(alloc),
            stage: Stage::Due,
        }
    }

    /// Takes the next leaf.
    pub(crate) fn add(&mut self, leaf: &Leaf) -> Result<(), AllocError>
        requires { IsSpelledLeaf leaf.now.node }
        ensures { (read : List LeafValue) → Grows read self.old.nodes.items self.old.path.items self.old.stage →
            OnOk result (Grows (read ++ leaf.now ∷ []) self.new.nodes.items self.new.path.items self.new.stage) }
    {
        match self.stage {
            Stage::Due => {
                let Ok(stage) = add_below(&mut self.nodes, &mut self.path, leaf) else {
                    return Err(AllocError);
                };
                self.stage = stage;
            }
            Stage::Whole => self.stage = Stage::Broken,
            Stage::Broken => self.stage = Stage::Broken,
        }
        Ok(())
    }
}

/// Takes the next leaf, which should stand at the path or below.
fn add_below(
    nodes: &mut Vec<Node>,
    path: &mut Vec<Decision>,
    leaf: &Leaf,
) -> Result<Stage, AllocError>
    requires { IsSpelledLeaf leaf.now.node }
    ensures { (read : List LeafValue) → IsGrown read [] nodes.old.items (path.old.items ∷ pending path.old.items) →
        IfOk result (λ stage. Grows (read ++ leaf.now ∷ []) nodes.new.items path.new.items stage) }
{
    let Some(tail) = behind_path(leaf.path.as_slice(), path) else {
        return Ok(Stage::Broken);
    };
    let Ok(down) = descend(nodes, path, tail) else {
        return Err(AllocError);
    };
    if !down {
        return Ok(Stage::Broken);
    }
    let Ok(()) = nodes.push(leaf.node) else {
        return Err(AllocError);
    };
    match turn_back(path) {
        Ok(true) => Ok(Stage::Due),
        Ok(false) => Ok(Stage::Whole),
        Err(_) => Err(AllocError),
    }
}
