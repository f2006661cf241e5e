//! Plans printed in version 2. Nothing here takes memory.
ghost use Rattle.std.specs.Prelude.{◌≤◌, ◌∷◌, [], codes, All, OnOk};
ghost use Rattle.std.specs.Fmt.{decimal};
ghost use Rattle.std.specs.List.{flat_map};
ghost use Rattle.dm_outside.specs.Printing.{Prints, Puts, joined};
ghost use Rattle.dm_cert.specs.PlanTexts.{choice_text, node_text, plan_heading, spelling_of_plan, largest_cost, FitsDecision, FitsNode, FitsPlan};

use crate::listed::{Listed, put_listed};
use crate::plan_lines::{choice_in, node_in};
use dm_outside::{Page, Piece, Sink, WriteFault};
use dm_rows::{Choice, Decision};
use dm_tree::{Mark, Node, Plan};

// Prints what a plan is and how many lines follow.
#[tactic(auto, unfolding(crate::specs::PlanTexts::plan_heading))]
fn put_heading<K: Sink>(sink: &mut K, page: &mut Page, plan: &Plan) -> Result<(), WriteFault>
    ensures text { Prints K.taken K.faults sink.old sink.new page.old page.new result (plan_heading 2 plan.now) }
    ensures cost { plan.now.cost ≤ largest_cost }
    ensures bound { plan.now.bound ≤ largest_cost }
{
    let (cost, bound) = (plan.cost, plan.bound);
    let mark = match plan.mark {
        Mark::Optimal => "plan optimal cost ",
        Mark::Open => "plan open cost ",
    };
    let pieces = [
        Piece::Text(mark),
        Piece::Number(cost),
        Piece::Text(" bound "),
        Piece::Number(bound),
        Piece::Text(" choices "),
        Piece::Number(plan.choices.as_slice().len() as u128),
        Piece::Text(" nodes "),
        Piece::Number(plan.tree.as_slice().len() as u128),
        Piece::Text("\n"),
    ];
    page.put(sink, &pieces)
}

impl Listed for Decision {
    ghost use Rattle.dm_cert.specs.PlansRead.{IsChoiceLine};

    ghost text = { choice_text };

    ghost is_within = { FitsDecision };

    ghost is_line = { IsChoiceLine };

    #[tactic(auto, unfolding(crate::specs::PlanTexts::choice_text))]
    fn put<K: Sink>(self, sink: &mut K, page: &mut Page) -> Result<(), WriteFault> {
        match self {
            Decision::Keep(act) => put_number(sink, page, "choice keep ", act.0 as u128),
            Decision::Drop(act) => put_number(sink, page, "choice drop ", act.0 as u128),
            Decision::First(first, second) => put_numbers(
                sink,
                page,
                "choice first ",
                first.0 as u128,
                second.0 as u128,
            ),
        }
    }

    fn read(line: &[u8]) -> Option<Decision> {
        choice_in(line)
    }
}

impl Listed for Node {
    ghost use Rattle.dm_cert.specs.PlansRead.{IsNodeLine};

    ghost text = { node_text };

    ghost is_within = { FitsNode };

    ghost is_line = { IsNodeLine };

    #[tactic(auto, unfolding(crate::specs::PlanTexts::node_text))]
    fn put<K: Sink>(self, sink: &mut K, page: &mut Page) -> Result<(), WriteFault> {
        match self {
            Node::Inner(choice) => put_inner(sink, page, choice),
            Node::Cycle => page.put_bytes(sink, b"cycle\n"),
            Node::Bound(cost) => put_number(sink, page, "bound ", cost),
            Node::Open(cost) => put_number(sink, page, "open ", cost),
            Node::Hole => Ok(()),
        }
    }

    fn read(line: &[u8]) -> Option<Node> {
        node_in(line)
    }
}

// Prints a node with a choice.
#[tactic(auto, unfolding(crate::specs::PlanTexts::node_text))]
pub(crate) fn put_inner<K: Sink>(
    sink: &mut K,
    page: &mut Page,
    choice: Choice,
) -> Result<(), WriteFault>
    ensures text { Prints K.taken K.faults sink.old sink.new page.old page.new result (node_text (Node.Inner choice)) }
    ensures fits { FitsNode (Node.Inner choice) }
{
    match choice {
        Choice::Change(act) => put_number(sink, page, "inner change ", act.0 as u128),
        Choice::Pair(small, large) => {
            put_numbers(sink, page, "inner pair ", small.0 as u128, large.0 as u128)
        }
    }
}

/// Prints words, a number and a line end, behind all that was printed through the page before. A write fault comes only where a
/// write failed.
pub fn put_number<K: Sink>(
    sink: &mut K,
    page: &mut Page,
    words: &str,
    number: u128,
) -> Result<(), WriteFault>
    ensures { Prints K.taken K.faults sink.old sink.new page.old page.new result (joined (words.now ∷ decimal number ∷ codes "\n" ∷ [])) }
{
    let pieces = [Piece::Text(words), Piece::Number(number), Piece::Text("\n")];
    page.put(sink, &pieces)
}

/// Prints words, two numbers with a space between, and a line end, behind all that was printed through the page before. A write
/// fault comes only where a write failed.
pub fn put_numbers<K: Sink>(
    sink: &mut K,
    page: &mut Page,
    words: &str,
    first: u128,
    second: u128,
) -> Result<(), WriteFault>
    ensures { Prints K.taken K.faults sink.old sink.new page.old page.new result
        (joined (words.now ∷ decimal first ∷ codes " " ∷ decimal second ∷ codes "\n" ∷ [])) }
{
    let pieces = [
        Piece::Text(words),
        Piece::Number(first),
        Piece::Text(" "),
        Piece::Number(second),
        Piece::Text("\n"),
    ];
    page.put(sink, &pieces)
}

/// Prints choices as a plan lists them, a line each, behind all that was printed through the page before. A write fault comes only
/// where a write failed.
pub fn put_choices<K: Sink>(
    sink: &mut K,
    page: &mut Page,
    choices: &[Decision],
) -> Result<(), WriteFault>
    ensures text { Prints K.taken K.faults sink.old sink.new page.old page.new result (flat_map choice_text choices.now) }
    ensures fits { OnOk result (All FitsDecision choices.now) }
{
    put_listed(sink, page, choices)
}

/// Prints the one spelling of the plan in version 2, behind all that was printed through the page before. A write fault comes only
/// where a write failed.
pub fn put_plan<K: Sink>(sink: &mut K, page: &mut Page, plan: &Plan) -> Result<(), WriteFault>
    ensures text { Prints K.taken K.faults sink.old sink.new page.old page.new result (spelling_of_plan 2 plan.now) }
    ensures fits { OnOk result (FitsPlan plan.now) }
{
    let Ok(()) = put_heading(sink, page, plan) else {
        return Err(WriteFault);
    };
    let Ok(()) = put_choices(sink, page, plan.choices.as_slice()) else {
        return Err(WriteFault);
    };
    put_listed(sink, page, plan.tree.as_slice())
}

/// Prints the one spelling of the plan in version 2: from the word `plan` to the line end of the last node. It takes no
/// memory. A write fault comes only where a write failed; the sink has then taken a front of the spelling, and not all
/// of it.
pub fn print_plan<K: Sink>(plan: &Plan, sink: &mut K) -> Result<(), WriteFault>
    ensures { Puts K.taken K.faults sink.old sink.new result (spelling_of_plan 2 plan.now) }
{
    let mut page = Page::new();
    let Ok(()) = put_plan(sink, &mut page, plan) else {
        return Err(WriteFault);
    };
    page.finish(sink)
}
