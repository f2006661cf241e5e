//! Plans by parts printed. Nothing here takes memory.
ghost use Rattle.std.specs.Prelude.{◌≡◌, ◌≤◌, All, OnOk, ℕ, map};
ghost use Rattle.std.specs.List.{flat_map};
ghost use Rattle.dm_outside.specs.Printing.{Prints, Puts};
ghost use Rattle.dm_feed.specs.Parts.{largest_id};
ghost use Rattle.dm_cert.specs.PlanTexts.{largest_cost};
ghost use Rattle.dm_cert.specs.SolvedRead.{part_heading_text};
ghost use Rattle.dm_cert.specs.SolvedTexts.{ids_text, part_node_text, part_heading, part_text, rest_text, solved_heading, spelling_of_solved, spaced_number, FitsPartNode, FitsPart, FitsSolved};

use crate::listed::{Listed, put_listed};
use crate::plan_text::{put_choices, put_inner, put_number};
use crate::solved_lines::{PartHeading, part_node_in};
use dm_base::{ActId, Cost, EventId};
use dm_outside::{Page, Piece, Sink, WriteFault};
use dm_parts::{Part, PartNode, PlanByParts, nodes_in};
use dm_tree::Mark;

/// What stands on a line of ids.
trait Numbered: Copy {
    /// Its number.
    ghost number: { Self → ℕ };

    fn number(self) -> u32
        ensures { result ≡ number self };
}

impl Numbered for EventId {
    ghost number = { λ e. e.0 };

    fn number(self) -> u32 {
        self.0
    }
}

impl Numbered for ActId {
    ghost number = { λ a. a.0 };

    fn number(self) -> u32 {
        self.0
    }
}

impl Listed for PartNode {
    ghost use Rattle.dm_cert.specs.SolvedRead.{IsPartNodeLine};

    ghost text = { part_node_text };

    ghost is_within = { FitsPartNode };

    ghost is_line = { IsPartNodeLine };

    #[tactic(auto, unfolding(crate::specs::PlanTexts::node_text))]
    fn put<K: Sink>(self, sink: &mut K, page: &mut Page) -> Result<(), WriteFault> {
        match self {
            PartNode::Inner(choice) => put_inner(sink, page, choice),
            PartNode::Cycle => page.put_bytes(sink, b"cycle\n"),
            PartNode::Leaf(cost) => put_number(sink, page, "leaf ", cost),
        }
    }

    fn read(line: &[u8]) -> Option<PartNode> {
        part_node_in(line)
    }
}

/// Prints ids, each with a space in front.
fn put_spaced<I: Numbered, K: Sink>(
    sink: &mut K,
    page: &mut Page,
    ids: &[I],
) -> Result<(), WriteFault>
    ensures text { Prints K.taken K.faults sink.old sink.new page.old page.new result
        (flat_map (λ id. spaced_number (I.number id)) ids.now) }
    ensures fits { OnOk result (All (λ id. I.number id ≤ largest_id) ids.now) }
{
    for id in ids {
        let Ok(()) = page.put_number(sink, " ", id.number() as u128) else {
            return Err(WriteFault);
        };
    }
    Ok(())
}

/// Prints ids on one line behind a word, and nothing where there are none.
fn put_ids<I: Numbered, K: Sink>(
    sink: &mut K,
    page: &mut Page,
    word: &str,
    ids: &[I],
) -> Result<(), WriteFault>
    ensures text { Prints K.taken K.faults sink.old sink.new page.old page.new result (ids_text word.now (map I.number ids.now)) }
    ensures fits { OnOk result (All (λ id. I.number id ≤ largest_id) ids.now) }
{
    if ids.is_empty() {
        return Ok(());
    }
    let Ok(()) = page.put_bytes(sink, word.as_bytes()) else {
        return Err(WriteFault);
    };
    let Ok(()) = put_spaced(sink, page, ids) else {
        return Err(WriteFault);
    };
    page.put_bytes(sink, b"\n")
}

/// Prints the first line of a part, which says this.
#[tactic(auto, unfolding(crate::specs::SolvedRead::part_heading_text))]
fn put_heading_of<K: Sink>(
    sink: &mut K,
    page: &mut Page,
    heading: PartHeading,
) -> Result<(), WriteFault>
    ensures text { Prints K.taken K.faults sink.old sink.new page.old page.new result (part_heading_text heading) }
    ensures bound { heading.bound ≤ largest_cost }
{
    let pieces = [
        Piece::Text("part events "),
        Piece::Number(heading.arrivals),
        Piece::Text(" changes "),
        Piece::Number(heading.changes),
        Piece::Text(" nodes "),
        Piece::Number(heading.nodes),
        Piece::Text(" bound "),
        Piece::Number(heading.bound),
        Piece::Text("\n"),
    ];
    page.put(sink, &pieces)
}

/// Prints a part's first line.
fn put_part_heading<K: Sink>(sink: &mut K, page: &mut Page, part: &Part) -> Result<(), WriteFault>
    ensures text { Prints K.taken K.faults sink.old sink.new page.old page.new result (part_heading part.now) }
    ensures bound { part.now.bound ≤ largest_cost }
{
    let heading = PartHeading {
        arrivals: part.share.arrivals.as_slice().len() as u128,
        changes: part.share.changes.as_slice().len() as u128,
        nodes: part.tree.as_slice().len() as u128,
        bound: part.bound,
    };
    put_heading_of(sink, page, heading)
}

/// Prints a part.
fn put_part<K: Sink>(sink: &mut K, page: &mut Page, part: &Part) -> Result<(), WriteFault>
    ensures text { Prints K.taken K.faults sink.old sink.new page.old page.new result (part_text part.now) }
    ensures fits { OnOk result (FitsPart part.now) }
{
    let Ok(()) = put_part_heading(sink, page, part) else {
        return Err(WriteFault);
    };
    let Ok(()) = put_ids(sink, page, "events", part.share.arrivals.as_slice()) else {
        return Err(WriteFault);
    };
    let Ok(()) = put_ids(sink, page, "changes", part.share.changes.as_slice()) else {
        return Err(WriteFault);
    };
    put_listed(sink, page, part.tree.as_slice())
}

/// Prints parts, one behind the other.
fn put_parts<K: Sink>(sink: &mut K, page: &mut Page, parts: &[Part]) -> Result<(), WriteFault>
    ensures text { Prints K.taken K.faults sink.old sink.new page.old page.new result (flat_map part_text parts.now) }
    ensures fits { OnOk result (All FitsPart parts.now) }
{
    for part in parts {
        let Ok(()) = put_part(sink, page, part) else {
            return Err(WriteFault);
        };
    }
    Ok(())
}

/// Prints what a plan by parts is and what follows.
#[tactic(auto, unfolding(crate::specs::SolvedTexts::solved_heading))]
fn put_solved_heading<K: Sink>(
    sink: &mut K,
    page: &mut Page,
    plan: &PlanByParts,
) -> Result<(), WriteFault>
    ensures text { Prints K.taken K.faults sink.old sink.new page.old page.new result (solved_heading plan.now) }
    ensures cost { plan.now.cost ≤ largest_cost }
    ensures bound { plan.now.bound ≤ largest_cost }
{
    let (cost, bound) = (plan.cost, plan.bound);
    let mark = match plan.mark {
        Mark::Optimal => "solved optimal cost ",
        Mark::Open => "solved open cost ",
    };
    let parts = plan.parts.as_slice();
    let pieces = [
        Piece::Text(mark),
        Piece::Number(cost),
        Piece::Text(" bound "),
        Piece::Number(bound),
        Piece::Text(" choices "),
        Piece::Number(plan.choices.as_slice().len() as u128),
        Piece::Text(" parts "),
        Piece::Number(parts.len() as u128),
        Piece::Text(" nodes "),
        Piece::Number(nodes_in(parts)),
        Piece::Text("\n"),
    ];
    page.put(sink, &pieces)
}

/// Prints the cost of what stands in no share.
#[tactic(auto, unfolding(crate::specs::SolvedTexts::rest_text))]
fn put_rest<K: Sink>(sink: &mut K, page: &mut Page, rest: Cost) -> Result<(), WriteFault>
    ensures text { Prints K.taken K.faults sink.old sink.new page.old page.new result (rest_text rest) }
    ensures fits { rest ≤ largest_cost }
{
    put_number(sink, page, "rest ", rest)
}

/// Prints the one spelling of the plan by parts, behind all that was printed through the page before. A write fault comes only
/// where a write failed.
pub fn put_solved<K: Sink>(
    sink: &mut K,
    page: &mut Page,
    plan: &PlanByParts,
) -> Result<(), WriteFault>
    ensures text { Prints K.taken K.faults sink.old sink.new page.old page.new result (spelling_of_solved plan.now) }
    ensures fits { OnOk result (FitsSolved plan.now) }
{
    let Ok(()) = put_solved_heading(sink, page, plan) else {
        return Err(WriteFault);
    };
    let Ok(()) = put_choices(sink, page, plan.choices.as_slice()) else {
        return Err(WriteFault);
    };
    let Ok(()) = put_parts(sink, page, plan.parts.as_slice()) else {
        return Err(WriteFault);
    };
    put_rest(sink, page, plan.rest)
}

/// Prints the one spelling of the plan by parts: from the word `solved` to the line end of the rest. It takes no memory. A write
/// fault comes only where a write failed; the sink has then taken a front of the spelling, and not all of it.
pub fn print_solved<K: Sink>(plan: &PlanByParts, sink: &mut K) -> Result<(), WriteFault>
    ensures { Puts K.taken K.faults sink.old sink.new result (spelling_of_solved plan.now) }
{
    let mut page = Page::new();
    let Ok(()) = put_solved(sink, &mut page, plan) else {
        return Err(WriteFault);
    };
    page.finish(sink)
}
