//! The items of a round, read line by line.
ghost use Rattle.std.specs.Prelude.{◌≡◌};
ghost use Rattle.dm_text.specs.Judging.{Then, Gives};
ghost use Rattle.dm_records.specs.RunLines.{planned, solved_item, heading_of};
ghost use Rattle.dm_records.specs.Readings.{opening_of, solved_opening_of};
ghost use Rattle.dm_cert.specs.PlansRead.{Answers, misshapen_line};
ghost use Rattle.dm_cert.specs.SolvedRead.{TellsSolvedBehind};
ghost use Rattle.dm_tape.specs.Told.{TellsNodesOf, TellsBehind, TellsItem, fault_of, plan_item};
ghost use Rattle.dm_tape.specs.Inside.Fronts.{ReadsFront};

use dm_base::Items;
use dm_cert::{
    CertFault, CertKind, LogItem, Reply, SolvedHeading, read_choices, read_tree, solved_behind,
};
use dm_parts::PlanByParts;
use dm_records::{LogLine, PlanLine, SolvedLine, item_line};
use dm_rows::Decision;
use dm_text::Lines;
use dm_tree::{Plan, Tree};
use std::alloc::{AllocError, Global};

/// The version of run texts whose items rounds have.
const VERSION: u32 = 2;

/// There is not enough memory.
pub(crate) const WANT_OF_MEMORY: CertFault = CertFault {
    line: 0,
    kind: CertKind::OutOfMemory,
};

/// The next line, which should be the first of an item.
fn front_at(alloc: Global, lines: &mut Lines) -> Result<LogLine, CertFault>
    ensures { ReadsFront lines.old lines.new result }
{
    let number = lines.line();
    let Some(bytes) = lines.next_line() else {
        return Err(CertFault {
            line: number,
            kind: CertKind::Truncated,
        });
    };
    match item_line(alloc, VERSION, bytes) {
        Ok(Some(front)) => Ok(front),
        Ok(None) => Err(misshapen(number)),
        Err(AllocError) => Err(WANT_OF_MEMORY),
    }
}

/// This line is not as the format says.
fn misshapen(line: u32) -> CertFault
    ensures { result ≡ misshapen_line line }
{
    CertFault {
        line,
        kind: CertKind::Form,
    }
}

/// Where the fault of a plan's lines is told, whose item begins at this line.
fn fault_of(first: u32, fault: CertFault) -> CertFault
    ensures { result ≡ fault_of first fault }
{
    match fault.kind {
        CertKind::NotATree => CertFault {
            line: first,
            kind: CertKind::NotATree,
        },
        _ => fault,
    }
}

/// The tree of a plan, whose item begins at this line and which has so many nodes.
fn tree_at(alloc: Global, lines: &mut Lines, first: u32, size: u128) -> Result<Tree, CertFault>
    ensures { Answers (TellsNodesOf first size) (λ tree. tree) lines.old lines.new result }
{
    match read_tree(alloc, VERSION, lines, size) {
        Ok(tree) => Ok(tree),
        Err(fault) => Err(fault_of(first, fault)),
    }
}

/// The item whose first line, this one, opened a plan.
fn plan_behind(
    alloc: Global,
    lines: &mut Lines,
    first: u32,
    opening: PlanLine,
) -> Result<LogItem, CertFault>
    ensures { Answers (TellsBehind first (planned (opening_of opening))) (λ item. item) lines.old lines.new result }
{
    let (choices, size) = (opening.choices, opening.size);
    let choices = match read_choices(alloc, lines, choices) {
        Ok(choices) => choices,
        Err(fault) => return Err(fault),
    };
    let tree = match tree_at(alloc, lines, first, size) {
        Ok(tree) => tree,
        Err(fault) => return Err(fault),
    };
    Ok(plan_item(opening, Items::from_vec(choices), tree))
}

/// The item that answers with this plan.
fn plan_item(opening: PlanLine, choices: Items<Decision>, tree: Tree) -> LogItem
    ensures { result ≡ plan_item (opening_of opening) choices tree }
{
    let PlanLine {
        line,
        said,
        entry,
        mark,
        cost,
        bound,
        choices: _,
        size: _,
    } = opening;
    let plan = Plan {
        entry,
        choices,
        cost,
        bound,
        mark,
        tree,
    };
    LogItem::Answered {
        line,
        said,
        reply: Reply::Planned(plan),
    }
}

/// What the first line of an item says of the plan by parts behind it.
fn heading_of(opening: &SolvedLine) -> SolvedHeading
    ensures { result ≡ heading_of (solved_opening_of opening.now) }
{
    SolvedHeading {
        mark: opening.mark,
        cost: opening.cost,
        bound: opening.bound,
        choices: opening.choices,
        parts: opening.parts,
        nodes: opening.nodes,
    }
}

/// The item whose first line opened a plan by parts.
fn solution_behind(
    alloc: Global,
    lines: &mut Lines,
    opening: SolvedLine,
) -> Result<LogItem, CertFault>
    ensures { Answers
        (Then (TellsSolvedBehind opening.entry (heading_of (solved_opening_of opening)))
        (λ plan. Gives (solved_item (solved_opening_of opening) plan))) (λ item. item) lines.old lines.new result }
{
    let heading = heading_of(&opening);
    match solved_behind(alloc, opening.entry, heading, lines) {
        Ok(plan) => Ok(solved_item(opening, plan)),
        Err(fault) => Err(fault),
    }
}

/// The item that answers with this plan by parts.
fn solved_item(opening: SolvedLine, plan: PlanByParts) -> LogItem
    ensures { result ≡ solved_item (solved_opening_of opening) plan }
{
    let SolvedLine {
        line,
        said,
        entry: _,
        mark: _,
        cost: _,
        bound: _,
        choices: _,
        parts: _,
        nodes: _,
    } = opening;
    LogItem::Answered {
        line,
        said,
        reply: Reply::Solved(plan),
    }
}

/// The next item.
pub(crate) fn item_at(alloc: Global, lines: &mut Lines) -> Result<LogItem, CertFault>
    ensures { Answers TellsItem (λ item. item) lines.old lines.new result }
{
    let first = lines.line();
    let front = match front_at(alloc, lines) {
        Ok(front) => front,
        Err(fault) => return Err(fault),
    };
    match front {
        LogLine::Item(item) => Ok(item),
        LogLine::TooLarge => Err(misshapen(first)),
        LogLine::Planned(opening) => plan_behind(alloc, lines, first, opening),
        LogLine::Solved(opening) => solution_behind(alloc, lines, opening),
    }
}
