//! A plan of either kind in a log: the line of its item, followed by its block.
ghost use Rattle.std.specs.Prelude.{◌≡◌, ◌≤◌};
ghost use Rattle.dm_cert.specs.PlanTexts.{IsVersion};
ghost use Rattle.dm_cert.specs.SolvedRead.{TellsSolvedBehind};
ghost use Rattle.dm_records.specs.Readings.{opening_of, solved_opening_of};
ghost use Rattle.dm_records.specs.RunLines.{heading_of};
ghost use Rattle.dm_check.specs.FalseRecords.{InRun};
ghost use Rattle.dm_check.specs.Judged.{Judged, TellsBlock};
ghost use Rattle.dm_check.specs.Inside.Blocks.{without_plan, stop_of};

use crate::faults::{Fault, Stop};
use crate::verdicts::BadKind;
use dm_base::Items;
use dm_cert::{CertFault, CertKind, SolvedHeading, read_choices, read_tree, solved_behind};
use dm_parts::PlanByParts;
use dm_records::{PlanLine, SolvedLine};
use dm_text::Lines;
use dm_tree::Plan;
use std::alloc::Global;

/// The plan of an item's first line, from the lines behind it, or None where they show no tree.
#[tactic(auto, using(crate::proofs::Blocks::choices_stopped))]
pub(crate) fn block_told(
    alloc: Global,
    lines: &mut Lines,
    version: u32,
    opening: &PlanLine,
) -> Result<Option<Plan>, Stop>
    requires version { IsVersion version }
    requires behind { 1 ≤ lines.old.line }
    ensures { TellsBlock version (opening_of opening.now) lines.old lines.new result }
{
    let (choices, size) = (opening.choices, opening.size);
    let choices = match read_choices(alloc, lines, choices) {
        Ok(choices) => choices,
        Err(fault) => return without_plan(fault),
    };
    let tree = match read_tree(alloc, version, lines, size) {
        Ok(tree) => tree,
        Err(fault) => return without_plan(fault),
    };
    Ok(Some(Plan {
        entry: opening.entry,
        choices: Items::from_vec(choices),
        cost: opening.cost,
        bound: opening.bound,
        mark: opening.mark,
        tree,
    }))
}

/// What a fault in a plan's lines comes to: they show no plan, or one of them is cut or misshapen.
fn without_plan(fault: CertFault) -> Result<Option<Plan>, Stop>
    ensures { result ≡ without_plan fault }
{
    let line = fault.line;
    match fault.kind {
        CertKind::Form => Err(Stop::Fault(Fault {
            line,
            kind: BadKind::Form,
        })),
        CertKind::Truncated => Err(Stop::Fault(Fault {
            line,
            kind: BadKind::Truncated,
        })),
        CertKind::NotATree => Ok(None),
        CertKind::OutOfMemory => Err(Stop::OutOfMemory),
    }
}

/// The plan by parts of an item's first line, from the lines behind it.
pub(crate) fn solved_told(
    alloc: Global,
    lines: &mut Lines,
    opening: &SolvedLine,
) -> Result<PlanByParts, Stop>
    ensures { Judged (InRun (TellsSolvedBehind opening.now.entry (heading_of (solved_opening_of opening.now)))) (λ plan. plan)
        lines.old lines.new result }
{
    let heading = SolvedHeading {
        mark: opening.mark,
        cost: opening.cost,
        bound: opening.bound,
        choices: opening.choices,
        parts: opening.parts,
        nodes: opening.nodes,
    };
    match solved_behind(alloc, opening.entry, heading, lines) {
        Ok(plan) => Ok(plan),
        Err(fault) => Err(stop_of(fault)),
    }
}

/// What a fault in the lines of a plan by parts comes to.
fn stop_of(fault: CertFault) -> Stop
    ensures { result ≡ stop_of fault }
{
    let line = fault.line;
    let kind = match fault.kind {
        CertKind::Form => BadKind::Form,
        CertKind::Truncated => BadKind::Truncated,
        CertKind::NotATree => BadKind::Plan,
        CertKind::OutOfMemory => return Stop::OutOfMemory,
    };
    Stop::Fault(Fault { line, kind })
}
