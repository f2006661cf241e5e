//! Plans by parts read from their texts, line by line.
ghost use Rattle.std.specs.Prelude.{◌≡◌, ◌⊎◌, ◌<◌, ◌≤◌, ◌+◌, ◌-◌, ℕ, length, map, IfOk, MatchOption};
ghost use Rattle.dm_base.specs.declared.limits.TheConstants.{TEXT};
ghost use Rattle.dm_parts.specs.declared.parts.PlanByParts.{PlanByParts as PlanByPartsValue};
ghost use Rattle.std.specs.Prelude.{Ok, Err};
ghost use Rattle.dm_text.specs.Judging.{Line};
ghost use Rattle.dm_cert.specs.PlansRead.{Answers, cut_line, misshapen_line, want_of_memory};
ghost use Rattle.dm_cert.specs.SolvedRead.{IsSolvedHeadingLine, IsPartHeadingLine, IsRestLine, TellsIds, TellsShare, TellsPart, TellsParts, TellsSolvedBehind, TellsSolved, ReadsSolved, BeginsWithSolved};
ghost use Rattle.dm_cert.specs.Inside.SolvedParts.{IsIds, IsNoIds};

use crate::faults::WANT_OF_MEMORY;
use crate::listed::read_listed;
use crate::plan_lines::id_behind;
use crate::plan_reading::read_choices;
use crate::solved_lines::{
    Left, PartHeading, SolvedHeading, part_heading_in, rest_in, solved_heading_in,
};
use crate::{CertFault, CertKind};
use dm_base::{ActId, Cost, EventId, Items};
use dm_parts::{Part, PartNode, PlanByParts, Share};
use dm_text::{Lines, behind};
use std::alloc::{AllocError, Global};

/// The most ids that the shares of a plan may have together.
const MOST_IDS: u128 = 65_536;

/// The next line, which should be the first of a plan by parts.
fn solved_heading_line(lines: &mut Lines) -> Result<SolvedHeading, CertFault>
    ensures { Answers (Line cut_line misshapen_line IsSolvedHeadingLine) (λ h. h) lines.old lines.new result }
{
    let number = lines.line();
    let Some(line) = lines.next_line() else {
        return Err(CertFault {
            line: number,
            kind: CertKind::Truncated,
        });
    };
    let Some(heading) = solved_heading_in(line) else {
        return Err(CertFault {
            line: number,
            kind: CertKind::Form,
        });
    };
    Ok(heading)
}

/// The next line, which should be the first of a part, where so much is left.
fn part_heading_line(lines: &mut Lines, left: Left) -> Result<PartHeading, CertFault>
    ensures { Answers (Line cut_line misshapen_line (IsPartHeadingLine left.parts left.nodes left.ids)) (λ h. h)
        lines.old lines.new result }
{
    let number = lines.line();
    let Some(line) = lines.next_line() else {
        return Err(CertFault {
            line: number,
            kind: CertKind::Truncated,
        });
    };
    let Some(heading) = part_heading_in(left, line) else {
        return Err(CertFault {
            line: number,
            kind: CertKind::Form,
        });
    };
    Ok(heading)
}

/// The next line, which should be the rest.
fn rest_line(lines: &mut Lines) -> Result<Cost, CertFault>
    ensures { Answers (Line cut_line misshapen_line IsRestLine) (λ r. r) lines.old lines.new result }
{
    let number = lines.line();
    let Some(line) = lines.next_line() else {
        return Err(CertFault {
            line: number,
            kind: CertKind::Truncated,
        });
    };
    let Some(rest) = rest_in(line) else {
        return Err(CertFault {
            line: number,
            kind: CertKind::Form,
        });
    };
    Ok(rest)
}

/// The ids that the bytes are, each with a space in front and above the one before it, or None where they are none.
fn ascending_ids(alloc: Global, bytes: &[u8]) -> Result<Option<Vec<u32>>, AllocError>
    ensures { IfOk result (λ found. MatchOption found (IsNoIds bytes.now) (λ ids. IsIds ids.items bytes.now)) }
{
    let mut ids = Vec::new(alloc);
    let mut least = 0u128;
    let mut rest = bytes;
    while let Some((id, next)) = id_behind(rest, " ") {
        if (id as u128) < least {
            return Ok(None);
        }
        ids.push(id)?;
        least = id as u128 + 1;
        rest = next;
    }
    if rest.is_empty() {
        Ok(Some(ids))
    } else {
        Ok(None)
    }
}

/// So many ids on the next line behind a word, ascending. Where there are none, no line is read.
fn ids_line(
    alloc: Global,
    lines: &mut Lines,
    word: &str,
    count: u128,
) -> Result<Vec<u32>, CertFault>
    ensures { Answers (TellsIds word.now count) (λ v. v.items) lines.old lines.new result }
{
    if count == 0 {
        return Ok(Vec::new(alloc));
    }
    let number = lines.line();
    let Some(line) = lines.next_line() else {
        return Err(CertFault {
            line: number,
            kind: CertKind::Truncated,
        });
    };
    let Some(rest) = behind(line, word) else {
        return Err(CertFault {
            line: number,
            kind: CertKind::Form,
        });
    };
    let Ok(found) = ascending_ids(alloc, rest) else {
        return Err(WANT_OF_MEMORY);
    };
    let Some(ids) = found else {
        return Err(CertFault {
            line: number,
            kind: CertKind::Form,
        });
    };
    if ids.len() as u128 != count {
        return Err(CertFault {
            line: number,
            kind: CertKind::Form,
        });
    }
    Ok(ids)
}

/// The arrivals of these numbers.
fn arrivals_of(alloc: Global, ids: Vec<u32>) -> Result<Items<EventId>, AllocError>
    ensures { IfOk result (λ found. found ≡ map (λ n. record { 0 = n }) ids.items) }
{
    let found: Vec<EventId> = ids.into_iter().map(|id| EventId(id)).collect(alloc)?;
    Ok(Items::from_vec(found))
}

/// The changes of these numbers.
fn changes_of(alloc: Global, ids: Vec<u32>) -> Result<Items<ActId>, AllocError>
    ensures { IfOk result (λ found. found ≡ map (λ n. record { 0 = n }) ids.items) }
{
    let found: Vec<ActId> = ids.into_iter().map(|id| ActId(id)).collect(alloc)?;
    Ok(Items::from_vec(found))
}

/// The share whose ids stand in the next lines.
fn share_at(alloc: Global, lines: &mut Lines, heading: PartHeading) -> Result<Share, CertFault>
    ensures { Answers (TellsShare heading) (λ s. s) lines.old lines.new result }
{
    let arrivals = match ids_line(alloc, lines, "events", heading.arrivals) {
        Ok(ids) => ids,
        Err(fault) => return Err(fault),
    };
    let changes = match ids_line(alloc, lines, "changes", heading.changes) {
        Ok(ids) => ids,
        Err(fault) => return Err(fault),
    };
    let Ok(arrivals) = arrivals_of(alloc, arrivals) else {
        return Err(WANT_OF_MEMORY);
    };
    let Ok(changes) = changes_of(alloc, changes) else {
        return Err(WANT_OF_MEMORY);
    };
    Ok(Share { arrivals, changes })
}

/// The part whose text begins at the next line, where so much is left.
fn part_at(alloc: Global, lines: &mut Lines, left: Left) -> Result<Part, CertFault>
    ensures { Answers (TellsPart left.parts left.nodes left.ids) (λ p. p) lines.old lines.new result }
{
    let heading = match part_heading_line(lines, left) {
        Ok(heading) => heading,
        Err(fault) => return Err(fault),
    };
    let share = match share_at(alloc, lines, heading) {
        Ok(share) => share,
        Err(fault) => return Err(fault),
    };
    let tree = match read_listed::<PartNode>(alloc, lines, heading.nodes) {
        Ok(tree) => tree,
        Err(fault) => return Err(fault),
    };
    Ok(Part {
        share,
        tree: Items::from_vec(tree),
        bound: heading.bound,
    })
}

/// What a part leaves of what was left.
fn left_behind(left: Left, part: &Part) -> Left
    requires some { 0 < left.parts }
    requires nodes { length part.now.tree ≤ left.nodes }
    requires ids { length part.now.share.arrivals + length part.now.share.changes ≤ left.ids }
    ensures parts { result.parts ≡ left.parts - 1 }
    ensures nodes { result.nodes ≡ left.nodes - length part.now.tree }
    ensures ids { result.ids ≡ left.ids - (length part.now.share.arrivals + length part.now.share.changes) }
{
    let ids = part.share.arrivals.as_slice().len() as u128
        + part.share.changes.as_slice().len() as u128;
    Left {
        parts: left.parts - 1,
        nodes: left.nodes - part.tree.as_slice().len() as u128,
        ids: left.ids - ids,
    }
}

/// As many parts as the first line says. The list grows as parts are found, so that a number says nothing of memory.
fn read_parts(
    alloc: Global,
    lines: &mut Lines,
    heading: SolvedHeading,
) -> Result<Vec<Part>, CertFault>
    ensures { Answers (TellsParts heading) (λ v. v.items) lines.old lines.new result }
{
    let mut parts = Vec::new(alloc);
    let mut left = Left {
        parts: heading.parts,
        nodes: heading.nodes,
        ids: MOST_IDS,
    };
    while left.parts > 0 {
        let part = match part_at(alloc, lines, left) {
            Ok(part) => part,
            Err(fault) => return Err(fault),
        };
        left = left_behind(left, &part);
        let Ok(()) = parts.push(part) else {
            return Err(WANT_OF_MEMORY);
        };
    }
    Ok(parts)
}

/// The plan by parts of which the first line was read, for the rows at an entry.
pub fn solved_behind(
    alloc: Global,
    entry: u32,
    heading: SolvedHeading,
    lines: &mut Lines,
) -> Result<PlanByParts, CertFault>
    ensures { Answers (TellsSolvedBehind entry heading) (λ p. p) lines.old lines.new result }
{
    let choices = match read_choices(alloc, lines, heading.choices) {
        Ok(choices) => choices,
        Err(fault) => return Err(fault),
    };
    let parts = match read_parts(alloc, lines, heading) {
        Ok(parts) => parts,
        Err(fault) => return Err(fault),
    };
    let rest = match rest_line(lines) {
        Ok(rest) => rest,
        Err(fault) => return Err(fault),
    };
    Ok(PlanByParts {
        entry,
        choices: Items::from_vec(choices),
        cost: heading.cost,
        parts: Items::from_vec(parts),
        rest,
        bound: heading.bound,
        mark: heading.mark,
    })
}

/// The plan by parts whose text begins at the next line, for the rows at an entry.
fn solved_at(alloc: Global, entry: u32, lines: &mut Lines) -> Result<PlanByParts, CertFault>
    ensures { Answers (TellsSolved entry) (λ p. p) lines.old lines.new result }
{
    match solved_heading_line(lines) {
        Ok(heading) => solved_behind(alloc, entry, heading, lines),
        Err(fault) => Err(fault),
    }
}

/// The plan by parts whose text the bytes begin with, for the rows at an entry, and how many bytes its text has. What follows the
/// text does not matter. Memory is taken as lines are found: a number in the text reserves none.
///
/// `Form` and `Truncated` name the first line that is not as the format says, or not whole, counted from 1. Whether trees are
/// whole is not asked here.
pub fn read_solved(
    alloc: Global,
    entry: u32,
    bytes: &[u8],
) -> Result<(PlanByParts, usize), CertFault>
    requires { length bytes.now ≤ TEXT }
    ensures reads { ReadsSolved entry bytes.now result }
    ensures ok { IfOk result (λ read. BeginsWithSolved entry bytes.now read.0 read.1) }

    // A plan by parts whose text stands there is read, unless memory runs out.
    ensures exactly { (plan : PlanByPartsValue) (used : ℕ) → BeginsWithSolved entry bytes.now plan used →
        (result ≡ Ok (plan, used)) ⊎ (result ≡ Err want_of_memory) }
{
    let mut lines = Lines::new(bytes);
    let plan = match solved_at(alloc, entry, &mut lines) {
        Ok(plan) => plan,
        Err(fault) => return Err(fault),
    };
    let left = lines.left();
    Ok((plan, bytes.len() - left.len()))
}
