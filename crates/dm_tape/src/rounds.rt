//! Rounds read from their text.
ghost use Rattle.std.specs.Prelude.{◌≡◌, ℕ, List, ◌+◌, ◌<◌, ◌≤◌, length, IfOk, IfErr, MatchResult};
ghost use Rattle.dm_base.specs.declared.limits.TheConstants.{TEXT};
ghost use Rattle.dm_text.specs.Judging.{Line};
ghost use Rattle.dm_cert.specs.declared.replies.LogItem.{LogItem as Answered};
ghost use Rattle.dm_cert.specs.PlansRead.{Answers, cut_line, misshapen_line, want_of_memory};
ghost use Rattle.dm_tape.specs.Told.{IsFeedLine, TellsItems, TellsPart, TellsRound, ReadsText, FindsFault, BeginsWithRound};
ghost use Rattle.dm_tape.specs.Begins.{IsPlaced};

use crate::begins::placed;
use crate::faults::RoundFault;
use crate::items::{WANT_OF_MEMORY, item_at};
use dm_base::Items;
use dm_cert::{CertFault, CertKind, LogItem};
use dm_records::opening_line;
use dm_text::Lines;
use std::alloc::Global;

/// How many items the feed of this number was answered, by the next line.
fn count_at(lines: &mut Lines, number: u32) -> Result<u128, CertFault>
    ensures { Answers (Line cut_line misshapen_line (IsFeedLine number)) (λ count. count) lines.old lines.new result }
{
    let line = lines.line();
    let Some(bytes) = lines.next_line() else {
        return Err(CertFault {
            line,
            kind: CertKind::Truncated,
        });
    };
    let form = CertFault {
        line,
        kind: CertKind::Form,
    };
    let Some(opening) = opening_line(bytes) else {
        return Err(form);
    };
    if opening.feed != number as u128 {
        return Err(form);
    }
    Ok(opening.items)
}

/// So many items. The list grows as lines are found, so that a number says nothing of memory.
fn items_at(alloc: Global, lines: &mut Lines, count: u128) -> Result<Vec<LogItem>, CertFault>
    ensures { Answers (TellsItems count) (λ items. items.items) lines.old lines.new result }
{
    let mut items = Vec::new(alloc);
    while (items.len() as u128) < count {
        let item = match item_at(alloc, lines) {
            Ok(item) => item,
            Err(fault) => return Err(fault),
        };
        let Ok(()) = items.push(item) else {
            return Err(WANT_OF_MEMORY);
        };
    }
    Ok(items)
}

/// What the feed of this number was answered.
fn part_at(alloc: Global, lines: &mut Lines, number: u32) -> Result<Items<LogItem>, CertFault>
    ensures { Answers (TellsPart number) (λ items. items) lines.old lines.new result }
{
    let count = match count_at(lines, number) {
        Ok(count) => count,
        Err(fault) => return Err(fault),
    };
    match items_at(alloc, lines, count) {
        Ok(items) => Ok(Items::from_vec(items)),
        Err(fault) => Err(fault),
    }
}

fn round_at(alloc: Global, lines: &mut Lines, feeds: u32) -> Result<Vec<Items<LogItem>>, CertFault>
    ensures { Answers (TellsRound feeds) (λ round. round.items) lines.old lines.new result }
{
    let mut round = Vec::new(alloc);
    for place in 0..feeds {
        let items = match part_at(alloc, lines, place + 1) {
            Ok(items) => items,
            Err(fault) => return Err(fault),
        };
        let Ok(()) = round.push(items) else {
            return Err(WANT_OF_MEMORY);
        };
    }
    Ok(round)
}

/// The round of so many feeds whose text the bytes begin with, and how many bytes its text has. What follows the text does not
/// matter. Memory is taken as lines are found: a number in the text reserves none.
///
/// `Form` and `Truncated` name the first line that is not as the format says, or not whole, counted from 1: there is the first
/// byte that is wrong. `NotATree` names the first line of an item with a plan whose lines are all as the format says, and are not
/// one whole tree in preorder. The fault's `byte` is where the named line begins; it is 0 for want of memory.
pub fn read_round(
    alloc: Global,
    feeds: u32,
    bytes: &[u8],
) -> Result<(Vec<Items<LogItem>>, usize), RoundFault>
    requires { length bytes.now ≤ TEXT }
    ensures reads { IfOk result (λ read. ReadsText feeds bytes.now read.0.items read.1) }
    ensures fault { IfErr result (λ fault. FindsFault feeds bytes.now fault.told) }
    ensures byte { IfErr result (IsPlaced bytes.now) }
    ensures ok { IfOk result (λ read. BeginsWithRound feeds bytes.now read.0.items read.1) }

    // A round whose text stands there is read, unless memory runs out.
    ensures exactly { (round : List (List Answered)) (used : ℕ) → BeginsWithRound feeds bytes.now round used
        → MatchResult result (λ read. (read.0.items ≡ round) × (read.1 ≡ used)) (λ fault. fault.told ≡ want_of_memory) }
{
    let mut lines = Lines::new(bytes);
    let round = match round_at(alloc, &mut lines, feeds) {
        Ok(round) => round,
        Err(fault) => return Err(placed(bytes, fault)),
    };
    let left = lines.left();
    Ok((round, bytes.len() - left.len()))
}
