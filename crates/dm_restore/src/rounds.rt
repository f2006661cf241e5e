//! The rounds that stand in the blocks of a journal, and the logs that they answered.
ghost use Rattle.std.specs.Prelude.{◌≡◌, ◌≤◌, ◌<◌, ◌++◌, [], All, length, map, IfOk, IfErr, OnOk, MatchOption};
ghost use Rattle.std.proofs.Math.ListN.{replicate};
ghost use Rattle.dm_book.specs.Books.{with_round};
ghost use Rattle.dm_items.specs.Holding.{IsHeldPart};
ghost use Rattle.dm_restore.specs.Restoring.{IsNoRound};
ghost use Rattle.dm_restore.specs.Inside.Reading.{IsWholeRound, HasRounds, StopsReading};

use crate::stops::RestoreStop;
use dm_base::Items;
use dm_cert::{CertKind, LogItem};
use dm_items::items_are_held;
use dm_store::first_block;
use dm_tape::read_round;
use std::alloc::{AllocError, Global};

/// The logs of so many feeds that the rounds in these blocks answered. Behind the rounds may stand anything that is no block.
pub(crate) fn read_logs(
    alloc: Global,
    feeds: u32,
    blocks: &[u8],
) -> Result<Vec<Vec<LogItem>>, RestoreStop>
    requires { length blocks.now ≤ 134217728 }
    ensures read { IfOk result (λ logs. HasRounds feeds blocks.now (map (λ log. log.items) logs.items)) }
    ensures stops { IfErr result (StopsReading feeds blocks.now) }
{
    let Ok(mut logs) = no_items(alloc, feeds) else {
        return Err(RestoreStop::OutOfMemory);
    };
    let mut rest = blocks;
    let mut number = 2;
    while let Some((content, more)) = first_block(rest) {
        let Ok(round) = round_in(alloc, feeds, content) else {
            return Err(RestoreStop::OutOfMemory);
        };
        let Some(round) = round else {
            return Err(RestoreStop::Form(number));
        };
        let Ok(()) = add_round(&mut logs, round) else {
            return Err(RestoreStop::OutOfMemory);
        };
        rest = more;
        number += 1;
    }
    Ok(logs)
}

/// So many logs without an item.
fn no_items(alloc: Global, feeds: u32) -> Result<Vec<Vec<LogItem>>, AllocError>
    ensures { IfOk result (λ logs. map (λ log. log.items) logs.items ≡ replicate feeds []) }
{
    let mut logs = Vec::new(alloc);
    for _feed in 0..feeds {
        logs.push(Vec::new(alloc))?;
    }
    Ok(logs)
}

/// The round of so many feeds that the content of a block is, where it is one. `Err` is want of memory alone.
fn round_in(
    alloc: Global,
    feeds: u32,
    content: &[u8],
) -> Result<Option<Vec<Items<LogItem>>>, AllocError>
    requires { length content.now ≤ 134217728 }
    ensures { IfOk result (λ round. MatchOption round (IsNoRound feeds content.now) (λ r. IsWholeRound feeds content.now r.items)) }
{
    match read_round(alloc, feeds, content) {
        Ok((round, used)) => {
            if used != content.len() {
                return Ok(None);
            }
            round_is_held(&round);
            Ok(Some(round))
        }
        Err(fault) => match fault.told.kind {
            CertKind::OutOfMemory => Err(AllocError),
            _ => Ok(None),
        },
    }
}

/// The items of a round, which memory holds. It only reads them.
fn round_is_held(round: &[Items<LogItem>])
    ensures { All IsHeldPart round.now }
{
    for items in round {
        items_are_held(items.as_slice());
    }
}

/// Puts the items of a round behind those of each log.
fn add_round(logs: &mut Vec<Vec<LogItem>>, round: Vec<Items<LogItem>>) -> Result<(), AllocError>
    requires { length round.items ≡ length logs.old.items }
    ensures { OnOk result (map (λ log. log.items) logs.new.items ≡ with_round (map (λ log. log.items) logs.old.items) round.items) }
{
    let mut feed = 0;
    for items in round {
        add_items(&mut logs[feed], items.into_vec())?;
        feed += 1;
    }
    Ok(())
}

/// Puts items behind those of a log.
fn add_items(log: &mut Vec<LogItem>, items: Vec<LogItem>) -> Result<(), AllocError>
    ensures { OnOk result (log.new.items ≡ log.old.items ++ items.items) }
{
    for item in items {
        log.push(item)?;
    }
    Ok(())
}
