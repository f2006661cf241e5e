//! Rounds that are read and printed again.
ghost use Rattle.std.specs.Prelude.{All, IfOk};
ghost use Rattle.dm_cert.specs.RunTexts.{IsSpelledItem};

use crate::plans::{told_of_fault, told_of_printed};
use dm_base::Items;
use dm_base::limits::TEXT;
use dm_cert::LogItem;
use dm_outside::{MemSink, Page, WriteFault};
use dm_samples::{Case, Failure};
use dm_tape::{RoundFault, put_round, read_round};
use std::alloc::Global;

/// The most bytes that are printed, and the most that one write takes.
const ROOM: usize = 100_000;

const PIECE: usize = 7;

/// A round that is read, and how long its text is, or what is wrong.
type ReadRound = Result<(Vec<Items<LogItem>>, usize), RoundFault>;

/// The round at the front of the bytes, of so many feeds as the case says: how many bytes it takes, and how it is printed. Or the
/// line that is wrong, and the byte at which it begins.
pub fn told_of_round(alloc: Global, case: &Case<'_>, bytes: &[u8]) -> Result<String, Failure> {
    match round_of(alloc, case.number(0).min(64) as u32, bytes)? {
        Ok((round, used)) => told_of_printed(alloc, used, &printed(alloc, round.as_slice())?),
        Err(fault) => {
            let (told, byte) = (told_of_fault(alloc, fault.told)?, fault.byte);
            Ok(format!(in alloc; "{told} at byte {byte}")?)
        }
    }
}

fn round_of(alloc: Global, feeds: u32, bytes: &[u8]) -> Result<ReadRound, Failure>
    ensures { IfOk result (λ answered. IfOk answered (λ read. All (λ items. All IsSpelledItem items) read.0.items)) }
{
    if bytes.len() > TEXT {
        return Err(Failure::NoDay);
    }
    Ok(read_round(alloc, feeds, bytes))
}

fn printed(alloc: Global, round: &[Items<LogItem>]) -> Result<MemSink, Failure>
    requires { All (λ items. All IsSpelledItem items) round.now }
{
    let mut sink = MemSink::new(alloc, ROOM, PIECE, Vec::new(alloc))?;
    let mut page = Page::new();
    is_put(put_round(&mut sink, &mut page, round))?;
    is_put(page.finish(&mut sink))?;
    Ok(sink)
}

/// The sink has room for all that is put.
pub fn is_put(put: Result<(), WriteFault>) -> Result<(), Failure> {
    match put {
        Ok(()) => Ok(()),
        Err(WriteFault) => Err(Failure::NoDay),
    }
}
