//! Journals over the connection at one station, followed in pieces.

ghost use Rattle.std.specs.Prelude.{◌<◌};

use dm_follow::{FollowFault, FollowKind, Follower, Tail};
use dm_network::Network;
use dm_samples::{Case, Failure, Sample, rows_on_time};
use dm_settle::NoTimes;
use std::alloc::Global;
use std::str::FromStr;

/// Seconds for each passenger.
const PENALTY: u64 = 10;

/// What is held after a journal, which comes in pieces of so many bytes as the case says. Where a line breaks its rule, the whole is
/// given once more.
pub fn told_of_journal(alloc: Global, case: &Case<'_>, bytes: &[u8]) -> Result<String, Failure> {
    let net = Sample::Connection.network(alloc)?;
    let mut follower = begun(alloc, &net)?;
    let piece = (case.number(0) as usize).max(1);
    let told = match fed(&mut follower, bytes, piece)? {
        None => String::new(alloc),
        Some(fault) => told_again(alloc, &mut follower, fault, bytes)?,
    };
    told_of_held(alloc, &follower, &told)
}

/// A follower of a day on time.
fn begun(alloc: Global, net: &Network) -> Result<Follower<'_>, Failure> {
    let rows = rows_on_time(alloc, net)?;
    match Follower::new(alloc, net, rows, PENALTY) {
        Ok(follower) => Ok(follower),
        Err(NoTimes::OutOfMemory) => Err(Failure::OutOfMemory),
        Err(NoTimes::Cycle(_)) => Err(Failure::NoDay),
    }
}

/// Gives bytes in pieces, up to a line that breaks its rule.
fn fed(
    follower: &mut Follower<'_>,
    bytes: &[u8],
    piece: usize,
) -> Result<Option<FollowFault>, Failure>
    requires { 0 < piece }
{
    for bytes in bytes.chunks(piece) {
        match follower.feed(bytes) {
            Ok(()) => {}
            Err(fault) if fault.kind == FollowKind::OutOfMemory => return Err(Failure::OutOfMemory),
            Err(fault) => return Ok(Some(fault)),
        }
    }
    Ok(None)
}

/// The line that breaks its rule, and whether it does so again.
fn told_again(
    alloc: Global,
    follower: &mut Follower<'_>,
    fault: FollowFault,
    bytes: &[u8],
) -> Result<String, Failure> {
    let taken = follower.taken();
    let again = follower.feed(bytes) == Err(fault) && follower.taken() == taken;
    let line = fault.line;
    let kind = match fault.kind {
        FollowKind::Form => "form",
        FollowKind::Entry => "entry",
        FollowKind::OutOfMemory => "out-of-memory",
    };
    Ok(format!(in alloc; "line {line} {kind}, and again: {again}, ")?)
}

fn told_of_held(alloc: Global, follower: &Follower<'_>, told: &str) -> Result<String, Failure> {
    let table = follower.table();
    let (entries, cost, times) = (table.len(), table.cost_now(), table.times().as_slice());
    let tail = told_of_tail(alloc, follower.tail())?;
    Ok(format!(in alloc; "{told}{entries} entries, {tail}, cost {cost}, times {times:?}")?)
}

fn told_of_tail(alloc: Global, tail: Tail) -> Result<String, Failure> {
    match tail {
        Tail::Whole => Ok(String::from_str(alloc, "whole")?),
        Tail::Torn { line, bytes } => Ok(format!(in alloc; "torn at byte {bytes} of line {line}")?),
        Tail::Failed { line } => Ok(format!(in alloc; "failed at line {line}")?),
    }
}
