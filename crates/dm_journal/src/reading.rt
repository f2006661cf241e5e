//! A text that is read to its end, and followed on the way.
ghost use Rattle.std.specs.Prelude.{◌≡◌, ◌<◌, ◌≤◌, length, vec_len, IfOk, IsErrOf};
ghost use Rattle.dm_base.specs.declared.limits.TheConstants.{PENALTY};
ghost use Rattle.dm_rows.specs.Active.{HasNoCycle};
ghost use Rattle.dm_rows.specs.Rows.{IsSized};
ghost use Rattle.dm_input.specs.Stops.{IsKept};
ghost use Rattle.dm_journal.specs.Journals.{ReadsJournal};
ghost use Rattle.dm_journal.specs.Inside.Giving.{FollowsPiece, ReadsFollowing, ReadsSource};

use crate::giving::{BrokenLine, Journal, followed, give};
use dm_base::limits::TEXT;
use dm_follow::Follower;
use dm_network::Network;
use dm_outside::{Shelf, Source, TakeFault};
use dm_rows::Rows;
use dm_settle::NoTimes;
use std::alloc::{AllocError, Global};

/// How many bytes one read is asked for at most.
const PIECE: usize = 4_096;

/// Room for one read.
fn make_piece(alloc: Global, size: usize) -> Result<Vec<u8>, AllocError>
    ensures { IfOk result (λ piece. vec_len piece ≡ size) }
{
    vec![in alloc; 0u8; size]
}

/// Takes what one read gives, and gives it to the follower. A fault or want of memory loses what the read gave.
fn follow_piece<S: Source>(
    source: &mut S,
    follower: &mut Follower<'_>,
    broken: &mut Option<BrokenLine>,
    piece: &mut [u8],
) -> Result<usize, TakeFault>
    requires { 0 < length piece.old }
    ensures ok { IfOk result (FollowsPiece (S.left source.old) (S.left source.new) follower.old broken.old follower.new broken.new) }
    ensures short { IfOk result (λ count. count ≤ length piece.old) }
    ensures unsound { IsErrOf result TakeFault.ReadFault → S.is_sound source.old → ⊥ }
    ensures not_long { IsErrOf result TakeFault.TooLong → ⊥ }
    ensures stays_sound { S.is_sound source.old → S.is_sound source.new }
{
    let Ok(count) = source.read(piece) else {
        return Err(TakeFault::ReadFault);
    };
    let Ok(now) = give(follower, *broken, &piece[..count]) else {
        return Err(TakeFault::OutOfMemory);
    };
    *broken = now;
    Ok(count)
}

/// Reads a source to its end and gives it to a follower; the first line that breaks its rule is answered.
fn follow_source<S: Source>(
    alloc: Global,
    source: &mut S,
    follower: &mut Follower<'_>,
) -> Result<Option<BrokenLine>, TakeFault>
    ensures { ReadsFollowing S.left S.is_sound source.old source.new follower.old follower.new result }
{
    let Ok(mut piece) = make_piece(alloc, PIECE) else {
        return Err(TakeFault::OutOfMemory);
    };
    let mut broken = None;
    let mut count = 0;
    while count <= TEXT {
        let room = TEXT - count;
        let want = if room < PIECE { room + 1 } else { PIECE };
        match follow_piece(source, follower, &mut broken, &mut piece[..want]) {
            Ok(0) => return Ok(broken),
            Ok(taken) => count += taken,
            Err(fault) => return Err(fault),
        }
    }
    Err(TakeFault::TooLong)
}

/// What the journal of a source carries, where the follower has taken nothing.
fn journal_of<'n, S: Source>(
    alloc: Global,
    source: &mut S,
    follower: Follower<'n>,
) -> Result<Journal<'n>, TakeFault>
    ensures { ReadsSource S.left S.is_sound source.old source.new follower.entry result }
{
    let mut follower = follower;
    let broken = match follow_source(alloc, source, &mut follower) {
        Ok(broken) => broken,
        Err(fault) => return Err(fault),
    };
    match broken {
        Some(line) => Ok(Journal::Broken(line)),
        None => Ok(followed(follower)),
    }
}

/// Reads the text of a name to its end, and gives what its journal carries over the network, from these rows, at a penalty in seconds
/// for each passenger. [`TakeFault::ReadFault`] comes only where the name could not be opened or a read failed, and
/// [`TakeFault::TooLong`] only where there are more bytes than a text may have; else `Err` is want of memory.
pub fn read_journal<'n, H: Shelf>(
    alloc: Global,
    shelf: &mut H,
    name: &str,
    net: &'n Network,
    rows: Rows,
    penalty: u64,
) -> Result<Journal<'n>, TakeFault>
    requires sized { IsSized net.now rows }
    requires free { HasNoCycle net.now rows }
    requires within { penalty ≤ PENALTY }
    ensures kept { IsKept H.files H.is_sound shelf.old shelf.new }
    ensures reads { ReadsJournal (H.files shelf.old) (H.is_sound shelf.old) name.now net.now rows penalty result }
{
    let follower = match Follower::new(alloc, net, rows, penalty) {
        Ok(follower) => follower,
        Err(NoTimes::OutOfMemory) => return Err(TakeFault::OutOfMemory),
        Err(NoTimes::Cycle(_)) => unreachable!(),
    };
    let Ok(mut source) = shelf.open(name) else {
        return Err(TakeFault::ReadFault);
    };
    journal_of(alloc, &mut source, follower)
}
