//! All the bytes of a source.
ghost use Rattle.std.specs.Prelude.{◌≡◌, ◌+◌, ◌-◌, ◌<◌, ◌≤◌, length, vec_len, IfOk, OnOk, IfSome, IsErrOf, OnErr};
ghost use Rattle.std.specs.Io.KnownBytes.{Consumes, IsAtEnd};
ghost use Rattle.dm_outside.specs.Faults.{HasRisen};
ghost use Rattle.dm_outside.specs.Taking.{TakesAtMost, TakesCount, TakesPiece, AnswersLimit};

use crate::{Source, TakeFault};
use std::alloc::{AllocError, Global};

/// How many bytes one read is asked for at most.
const PIECE: usize = 65536;

/// Room for one read.
fn make_piece(alloc: Global, size: usize) -> Result<Vec<u8>, AllocError>
    ensures { IfOk result (λ piece. vec_len piece ≡ size) }
{
    vec![in alloc; 0u8; size]
}

/// Takes what one read gives, and puts it behind the bytes. A fault or want of memory loses what the
/// read gave.
fn take_piece<S: Source>(
    source: &mut S,
    bytes: &mut Vec<u8>,
    piece: &mut [u8],
) -> Result<usize, TakeFault>
    requires { 0 < length piece.old }
    ensures ok { IfOk result (TakesPiece (S.left source.old) (S.left source.new) bytes.old.items bytes.new.items) }
    ensures short { IfOk result (λ count. count ≤ length piece.old) }
    ensures err { OnErr result (TakesAtMost (length piece.old) (S.left source.old) (S.left source.new)) }
    ensures risen { IsErrOf result TakeFault.ReadFault → HasRisen (S.faults source.old) (S.faults source.new) }
    ensures unsound { IsErrOf result TakeFault.ReadFault → S.is_sound source.old → ⊥ }
    ensures not_long { IsErrOf result TakeFault.TooLong → ⊥ }
    ensures later { S.faults source.old ≤ S.faults source.new }
    ensures stays_sound { S.is_sound source.old → S.is_sound source.new }
{
    let Ok(count) = source.read(piece) else {
        return Err(TakeFault::ReadFault);
    };
    let Ok(()) = bytes.extend_from_slice(&piece[..count]) else {
        return Err(TakeFault::OutOfMemory);
    };
    Ok(count)
}

/// Takes all the bytes that are left, if they are at most `limit`. `ReadFault` comes only where a
/// read failed and the source did not tell that it is sound. `TooLong` comes exactly where more
/// than `limit` bytes are left and no read failed: `limit + 1` bytes are then taken. After
/// `ReadFault` or `OutOfMemory` a suffix of what was left is left.
pub fn take_all<S: Source>(
    alloc: Global,
    source: &mut S,
    limit: usize,
) -> Result<Vec<u8>, TakeFault>
    ensures bytes { IfOk result (λ bytes. Consumes (S.left source.old) (S.left source.new) bytes.items) }
    ensures end { OnOk result (IsAtEnd (S.left source.new)) }
    ensures short { IfOk result (λ bytes. vec_len bytes ≤ limit) }

    // A read fault has its cause: a read failed, of a source that did not tell that none would.
    ensures risen { IsErrOf result TakeFault.ReadFault → HasRisen (S.faults source.old) (S.faults source.new) }
    ensures unsound { IsErrOf result TakeFault.ReadFault → S.is_sound source.old → ⊥ }

    // Too long exactly above the limit, and then one byte more than the limit was taken.
    ensures exact { IfSome (S.left source.old) (AnswersLimit result limit) }
    ensures too_long { IsErrOf result TakeFault.TooLong → TakesCount (limit + 1) (S.left source.old) (S.left source.new) }

    // Never more is taken, and what is left is a suffix of what was.
    ensures err { OnErr result (TakesAtMost (limit + 1) (S.left source.old) (S.left source.new)) }

    ensures later { S.faults source.old ≤ S.faults source.new }
    ensures stays_sound { S.is_sound source.old → S.is_sound source.new }
{
    let Ok(mut piece) = make_piece(alloc, PIECE) else {
        return Err(TakeFault::OutOfMemory);
    };
    let mut bytes = Vec::new(alloc);
    while bytes.len() <= limit {
        let room = limit - bytes.len();
        let want = if room < PIECE { room + 1 } else { PIECE };
        match take_piece(source, &mut bytes, &mut piece[..want]) {
            Ok(0) => return Ok(bytes),
            Ok(_) => {}
            Err(fault) => return Err(fault),
        }
    }
    Err(TakeFault::TooLong)
}
