//! Blocks in the bytes of a journal.
ghost use Rattle.std.specs.Prelude.{◌≡◌, ◌+◌, ◌<◌, ◌≤◌, ◌++◌, ℕ, List, [], ◌∷◌, length, IfOk, IfSome};
ghost use Rattle.std.specs.List.{flat_map};
ghost use Rattle.dm_store.specs.Blocks.{ReadsBlock, Stands, block, behind_gate, closed_gate, is_crash_end, refusal, IsOfJournal};

use crate::StoreError;
use dm_text::{behind, number_in_front};
use itoa::Buffer;
use std::alloc::{AllocError, Global};

/// The gate of a block that counts.
pub const OPEN_GATE: u8 = b'+';

/// The gate that stands where no block counts yet.
pub const CLOSED_GATE: u8 = b'~';

/// The line that the first block of a journal begins with.
pub const VERSION: &str = "dm-store 1\n";

/// The content of the block in front, and what stands behind the block. It is None where no whole block with an open gate
/// stands there.
pub fn first_block(file: &[u8]) -> Option<(&[u8], &[u8])>
    ensures { ReadsBlock file.now result }
{
    let most = file.len();
    let rest = behind(file, "+")?;
    let (length, rest) = number_in_front(rest, most as u128)?;
    let rest = behind(rest, "\n")?;
    rest.split_at_checked(length as usize)
}

/// How many bytes the blocks in front have.
pub fn blocks_len(file: &[u8]) -> usize
    ensures length { (contents : List (List ℕ)) → Stands contents file.now → result ≡ length (flat_map block contents) }
    ensures within { result ≤ length file.now }
{
    let mut rest = file;
    while let Some((_, more)) = first_block(rest) {
        rest = more;
    }
    file.len() - rest.len()
}

/// What stands behind the gate of a block with this content, and a closed gate behind it.
pub fn staged(alloc: Global, content: &[u8]) -> Result<Vec<u8>, AllocError>
    requires { length content.now < 134217728 }
    ensures { IfOk result (λ bytes. bytes.items ≡ behind_gate content.now ++ closed_gate ∷ []) }
{
    let mut digits = Buffer::new();
    let digits = digits.format(content.len()).as_bytes();
    let mut bytes = Vec::with_capacity(alloc, digits.len() + content.len() + 2)?;
    bytes.extend_from_slice(digits)?;
    bytes.push(b'\n')?;
    bytes.extend_from_slice(content)?;
    bytes.push(CLOSED_GATE)?;
    Ok(bytes)
}

// Whether a crash may leave this end. `new` says that no block stands before it.
fn is_crash_end(new: bool, end: &[u8]) -> bool
    ensures { result ≡ is_crash_end new end.now }
{
    let [gate, next, ..] = end else {
        return true;
    };
    if *gate == OPEN_GATE {
        return false;
    }
    !new || *gate == CLOSED_GATE || next.is_ascii_digit()
}

// Why a journal with these blocks and this end is left as it stands.
pub fn end_refusal(blocks: &[u8], end: &[u8]) -> Option<StoreError>
    ensures told { (contents : List (List ℕ)) → blocks.now ≡ flat_map block contents → result ≡ refusal contents end.now }
    ensures known { IfSome result IsOfJournal }
{
    let Some((first, _)) = first_block(blocks) else {
        return if is_crash_end(true, end) {
            None
        } else {
            Some(StoreError::NoJournal)
        };
    };
    if !first.starts_with(VERSION.as_bytes()) {
        return Some(StoreError::OtherVersion);
    }
    if is_crash_end(false, end) {
        None
    } else {
        Some(StoreError::Broken)
    }
}

/// Why the file of a journal is left as it stands, where its end is not repaired.
pub fn refusal(file: &[u8]) -> Option<StoreError>
    ensures told { (contents : List (List ℕ)) (stands : Stands contents file.now) → result ≡ refusal contents stands.end }
    ensures known { IfSome result IsOfJournal }
{
    let end = blocks_len(file);
    end_refusal(&file[..end], &file[end..])
}
