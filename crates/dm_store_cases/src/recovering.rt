//! What the recovery of a journal comes to.

use dm_store::{Journal, MemStore, StoreError, first_block};
use std::alloc::Global;

/// The number of blocks that are recovered from these bytes; `x` where the store does not hold them at rest then, or where a
/// journal that is refused was changed.
pub fn recovered(alloc: Global, file: &[u8]) -> Result<char, StoreError> {
    let store = MemStore::new(alloc, file.to_vec(alloc)?, Vec::new(alloc), Vec::new(alloc))?;
    let mut journal = Journal::new(store);
    match journal.recover(alloc) {
        Ok(blocks) if is_at_rest(journal.store.seen(), &blocks) => Ok(count(&blocks)),
        Ok(_) => Ok('x'),
        Err(error) if journal.store.seen() == file => Err(error),
        Err(_) => Ok('x'),
    }
}

pub fn letter_of(answer: Result<char, StoreError>) -> char {
    match answer {
        Ok(letter) => letter,
        Err(StoreError::NoJournal) => 'n',
        Err(StoreError::OtherVersion) => 'o',
        Err(StoreError::Broken) => 'b',
        Err(_) => '?',
    }
}

/// A number below 10 as a digit.
pub fn digit_of(number: usize) -> char {
    match number {
        0..=9 => (b'0' + number as u8) as char,
        _ => '?',
    }
}

/// The journal is the blocks and a closed gate.
fn is_at_rest(journal: &[u8], blocks: &[u8]) -> bool {
    match journal {
        [front @ .., b'~'] => front == blocks,
        _ => false,
    }
}

/// How many blocks stand there, one behind the other, as a digit.
fn count(blocks: &[u8]) -> char {
    let mut rest = blocks;
    for count in 0..10 {
        let Some((_, more)) = first_block(rest) else {
            return digit_of(count);
        };
        rest = more;
    }
    '?'
}
