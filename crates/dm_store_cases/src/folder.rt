//! A journal in a real folder.

use dm_store::{FileStore, Journal, OpenError, Store, StoreError, VERSION};
use std::alloc::{AllocError, Global};
use std::fs::File;
use std::io;
use std::rt::Files;

/// Opens the folder, recovers, commits so many blocks of so many bytes, shows two lines, and says what came of each.
pub fn try_folder<R>(rt: R, folder: String, blocks: &str, bytes: &str) -> io::Result<()>
where
    R: Files<File = File> + Print + AllocGlobal + Copy + Drop,
{
    let (Ok(blocks), Ok(bytes)) = (blocks.parse::<u32>(), bytes.parse::<u32>()) else {
        return println!(rt; "usage");
    };
    let alloc = rt.alloc();
    let store = match FileStore::open(alloc, rt, folder, 1) {
        Ok(store) => store,
        Err(OpenError::Locked) => return println!(rt; "locked"),
        Err(OpenError::Failed) => return println!(rt; "not opened"),
        Err(OpenError::Unwritten) => return println!(rt; "not written"),
        Err(OpenError::OutOfMemory) => return println!(rt; "no memory"),
    };
    let mut journal = Journal::new(store);
    match recovered(&mut journal, alloc) {
        Ok(len) => println!(rt; "recovered {len}")?,
        Err(error) => return println!(rt; "{}", name_of(error)),
    }
    match committed(&mut journal, alloc, blocks, bytes as usize) {
        Ok(()) => println!(rt; "committed {blocks}")?,
        Err(error) => println!(rt; "{}", name_of(error))?,
    }
    match shown(&mut journal.store) {
        Ok(()) => println!(rt; "shown"),
        Err(error) => println!(rt; "{}", name_of(error)),
    }
}

/// The bytes of the blocks that are recovered; a new journal has its head then.
fn recovered<S: Store>(journal: &mut Journal<S>, alloc: Global) -> Result<usize, StoreError> {
    let blocks = journal.recover(alloc)?;
    if blocks.is_empty() {
        journal.commit(alloc, VERSION.as_bytes())?;
    }
    Ok(blocks.len())
}

fn committed<S: Store>(
    journal: &mut Journal<S>,
    alloc: Global,
    blocks: u32,
    bytes: usize,
) -> Result<(), StoreError> {
    let content = filled(alloc, bytes)?;
    for _ in 0..blocks {
        journal.commit(alloc, &content)?;
    }
    Ok(())
}

/// So many bytes of a text.
fn filled(alloc: Global, len: usize) -> Result<Vec<u8>, AllocError> {
    vec![in alloc; b'x'; len]
}

/// Puts the first reply file anew with a line, and shows another behind it.
fn shown<S: Store>(store: &mut S) -> Result<(), StoreError> {
    store.renew(0, b"first\n")?;
    store.show(0, b"second\n")
}

/// The name of an answer.
fn name_of(error: StoreError) -> &'static str {
    match error {
        StoreError::OutOfMemory => "no memory",
        StoreError::Failed => "failed",
        StoreError::Unread => "unread",
        StoreError::Full => "full",
        StoreError::NoJournal => "no journal",
        StoreError::OtherVersion => "other version",
        StoreError::Broken => "broken",
    }
}
