//! Texts of runs with the verdicts that are due on them.
//!
//! It stands on dm_check for what it tries, and on dm_words and dm_input for the network and the start rows of a case. It
//! promises nothing.
//!
//! It reads the file `cases`, one case a line: its name, the verdict that is due, its network and the penalty. Where a feed may
//! have another number of plans than the standard one, the line gives that number too. The name is that of a file under `texts`,
//! and the network is a folder under `networks`. Two verdicts ask for more than one check:
//!
//! - Where `every front truncated` is due, each front of the text must lack its next line.
//! - Where `every byte judged` is due, each byte is replaced by five others in turn. A file under `bytes` has what is due: a line
//!   for each byte.
//!
//! For each case it prints `NAME ok`, or what is told of the text instead.
//!
//! What is due comes from the rules of run texts, worked out by hand. The files under `bytes` come from `dispatch-tools judge`,
//! which reads these rules in another language.
#![tactic(auto)]

mod case;
mod judged;
mod repeating;
mod verdict;

use case::Case;
use dm_base::limits::PENALTY;
use dm_cert::limits::PLANS;
use dm_input::read_opening;
use dm_outside::{FolderShelf, Shelf, take_all};
use dm_words::{CommandWords, read_words};
use judged::{EVERY_BYTE, Terms, told_as};
use repeating::written_out;
use std::alloc::{AllocError, Global};
use std::fs::File;
use std::rt::Files;
use std::{io, str};

/// The most bytes that a file of a case may have.
const LIMIT: usize = 4_000_000;

/// The bytes of a file, or `None` where they cannot be read.
fn read_file<R: AllocGlobal + Files<File = File>>(rt: &R, path: &str) -> Option<Vec<u8>> {
    let mut source = FolderShelf::new(rt).open(path).ok()?;
    take_all(rt.alloc(), &mut source, LIMIT).ok()
}

fn main(rt: HostRuntime) -> io::Result<()> {
    let Some(listing) = read_file(&rt, "cases") else {
        return println!(rt; "there is no list of cases");
    };
    let Ok(text) = str::from_utf8(&listing) else {
        return println!(rt; "the list of cases is no text");
    };
    for line in text.lines() {
        match Case::of(rt.alloc(), line) {
            Ok(Some(case)) => report(&rt, &case)?,
            Ok(None) => {}
            Err(AllocError) => println!(rt; "no memory")?,
        }
    }
    Ok(())
}

/// Checks the text of a case, and prints how it came out.
fn report<R: Print + AllocGlobal + Files<File = File>>(rt: &R, case: &Case) -> io::Result<()> {
    let name = case.name.as_str();
    match verdict_on(rt, case) {
        Some(told) if told.as_str() == case.due.as_str() => println!(rt; "{name} ok"),
        Some(told) => println!(rt; "{name} is told {told}"),
        None => println!(rt; "{name} is not told"),
    }
}

/// What is told of the texts of a case, in print, or `None` where it cannot be read or memory is wanting.
fn verdict_on<R: AllocGlobal + Files<File = File>>(rt: &R, case: &Case) -> Option<String> {
    let alloc = rt.alloc();
    let Some(CommandWords::Check(words)) = read_words(case.words.as_slice()) else {
        return None;
    };
    let terms = Terms {
        penalty: words.files.penalty,
        plans: words.files.plans,
    };
    if terms.penalty > PENALTY || terms.plans as usize > PLANS {
        return None;
    }
    let text = written_out(alloc, read_file(rt, words.text)?)?;
    let due = due_for_bytes(rt, case)?;
    let mut shelf = FolderShelf::new(rt);
    let Ok(opened) = read_opening(alloc, &mut shelf, &words.files) else {
        return None;
    };
    told_as(
        alloc,
        &opened.net,
        &opened.rows,
        terms,
        &case.due,
        &text,
        &due,
    )
}

/// What is due for each byte of the text of a case, or nothing where the case asks for no bytes.
fn due_for_bytes<R: AllocGlobal + Files<File = File>>(rt: &R, case: &Case) -> Option<Vec<u8>> {
    if case.due.as_str() == EVERY_BYTE {
        read_file(rt, &bytes_file(rt.alloc(), case)?)
    } else {
        Some(Vec::new(rt.alloc()))
    }
}

/// The file of what is due for each byte.
fn bytes_file(alloc: Global, case: &Case) -> Option<String> {
    let name = case.name.as_str();
    format!(in alloc; "bytes/{name}").ok()
}
