//! Cases of a journal and of its recovery, in memory and in a real folder.
//!
//! It stands on dm_store for what it tries, and promises nothing. The cases are the fronts of a journal, its bytes changed one by
//! one, wrong journals, and calls that are cut short. Each is recovered.
//!
//! With no words it prints what each recovery over a store in memory comes to: the number of whole blocks, `n` where the file is
//! no journal, `o` where it is of another version, `b` where it is broken, and `x` where the store is not left as it ought to be.
//! `dispatch-tools store_cases` says the same lines by a second reading of the form.
//!
//! With the words DIR BLOCKS BYTES it opens the real folder DIR, recovers, commits BLOCKS blocks of BYTES bytes each, and says
//! what happened.
#![tactic(auto)]

mod crashes;
mod folder;
mod recovering;

use crate::crashes::{commits, recoveries, shown_left};
use crate::folder::try_folder;
use crate::recovering::{letter_of, recovered};
use dm_store::StoreError;
use std::alloc::Global;
use std::{env, io};

/// A head and two rounds, at rest.
const JOURNAL: &[u8] =
    b"+41\ndm-store 1\npenalty 3600\nplans 16\nfeeds 2\n+64\nfeed 1 1\n1 delay event 1 60 -> 1 ok\nfeed 2 1\n1 cost -> 1 cost 0\n+18\nfeed 1 0\nfeed 2 0\n~";

/// The bytes that each byte of it is changed to.
const OTHERS: [u8; 4] = [b'+', b'~', b'7', 0];

/// Journals that are new, cut short or wrong, by name.
const FILES: [(&str, &[u8]); 14] = [
    ("no-bytes", b""),
    ("closed-gate", b"~"),
    ("open-gate", b"+"),
    ("other-gate", b"x"),
    ("text", b"hello"),
    ("open-text", b"+hello"),
    ("other-version", b"+11\ndm-store 2\n~"),
    ("no-version", b"+3\nabc~"),
    ("no-number", b"+11\ndm-store 1\n+x\nabc~"),
    ("leading-zero", b"+11\ndm-store 1\n+03\nabc~"),
    ("too-long", b"+11\ndm-store 1\n+9\nabc~"),
    (
        "far-too-long",
        b"+11\ndm-store 1\n+99999999999999999999999\nabc~",
    ),
    ("closed-block", b"+11\ndm-store 1\n~3\nabc~"),
    ("behind-closed", b"+11\ndm-store 1\n~3\nabc+3\nabc~"),
];

fn main(rt: HostRuntime) -> io::Result<()> {
    let mut words = env::args(&rt)?;
    let _program = words.next();
    if let (Some(folder), Some(blocks), Some(bytes)) = (words.next(), words.next(), words.next()) {
        return try_folder(rt, folder, &blocks, &bytes);
    }
    files(&rt)?;
    failing(&rt)
}

/// Prints what fronts of the journal, changed bytes and wrong files come to.
fn files<R: Print + AllocGlobal>(rt: &R) -> io::Result<()> {
    print_line(rt, "fronts", fronts(rt.alloc()))?;
    for byte in OTHERS {
        print_line(rt, "changed", changed(rt.alloc(), byte))?;
    }
    for (name, file) in FILES {
        let letter = letter_of(recovered(rt.alloc(), file));
        println!(rt; "{name} {letter}")?;
    }
    Ok(())
}

/// Prints what calls come to that fail, each in turn, and what none comes to.
fn failing<R: Print + AllocGlobal>(rt: &R) -> io::Result<()> {
    for call in 1..6 {
        print_line(rt, "commit", commits(rt.alloc(), call))?;
    }
    for call in 1..7 {
        print_line(rt, "recover", recoveries(rt.alloc(), call))?;
    }
    for call in 1..5 {
        print_line(rt, "shown", shown_left(rt.alloc(), call))?;
    }
    Ok(())
}

fn print_line<R: Print>(rt: &R, name: &str, line: Result<String, StoreError>) -> io::Result<()> {
    match line {
        Ok(line) => println!(rt; "{name} {line}"),
        Err(_) => println!(rt; "{name} no memory"),
    }
}

/// A letter for each front of the journal, from none of its bytes to all.
fn fronts(alloc: Global) -> Result<String, StoreError> {
    let mut line = String::new(alloc);
    for len in 0..JOURNAL.len() + 1 {
        line.push(letter_of(recovered(alloc, &JOURNAL[..len])))?;
    }
    Ok(line)
}

/// A letter for each place of the journal, with this byte there.
fn changed(alloc: Global, byte: u8) -> Result<String, StoreError> {
    let mut line = String::new(alloc);
    for place in 0..JOURNAL.len() {
        let mut file = JOURNAL.to_vec(alloc)?;
        file[place] = byte;
        line.push(letter_of(recovered(alloc, &file)))?;
    }
    Ok(line)
}
