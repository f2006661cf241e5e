//! Texts that no run reads or prints by itself, as data.
//!
//! Each line of the file `cases` is a case: a kind with its words, and a text. The program prints the line and what comes of it.
//! Numbers, lines, messages, records of files, plans and rounds are read, and printed again where they can be. Feeds come in
//! pieces of which reads fail. Journals are followed in pieces. Feeds are answered in parts. Boards are kept in files.
//!
//! The kind `fronts` tries each front of a text in place of the whole, `changed` the text with each byte changed, and `cuts` each two
//! parts. What comes several times in a row is printed once. What is due was worked out by hand from the formats.
//!
//! It stands on the crates that it calls, and on dm_samples for cases and for the connection at one station. It promises nothing.
#![tactic(auto)]

mod answers;
mod boards;
mod feeding;
mod feeds;
mod files;
mod journals;
mod kinds;
mod lines;
mod long;
mod plans;
mod rounds;
mod told;

use boards::told_of_board;
use dm_samples::{Case, Failure, read_file, report};
use kinds::told_of;
use std::fs::File;
use std::rt::Files;
use std::{io, str};

fn main(rt: HostRuntime) -> io::Result<()> {
    let Some(listing) = read_file(&rt, "cases") else {
        return println!(rt; "there is no list of cases");
    };
    let Ok(text) = str::from_utf8(&listing) else {
        return println!(rt; "the list of cases is no text");
    };
    for line in text.lines() {
        if let Some(case) = Case::of(line) {
            println!(rt; "{line}")?;
            print_told(rt, &case)?;
        }
    }
    Ok(())
}

/// Prints what comes of a case.
fn print_told<R: Print + AllocGlobal + Files<File = File> + Copy + Drop>(
    rt: R,
    case: &Case<'_>,
) -> io::Result<()> {
    let told = if case.kind == "board" {
        told_of_board(rt, case)
    } else {
        told_of(rt.alloc(), case)
    };
    match told {
        Ok(told) => println!(rt; "  {told}"),
        Err(failure) => report(&rt, case.kind, Err::<(), Failure>(failure)),
    }
}
