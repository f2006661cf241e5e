//! What is told once the program has ended.
use crate::bad::tell_bad;
use crate::feeds::tell_run;
use crate::files::{size_of_file, tell_reason};
use crate::hearing::Heard;
use crate::help::{asks_help, tell_help};
use crate::listening::Listener;
use crate::memory::tell_memory;
use crate::refused::tell_opening;
use crate::saying::{say, say_text};
use crate::usage::tell_usage;
use dm_outside::{Piece, Sink};
use dm_words::{CommandWords, FileWords, RunWords, read_words};
use std::fs::File;
use std::io;
use std::rt::Files;

/// Says on the standard error what went amiss, a line each, where something did. `words` are those without the program's name,
/// `status` is the exit status that the program ends with, and `out` heard all that it printed. The error is a fault of the write.
pub fn tell<R: Eprint + Files<File = File> + AllocGlobal, K: Sink>(
    rt: &R,
    words: &[String],
    status: u8,
    out: &Listener<K>,
) -> io::Result<()> {
    let Some(asked) = read_words(words) else {
        return tell_words(rt, words);
    };
    match (status, &asked) {
        (5, _) => say_text(rt, "the output could not be written to its end"),
        (6, _) => tell_memory(rt, &asked),
        (_, CommandWords::Run(run)) => tell_after_run(rt, words, run, out.heard()),
        (_, CommandWords::Check(check)) => {
            tell_after_text(rt, words, &check.files, check.text, status, out.heard())
        }
        (_, CommandWords::Query(query)) => {
            tell_after_text(rt, words, &query.files, query.text, status, out.heard())
        }
        (_, CommandWords::Gen(_)) => Ok(()),
    }
}

/// Says what is wrong with words that ask for nothing, or all that may be asked for.
pub(crate) fn tell_words<R: Eprint>(rt: &R, words: &[String]) -> io::Result<()> {
    if asks_help(words) {
        return tell_help(rt);
    }
    tell_usage(rt, words)?;
    say_text(rt, "`dispatcher --help` lists all commands and options")
}

/// Says what is amiss in a run.
fn tell_after_run<R: Eprint + Files<File = File> + AllocGlobal>(
    rt: &R,
    words: &[String],
    run: &RunWords<'_>,
    heard: &Heard,
) -> io::Result<()> {
    if heard.is_run() {
        return tell_run(rt, run, heard);
    }
    tell_opening(rt, words, &run.files)
}

/// Says why a text, or its journal, is not good.
fn tell_after_text<R: Eprint + Files<File = File> + AllocGlobal>(
    rt: &R,
    words: &[String],
    files: &FileWords<'_>,
    name: &str,
    status: u8,
    heard: &Heard,
) -> io::Result<()> {
    match status {
        1 => tell_bad(rt, files, name, heard.first.kept()),
        3 | 4 => {
            tell_opening(rt, words, files)?;
            tell_text(rt, name, heard.first.kept())
        }
        _ => Ok(()),
    }
}

/// Says why a text was not read, where it was not.
fn tell_text<R: Eprint + Files<File = File>>(rt: &R, name: &str, line: &[u8]) -> io::Result<()> {
    if line.strip_prefix(b"read fault ") == Some(name.as_bytes()) {
        return tell_reason(rt, name);
    }
    if line.strip_prefix(b"refused window held ").is_some() {
        return say_text(
            rt,
            "--held: the network has no such activity, or it is neither a change nor a headway with one in the other direction",
        );
    }
    if line.ends_with(b" too-long") && size_of_file(rt, name) > 536_870_912 {
        let size = size_of_file(rt, name);
        return say(
            rt,
            &[
                Piece::Text(name),
                Piece::Text(" has "),
                Piece::Number(size as u128),
                Piece::Text(" bytes, and a text may have 536870912"),
            ],
        );
    }
    Ok(())
}
