//! The page of all commands, options, limits and statuses.
use crate::saying::{say, say_text};
use crate::tables::{COMMANDS, OPTIONS};
use dm_outside::Piece;
use std::io;

/// Whether the words ask for help.
pub fn asks_help(words: &[String]) -> bool {
    match words.first() {
        None => true,
        Some(first) => first.as_str() == "--help" || first.as_str() == "-h",
    }
}

/// Says the whole page.
pub fn tell_help<R: Eprint>(rt: &R) -> io::Result<()> {
    say_text(
        rt,
        "keeps a railway's timetable while feeds report delays; commands:",
    )?;
    tell_commands(rt)?;
    say_text(rt, "options, anywhere behind the command:")?;
    tell_options(rt)?;
    tell_limits(rt)
}

fn tell_commands<R: Eprint>(rt: &R) -> io::Result<()> {
    for command in &COMMANDS {
        let form = command.form;
        say(rt, &[Piece::Text("  "), Piece::Text(form)])?;
    }
    Ok(())
}

fn tell_options<R: Eprint>(rt: &R) -> io::Result<()> {
    for option in &OPTIONS {
        let pieces = [
            Piece::Text("  "),
            Piece::Text(option.example),
            Piece::Text("   "),
            Piece::Text(option.meaning),
        ];
        say(rt, &pieces)?;
    }
    Ok(())
}

/// Limits and statuses, a line each.
const LIMITS: [&str; 6] = [
    "DIR has Events-expanded.giv and Activities-expanded.giv; columns of events: id periodic-id type time weight stop -",
    "columns of activities: id periodic-id type tail head lower upper weight -",
    "at most 64 feeds of 262144 bytes, 100000 events, 500000 activities, 1000000 entries, plans of 16384 nodes",
    "a server reads 67108864 bytes of a feed, and keeps 134217728 in STORE/journal; it ends when STORE/stop is made",
    "status 0 all well, 1 a text is bad, 2 words, 3 something is refused, 4 something cannot be read,",
    "       5 the output cannot be written, 6 no memory",
];

fn tell_limits<R: Eprint>(rt: &R) -> io::Result<()> {
    for text in &LIMITS {
        say_text(rt, *text)?;
    }
    Ok(())
}
