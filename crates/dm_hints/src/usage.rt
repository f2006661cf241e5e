//! What is wrong with words that ask for nothing.
use crate::files::value_or;
use crate::saying::{say, say_text, say_word};
use crate::tables::{
    ACTIVITY_WORDS, BATCH, CommandTable, EVENT_WORDS, OPTIONS, OptionTable, OptionValue,
    command_of, option_of,
};
use crate::text::{number, part_at, shown};
use dm_lintim::{ColumnFault, Columns};
use dm_outside::Piece;
use std::io;

/// What the numbers of each command are to be.
const WANTED: [(&str, &str); 3] = [
    (
        "window",
        "window takes two times, FROM and TO, of 0 to 1000000000 seconds, TO no earlier than FROM, and a BUDGET of 1 to 16384 nodes",
    ),
    (
        "rules",
        "rules takes a RULE, never, always or 0 to 1000000 seconds, and a BUDGET of 1 to 16384 nodes",
    ),
    (
        "journey",
        "journey takes two stops, FROM and TO, of 0 to 4294967295, and a time AFTER of 0 to 2000000000 seconds",
    ),
];

/// The word behind `serve` by which a store is begun.
const NEW: &str = "--new";

/// Says the first thing that is wrong with the words.
pub fn tell_usage<R: Eprint>(rt: &R, words: &[String]) -> io::Result<()> {
    let Some((command, rest)) = words.split_first() else {
        return Ok(());
    };
    let Some(table) = command_of(command.as_str()) else {
        let name = command.as_str();
        return say_word(
            rt,
            1,
            &[
                Piece::Text("\""),
                Piece::Text(name),
                Piece::Text(
                    "\" is no command; commands are run, serve, text, check, gen, follow, window, rules and journey",
                ),
            ],
        );
    };
    for (place, word) in rest.iter().enumerate() {
        if place == 0 && table.name == "serve" && word.as_str() == NEW {
            continue;
        }
        if is_wrong(table, rest.get(..place).unwrap_or_default(), word.as_str()) {
            return tell_word(rt, table, place.saturating_add(2), word.as_str());
        }
    }
    tell_names(rt, table, rest)
}

fn is_given(option: OptionTable, words: &[String]) -> bool {
    words
        .iter()
        .any(|word| word.as_str().strip_prefix(option.name).is_some())
}

/// Whether something is wrong with a word behind others.
fn is_wrong(table: CommandTable, before: &[String], word: &str) -> bool {
    if word.is_empty() {
        return true;
    }
    if word.strip_prefix("-").is_none() {
        return false;
    }
    let Some(option) = option_of(word) else {
        return true;
    };
    option.bit & table.options == 0 || is_given(option, before) || !has_value(option, word)
}

/// Whether an option has a value that it may have, or none where it takes none; of lists only that they are not empty.
fn has_value(option: OptionTable, word: &str) -> bool {
    let Some(value) = word.strip_prefix(option.name) else {
        return false;
    };
    match option.value {
        OptionValue::Number { least, most } => is_within(least, most, value),
        OptionValue::Text => !value.is_empty(),
        OptionValue::Nothing => value.is_empty(),
    }
}

fn is_within(least: u64, most: u64, value: &str) -> bool {
    match number(value.as_bytes()) {
        Some(value) => least <= value && value <= most,
        None => false,
    }
}

/// Says what is wrong with a word.
fn tell_word<R: Eprint>(rt: &R, table: CommandTable, place: usize, word: &str) -> io::Result<()> {
    if word.is_empty() {
        return say(
            rt,
            &[
                Piece::Text("word "),
                Piece::Number(place as u128),
                Piece::Text(" is empty"),
            ],
        );
    }
    if word == NEW {
        return say_word(
            rt,
            place,
            &[Piece::Text("--new stands right behind `serve` alone")],
        );
    }
    if let Some(option) = option_of(word) {
        return tell_option(rt, table, place, option, word);
    }
    if let Some(option) = option_without_value(word) {
        return say_word(
            rt,
            place,
            &[
                Piece::Text("\""),
                Piece::Text(word),
                Piece::Text("\" wants a value, as "),
                Piece::Text(option.example),
            ],
        );
    }
    say_word(
        rt,
        place,
        &[
            Piece::Text("\""),
            Piece::Text(word),
            Piece::Text("\" is no option; `dispatcher --help` lists them"),
        ],
    )
}

/// The option that a word is but for its value.
fn option_without_value(word: &str) -> Option<OptionTable> {
    for option in &OPTIONS {
        if option.name.strip_prefix(word) == Some("=") {
            return Some(*option);
        }
    }
    None
}

/// Says what is wrong with an option.
fn tell_option<R: Eprint>(
    rt: &R,
    table: CommandTable,
    place: usize,
    option: OptionTable,
    word: &str,
) -> io::Result<()> {
    let name = option.name.strip_suffix("=").unwrap_or(option.name);
    if option.bit & table.options == 0 {
        return say_word(
            rt,
            place,
            &[
                Piece::Text("`"),
                Piece::Text(table.name),
                Piece::Text("` has no option "),
                Piece::Text(name),
            ],
        );
    }
    tell_value(rt, place, name, option, word)
}

/// Says what is wrong with an option that the command has, or with its value.
fn tell_value<R: Eprint>(
    rt: &R,
    place: usize,
    name: &str,
    option: OptionTable,
    word: &str,
) -> io::Result<()> {
    if has_value(option, word) {
        return say_word(
            rt,
            place,
            &[Piece::Text(name), Piece::Text(" is given twice")],
        );
    }
    if word.strip_prefix(option.name) == Some("") {
        return say_word(
            rt,
            place,
            &[
                Piece::Text(name),
                Piece::Text(" wants a value, as "),
                Piece::Text(option.example),
            ],
        );
    }
    tell_limits(rt, place, name, option.value)
}

/// Says which values an option takes.
fn tell_limits<R: Eprint>(rt: &R, place: usize, name: &str, value: OptionValue) -> io::Result<()> {
    let OptionValue::Number { least, most } = value else {
        return say_word(
            rt,
            place,
            &[Piece::Text(name), Piece::Text(" takes no value")],
        );
    };
    say_word(
        rt,
        place,
        &[
            Piece::Text(name),
            Piece::Text(" takes "),
            Piece::Number(least as u128),
            Piece::Text(" to "),
            Piece::Number(most as u128),
        ],
    )
}

/// Whether the names of a command end with those of feeds.
fn has_feeds(table: CommandTable) -> bool {
    table.options & BATCH != 0
}

/// Says what is wrong with the names, where it is their number, or else with the lists.
fn tell_names<R: Eprint>(rt: &R, table: CommandTable, words: &[String]) -> io::Result<()> {
    let names = words
        .iter()
        .filter(|word| word.as_str().strip_prefix("-").is_none())
        .count();
    let form = table.form;
    if names < table.least {
        return say(rt, &[Piece::Text("names are missing: "), Piece::Text(form)]);
    }
    if names > table.most && has_feeds(table) {
        let feeds = names.saturating_sub(table.least).saturating_add(1);
        return say(
            rt,
            &[
                Piece::Number(feeds as u128),
                Piece::Text(" feeds, at most 64"),
            ],
        );
    }
    if names > table.most {
        return say(
            rt,
            &[
                Piece::Number(names as u128),
                Piece::Text(" names are too many: "),
                Piece::Text(form),
            ],
        );
    }
    if table.name == "gen" {
        return say_text(
            rt,
            "gen takes a NUMBER of 0 to 18446744073709551615 and 1 to 2000 TRAINS",
        );
    }
    tell_lists(rt, table, words)
}

/// Says what is wrong with the column words, or else with the numbers of a window, a rule or a journey or the boards
/// of a run.
fn tell_lists<R: Eprint>(rt: &R, table: CommandTable, words: &[String]) -> io::Result<()> {
    let events = value_or("--event-columns=", words, EVENT_WORDS);
    let activities = value_or("--activity-columns=", words, ACTIVITY_WORDS);
    if let Err(fault) = Columns::read(events, ACTIVITY_WORDS) {
        return tell_columns(rt, "--event-columns", EVENT_WORDS, events, fault);
    }
    if let Err(fault) = Columns::read(EVENT_WORDS, activities) {
        return tell_columns(rt, "--activity-columns", ACTIVITY_WORDS, activities, fault);
    }
    say_text(rt, wanted(table.name, words))
}

/// What the numbers of a command, or else the boards of a run, are to be.
fn wanted(command: &str, words: &[String]) -> &'static str {
    if command == "window" && !value_or("--held=", words, "").is_empty() {
        return "window takes two times, FROM and TO, of 0 to 1000000000 seconds, TO no earlier than FROM, and a BUDGET of 1 to 16384 nodes; --held takes 1 to 4096 different numbers of activities, as --held=5,6";
    }
    for (name, numbers) in &WANTED {
        if command == *name {
            return *numbers;
        }
    }
    "--boards takes 1 to 64 different numbers of stops, as --boards=4,2"
}

/// Says what is wrong with the column words of an option.
fn tell_columns<'a, R: Eprint>(
    rt: &R,
    option: &'a str,
    known: &'a str,
    given: &'a str,
    fault: ColumnFault,
) -> io::Result<()> {
    match fault {
        ColumnFault::UnknownColumn(place) => say(
            rt,
            &[
                Piece::Text(option),
                Piece::Text(": \""),
                Piece::Text(shown(part_at(given.as_bytes(), b',', place))),
                Piece::Text("\" is no column; columns are "),
                Piece::Text(known),
                Piece::Text(" and - for one to pass over"),
            ],
        ),
        ColumnFault::DoubleColumn(place) => say(
            rt,
            &[
                Piece::Text(option),
                Piece::Text(": \""),
                Piece::Text(shown(part_at(given.as_bytes(), b',', place))),
                Piece::Text("\" stands twice"),
            ],
        ),
        ColumnFault::TooMany => say(
            rt,
            &[Piece::Text(option), Piece::Text(": at most 16 columns")],
        ),
        ColumnFault::MissingColumn(column) => tell_missing(rt, option, column.name()),
    }
}

/// Says that a column which the file must have is missing.
fn tell_missing<'a, R: Eprint>(rt: &R, option: &'a str, column: &'a str) -> io::Result<()> {
    say(
        rt,
        &[
            Piece::Text(option),
            Piece::Text(": \""),
            Piece::Text(column),
            Piece::Text("\" is missing, which the file must have"),
        ],
    )
}
