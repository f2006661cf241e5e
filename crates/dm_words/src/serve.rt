//! What the words of a command line ask of the live server and of its store.
ghost use Rattle.std.specs.Prelude.{ℕ, ◌≡◌, ◌∷◌, codes, map, string_bytes, MatchOption};
ghost use Rattle.dm_words.specs.Options.{batch_option};
ghost use Rattle.dm_words.specs.Queries.{HasNumber};
ghost use Rattle.dm_words.specs.Serving.{AsksLive, AsksNew, AsksNoServer, AsksServer, ServerAsked};
ghost use Rattle.dm_words.specs.ServerAsked.{live_of, server_of};
ghost use Rattle.dm_words.specs.declared.command.TheConstants.{BATCH as MOST};

use crate::command::{BATCH, RunWords, stops_of};
use crate::files::{number_or, read_files};
use crate::options::{BATCH_OPTION, Kind, Names, are_known, count_names, given, next_name};
use crate::queries::workers_of;
use dm_base::limits::FEEDS;

/// How many lines of each feed a server answers in a round where the words do not say it.
pub const STANDARD_ROUND: u64 = 1_000;

/// The word behind `serve` by which a store is begun.
const NEW: &str = "--new";

/// The words of a server: a run that goes on, and the folder of the store that keeps it.
#[derive(Drop)]
pub struct ServeWords<'a> {
    pub run: RunWords<'a>,

    /// The name of the store's folder.
    pub store: &'a str,
}

/// What words ask of a server or of its store.
#[derive(Drop)]
pub enum LiveWords<'a> {
    /// Answer the feeds as they grow, and go on with what the store holds.
    Serve(ServeWords<'a>),

    /// Begin the store, and answer the feeds as they grow.
    Begin(ServeWords<'a>),

    /// Print the text of the run that the store holds.
    Text(ServeWords<'a>),
}

/// How many lines of each feed a server answers in a round.
fn round_of(words: &[String]) -> Option<u64>
    ensures { MatchOption result ((n : ℕ) → HasNumber batch_option 1 MOST STANDARD_ROUND (map string_bytes words.now) n → ⊥)
        (λ n. HasNumber batch_option 1 MOST STANDARD_ROUND (map string_bytes words.now) n) }
{
    let Some(batch) = given(BATCH_OPTION, words) else {
        return None;
    };
    number_or(batch, 1, BATCH, STANDARD_ROUND)
}

/// What the words behind `serve` or `text` ask for.
fn read_server(words: &[String]) -> Option<ServeWords<'_>>
    ensures { MatchOption result ((asked : ServerAsked) → AsksServer (map string_bytes words.now) asked → ⊥)
        (λ server. AsksServer (map string_bytes words.now) (server_of server)) }
{
    if !are_known(Kind::Run, words) {
        return None;
    }
    let Some((folder, behind_folder)) = next_name(words) else {
        return None;
    };
    let Some((store, rest)) = next_name(behind_folder) else {
        return None;
    };
    let feeds = count_names(rest);
    if feeds == 0 || feeds > FEEDS {
        return None;
    }
    let Some(files) = read_files(folder, words) else {
        return None;
    };
    let Some(batch) = round_of(words) else {
        return None;
    };
    let Some(workers) = workers_of(words) else {
        return None;
    };
    let Some(boards) = stops_of(words) else {
        return None;
    };
    Some(ServeWords {
        run: RunWords {
            files,
            feeds: Names { words: rest },
            batch,
            workers: workers as u32,
            boards,
        },
        store,
    })
}

/// What the words behind `serve` ask for where the first of them is `--new`.
fn read_new(words: &[String]) -> Option<ServeWords<'_>>
    ensures { MatchOption result ((asked : ServerAsked) → AsksNew (map string_bytes words.now) asked → ⊥)
        (λ server. AsksNew (map string_bytes words.now) (server_of server)) }
{
    let Some((first, rest)) = words.split_first() else {
        return None;
    };
    if first.as_str() == NEW {
        return read_server(rest);
    }
    None
}

/// What the words behind `serve` ask for.
fn read_serve<'a>(command: &str, rest: &'a [String]) -> Option<LiveWords<'a>>
    requires { command.now ≡ codes "serve" }
    ensures { MatchOption result (AsksNoServer (command.now ∷ map string_bytes rest.now))
        (λ live. AsksLive (command.now ∷ map string_bytes rest.now) (live_of live)) }
{
    if let Some(server) = read_new(rest) {
        return Some(LiveWords::Begin(server));
    }
    match read_server(rest) {
        Some(server) => Some(LiveWords::Serve(server)),
        None => None,
    }
}

/// What a command word and the words behind it ask of a server or of its store.
fn read_live<'a>(command: &str, rest: &'a [String]) -> Option<LiveWords<'a>>
    ensures { MatchOption result (AsksNoServer (command.now ∷ map string_bytes rest.now))
        (λ live. AsksLive (command.now ∷ map string_bytes rest.now) (live_of live)) }
{
    if command == "serve" {
        return read_serve(command, rest);
    }
    if command == "text" {
        return match read_server(rest) {
            Some(server) => Some(LiveWords::Text(server)),
            None => None,
        };
    }
    None
}

/// What the words ask of a server or of its store, or nothing where they are in no such form. They are those without the
/// program's name, and an option is a word `--NAME=VALUE` wherever it stands behind the command word; `--new` stands right behind
/// `serve`. No command of [`crate::read_words`] has such words.
pub fn read_serve_words(words: &[String]) -> Option<LiveWords<'_>>
    ensures { MatchOption result (AsksNoServer (map string_bytes words.now))
        (λ live. AsksLive (map string_bytes words.now) (live_of live)) }
{
    let Some((command, rest)) = words.split_first() else {
        return None;
    };
    read_live(command.as_str(), rest)
}
