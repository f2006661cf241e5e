//! What is told once a server, or the text of a store, has ended.
use crate::bad::meaning_of;
use crate::files::{size_of_file, tell_reason};
use crate::hearing::{FeedHeard, Heard, Stop};
use crate::listening::Listener;
use crate::memory::{bytes_of_run, say_memory};
use crate::refused::tell_opening;
use crate::saying::{say, say_text};
use crate::telling::tell_words;
use crate::text::{is_same, shown, word_at};
use dm_outside::{Piece, Sink};
use dm_words::{LiveWords, Names, ServeWords, read_serve_words};
use std::fs::File;
use std::io;
use std::rt::Files;
use std::str::from_utf8;

/// Why a store is refused, and what to look at first.
const REASONS: [(&str, &str); 6] = [
    (
        "missing",
        "the folder has no journal: was the store moved, or is its disk not mounted? A new store is begun by `serve --new`",
    ),
    (
        "exists",
        "the store was begun before: `serve` without --new goes on with it",
    ),
    (
        "files",
        "the store was begun over other files of the network: bring those back, or go on in a new store with `dispatch-tools carry`",
    ),
    (
        "locked",
        "another server holds the store: make the file `stop` in its folder to end that one",
    ),
    (
        "full",
        "the store has no room for more, 134217728 bytes of a journal and 536870912 of its text: go on in a new store with `dispatch-tools carry`",
    ),
    (
        "head",
        "the store was begun with another --penalty, other --plans or another number of feeds",
    ),
];

/// Says on the standard error what went amiss as words of `serve` or `text` were done, and that a server has ended. `words` are
/// those without the program's name, `status` is the exit status that the program ends with, and `out` heard all that it printed. The
/// error is a fault of the write.
pub fn tell_live<R: Eprint + Files<File = File> + AllocGlobal, K: Sink>(
    rt: &R,
    words: &[String],
    status: u8,
    out: &Listener<K>,
) -> io::Result<()> {
    match read_serve_words(words) {
        Some(LiveWords::Serve(server)) => tell_server(rt, words, &server, status, out.heard()),
        Some(LiveWords::Begin(server)) => tell_server(rt, words, &server, status, out.heard()),
        Some(LiveWords::Text(server)) => tell_end(rt, words, &server, status, out.heard()),
        None => tell_words(rt, words),
    }
}

/// Says what went amiss with a server, and that it has ended.
fn tell_server<R: Eprint + Files<File = File> + AllocGlobal>(
    rt: &R,
    words: &[String],
    server: &ServeWords<'_>,
    status: u8,
    heard: &Heard,
) -> io::Result<()> {
    tell_end(rt, words, server, status, heard)?;
    tell_ended(rt, server, status, heard)
}

/// Says why there is no run.
fn tell_end<R: Eprint + Files<File = File> + AllocGlobal>(
    rt: &R,
    words: &[String],
    server: &ServeWords<'_>,
    status: u8,
    heard: &Heard,
) -> io::Result<()> {
    match status {
        3 => {
            tell_opening(rt, words, &server.run.files)?;
            tell_refused(rt, heard.first.kept())
        }
        4 => {
            tell_opening(rt, words, &server.run.files)?;
            tell_unread(rt, server.store, heard.first.kept())
        }
        5 => say_text(
            rt,
            "the output, the journal, a reply file or a feed could not be written or synced: has the disk room?",
        ),
        6 => say_memory(rt, bytes_of_server(rt, server)),
        _ => Ok(()),
    }
}

fn bytes_of_server<R: Files<File = File> + AllocGlobal>(rt: &R, server: &ServeWords<'_>) -> u64 {
    let store = server.store;
    let journal = match format!(in rt.alloc(); "{store}/journal") {
        Ok(path) => size_of_file(rt, path.as_str()),
        Err(_) => 0,
    };
    bytes_of_run(rt, &server.run).saturating_add(journal)
}

/// Says why a store or a feed is refused, by the line that was printed.
fn tell_refused<R: Eprint>(rt: &R, line: &[u8]) -> io::Result<()> {
    if line.strip_prefix(b"refused feed ").is_some() {
        return tell_changed(rt, shown(word_at(line, 2)));
    }
    if line.strip_prefix(b"refused store ").is_some() {
        return tell_store(rt, word_at(line, 2), word_at(line, 3));
    }
    Ok(())
}

/// Says what to do where a feed has another line than was answered.
fn tell_changed<'a, R: Eprint>(rt: &R, number: &'a str) -> io::Result<()> {
    say(
        rt,
        &[
            Piece::Text("feed "),
            Piece::Text(number),
            Piece::Text(
                " was cut, replaced or changed; `dispatch-tools refill` puts its lines back from reply-",
            ),
            Piece::Text(number),
            Piece::Text(".txt of the store"),
        ],
    )
}

/// Says why a store is refused, by the two words that the line gives for that.
fn tell_store<R: Eprint>(rt: &R, reason: &[u8], detail: &[u8]) -> io::Result<()> {
    for (word, why) in &REASONS {
        if is_same(reason, word) {
            return say_text(rt, *why);
        }
    }
    if is_same(reason, "form") {
        return tell_form(rt, shown(detail));
    }
    if is_same(reason, "reply") {
        return tell_reply(rt, shown(detail));
    }
    tell_false(rt, shown(reason), meaning_of(detail))
}

/// Says what a misshapen block means.
fn tell_form<'a, R: Eprint>(rt: &R, block: &'a str) -> io::Result<()> {
    say(
        rt,
        &[
            Piece::Text("block "),
            Piece::Text(block),
            Piece::Text(
                " of the journal is not as a server writes it: bring the store back from a copy",
            ),
        ],
    )
}

/// Says what a reply file means that has more than the journal.
fn tell_reply<'a, R: Eprint>(rt: &R, number: &'a str) -> io::Result<()> {
    say(
        rt,
        &[
            Piece::Text("reply-"),
            Piece::Text(number),
            Piece::Text(".txt shows what the journal does not hold: is the journal an older copy?"),
        ],
    )
}

/// Says what is false in the run that a journal holds, and what to look at first.
fn tell_false<'a, R: Eprint>(rt: &R, line: &'a str, means: &'a str) -> io::Result<()> {
    say(
        rt,
        &[
            Piece::Text("line "),
            Piece::Text(line),
            Piece::Text(" of the text of the journal: "),
            Piece::Text(means),
            Piece::Text(
                "; are the network, its columns, the delays and the cancelled events at the start those of the store?",
            ),
        ],
    )
}

/// Says why a store or a feed could not be read, by the line that was printed.
fn tell_unread<R: Eprint + Files<File = File>>(rt: &R, store: &str, line: &[u8]) -> io::Result<()> {
    let Some(name) = line.strip_prefix(b"read fault ") else {
        return Ok(());
    };
    if name == store.as_bytes() {
        return say(
            rt,
            &[
                Piece::Text("the folder "),
                Piece::Text(store),
                Piece::Text(" must be there, and its files be read and written"),
            ],
        );
    }
    tell_reason(rt, from_utf8(name).unwrap_or(""))
}

/// Says of a server that was told to end which feeds it did not read to their ends, and that it has ended.
fn tell_ended<R: Eprint + Files<File = File>>(
    rt: &R,
    server: &ServeWords<'_>,
    status: u8,
    heard: &Heard,
) -> io::Result<()> {
    if status != 0 {
        return Ok(());
    }
    tell_feeds(rt, server.run.feeds, heard)?;
    say_text(
        rt,
        "told to end: the run is printed, and the store holds it",
    )
}

/// Says which feeds were not read to their ends.
fn tell_feeds<R: Eprint + Files<File = File>>(
    rt: &R,
    names: Names<'_>,
    heard: &Heard,
) -> io::Result<()> {
    let mut rest = names;
    for feed in heard.feeds.iter() {
        let Some((name, others)) = rest.split_first() else {
            return Ok(());
        };
        tell_feed(rt, name, feed)?;
        rest = others;
    }
    Ok(())
}

/// Says why a feed was not read to its end, where it was not.
fn tell_feed<R: Eprint + Files<File = File>>(
    rt: &R,
    name: &str,
    feed: &FeedHeard,
) -> io::Result<()> {
    match feed.stop {
        Stop::End => Ok(()),
        Stop::Fault => tell_reason(rt, name),
        Stop::Long => say(
            rt,
            &[
                Piece::Text(name),
                Piece::Text(
                    " has more than 67108864 bytes: what lies behind them was not answered",
                ),
            ],
        ),
    }
}
