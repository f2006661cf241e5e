//! Lines, words and numbers in bytes.
use dm_base::read_whole;
use memchr::memchr;
use std::str::from_utf8;

/// How many bytes of a text are shown.
const SHOWN_BYTES: usize = 80;

/// What stands before the first such byte and what stands behind it, or all of it and nothing.
pub fn cut(text: &[u8], at: u8) -> (&[u8], &[u8]) {
    match memchr(at, text) {
        Some(place) => split_behind(text, place),
        None => (text, &[]),
    }
}

/// What stands before a place and what stands behind it.
fn split_behind(text: &[u8], place: usize) -> (&[u8], &[u8]) {
    let front = text.get(..place).unwrap_or_default();
    let rest = text.get(place..).unwrap_or_default();
    (front, rest.get(1..).unwrap_or_default())
}

/// The part of this place, from 0, where parts stand between such bytes.
pub fn part_at(text: &[u8], at: u8, place: usize) -> &[u8] {
    let mut rest = text;
    for _ in 0..place {
        let (_, behind) = cut(rest, at);
        rest = behind;
    }
    let (part, _) = cut(rest, at);
    part
}

/// The word of this place, from 0, in a line with one blank between words.
pub fn word_at(line: &[u8], place: usize) -> &[u8] {
    part_at(line, b' ', place)
}

/// The line of this number, from 1, without its LF, and nothing where the text has none.
pub fn line_at(text: &[u8], number: u64) -> &[u8] {
    let mut rest = text;
    for _ in 1..number {
        let (_, behind) = cut(rest, b'\n');
        rest = behind;
    }
    let (line, _) = cut(rest, b'\n');
    line
}

/// Whether a byte stands in the text.
pub fn has(text: &[u8], wanted: u8) -> bool {
    text.iter().any(|byte| *byte == wanted)
}

/// Whether a capital letter stands in the text.
pub fn has_capital(text: &[u8]) -> bool {
    text.iter().any(|byte| byte.is_ascii_uppercase())
}

/// Whether two texts are the same.
pub fn is_same(text: &[u8], other: &str) -> bool {
    text == other.as_bytes()
}

/// The number that a word spells, where it is one.
pub fn number(word: &[u8]) -> Option<u64> {
    read_whole(word).ok()
}

/// Whether all bytes are those of a text on one line.
fn is_plain(bytes: &[u8]) -> bool {
    bytes.iter().all(|byte| *byte >= b' ' && *byte != 127)
}

/// The front of a text as it is shown.
pub fn shown(bytes: &[u8]) -> &str {
    let front = bytes.get(..SHOWN_BYTES).unwrap_or(bytes);
    if !is_plain(front) {
        return "(control characters)";
    }
    from_utf8(front).unwrap_or("(no text)")
}
