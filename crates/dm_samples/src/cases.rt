//! Cases as lines of a file, and bytes as a line writes them.

use dm_outside::{FolderShelf, Shelf, take_all};
use std::alloc::{AllocError, Global};
use std::fs::File;
use std::rt::Files;
use std::str;

/// The most bytes that a file of cases may have.
const LIMIT: usize = 4_000_000;

/// What a letter behind a backslash stands for.
const ESCAPES: [(&str, u8); 4] = [("n", b'\n'), ("r", b'\r'), ("t", b'\t'), ("s", b' ')];

/// A case: a line `KIND WORD.. | TEXT`, where the text may be missing.
#[derive(Clone, Copy)]
pub struct Case<'a> {
    pub kind: &'a str,
    pub words: &'a str,
    pub text: &'a str,
}

impl<'a> Case<'a> {
    /// The case of a line, or `None` where the line is empty or a comment.
    pub fn of(line: &'a str) -> Option<Case<'a>> {
        if line.is_empty() || line.starts_with("#") {
            return None;
        }
        let (head, text) = line.split_once(" | ").unwrap_or((line, ""));
        let (kind, words) = head.split_once(" ").unwrap_or((head, ""));
        Some(Case { kind, words, text })
    }

    /// The word at a place behind the kind, from 0.
    pub fn word(&self, place: usize) -> &'a str {
        self.words.split_whitespace().nth(place).unwrap_or("")
    }

    /// The number at a place behind the kind, or 0.
    pub fn number(&self, place: usize) -> u64 {
        self.word(place).parse().unwrap_or(0)
    }
}

/// The bytes of a file, or `None` where they cannot be read.
pub fn read_file<R: AllocGlobal + Files<File = File>>(rt: &R, path: &str) -> Option<Vec<u8>> {
    let mut source = FolderShelf::new(rt).open(path).ok()?;
    take_all(rt.alloc(), &mut source, LIMIT).ok()
}

/// The bytes of a text in pieces with ` + ` between them. Of a piece `N*PIECE` there are N. A backslash stands before the letter of
/// a line feed (n), a carriage return (r), a tab (t) or a blank (s), or before the number of a byte with a semicolon behind it.
pub fn written_out(alloc: Global, text: &str) -> Result<Vec<u8>, AllocError> {
    let mut bytes = Vec::new(alloc);
    for piece in text.split(" + ") {
        let (times, piece) = repeated(piece);
        let piece = unescaped(alloc, piece)?;
        add_often(&mut bytes, times, &piece)?;
    }
    Ok(bytes)
}

/// How often a piece stands, and the piece.
fn repeated(piece: &str) -> (u64, &str) {
    let Some((times, rest)) = piece.split_once("*") else {
        return (1, piece);
    };
    match times.parse() {
        Ok(times) => (times, rest),
        Err(_) => (1, piece),
    }
}

fn add_often(bytes: &mut Vec<u8>, times: u64, piece: &[u8]) -> Result<(), AllocError> {
    for _time in 0..times {
        bytes.extend_from_slice(piece)?;
    }
    Ok(())
}

fn unescaped(alloc: Global, piece: &str) -> Result<Vec<u8>, AllocError> {
    let mut bytes = Vec::new(alloc);
    for (place, part) in piece.split("\\").enumerate() {
        let rest = if place > 0 {
            let (byte, rest) = escaped(part);
            bytes.push(byte)?;
            rest
        } else {
            part
        };
        bytes.extend_from_slice(rest.as_bytes())?;
    }
    Ok(bytes)
}

/// The byte that the front of a part stands for, which has a backslash before it, and the rest.
fn escaped(part: &str) -> (u8, &str) {
    for (letter, byte) in ESCAPES {
        if let Some(rest) = part.strip_prefix(letter) {
            return (byte, rest);
        }
    }
    let (number, rest) = part.split_once(";").unwrap_or(("", part));
    (number.parse().unwrap_or(b'?'), rest)
}

/// Bytes in one line: `\n` stands for a line feed.
pub fn in_one_line(alloc: Global, bytes: &[u8]) -> Result<String, AllocError> {
    let mut line = String::new(alloc);
    let text = str::from_utf8(bytes).unwrap_or("(no text)");
    for (place, part) in text.split("\n").enumerate() {
        if place > 0 {
            line.push_str("\\n")?;
        }
        line.push_str(part)?;
    }
    Ok(line)
}
