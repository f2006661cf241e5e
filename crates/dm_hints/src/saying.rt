//! Lines on the standard error. Each line is one call, so a function has one way out for it, and not one for each piece.
use dm_outside::Piece;
use std::io;

/// Says a line: a text behind `dispatcher: `.
pub fn say_text<R: Eprint>(rt: &R, text: &str) -> io::Result<()> {
    say(rt, &[Piece::Text(text)])
}

/// Says a line: these pieces behind `dispatcher: `.
pub fn say<R: Eprint>(rt: &R, pieces: &[Piece<'_>]) -> io::Result<()> {
    eprint!(rt; "dispatcher: ")?;
    say_pieces(rt, pieces)
}

/// Says these pieces of a line of a text.
pub fn say_line<R: Eprint>(rt: &R, number: u64, pieces: &[Piece<'_>]) -> io::Result<()> {
    eprint!(rt; "dispatcher: line {number}: ")?;
    say_pieces(rt, pieces)
}

/// Says these pieces of a word of the command.
pub fn say_word<R: Eprint>(rt: &R, place: usize, pieces: &[Piece<'_>]) -> io::Result<()> {
    eprint!(rt; "dispatcher: word {place}: ")?;
    say_pieces(rt, pieces)
}

/// Says these pieces of a line of a file.
pub fn say_at<R: Eprint>(rt: &R, file: &str, number: u64, pieces: &[Piece<'_>]) -> io::Result<()> {
    eprint!(rt; "dispatcher: {file} line {number}: ")?;
    say_pieces(rt, pieces)
}

/// Says pieces, and ends the line.
fn say_pieces<R: Eprint>(rt: &R, pieces: &[Piece<'_>]) -> io::Result<()> {
    for piece in pieces {
        say_piece(rt, *piece)?;
    }
    eprintln!(rt; "")
}

fn say_piece<R: Eprint>(rt: &R, piece: Piece<'_>) -> io::Result<()> {
    match piece {
        Piece::Text(text) => eprint!(rt; "{text}"),
        Piece::Number(number) => eprint!(rt; "{number}"),
    }
}
