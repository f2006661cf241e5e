//! Pieces of text, and the page that gathers them.
ghost use Rattle.std.specs.Prelude.{◌≡◌, ◌+◌, ◌≤◌, List, [], ◌∷◌, ◌++◌, codes, length, take, OnOk};
ghost use Rattle.std.specs.Fmt.{decimal};
ghost use Rattle.dm_outside.specs.Printing.{Puts, Prints, joined, pieces_text, piece_text};

use crate::{Sink, WriteFault, put_all};
use itoa::Buffer;
use std::marker::Model;

/// A piece of printed text.
#[derive(Clone, Copy)]
pub enum Piece<'a> {
    /// A text as it stands.
    Text(&'a str),
    /// A number in decimal digits.
    Number(u128),
}

/// How many bytes a page holds.
const PAGE: usize = 4096;

/// Bytes that wait for a sink, so that a sink is called once for many pieces. A text is printed
/// through one page, which is made at its start, lent to each printer and finished at its end. After
/// a fault neither the page nor the sink is used again for that text.
#[derive(Drop)]
pub struct Page {
    bytes: [u8; PAGE],
    held: usize,
}

impl Model for Page {
    ghost use Rattle.std.specs.Prelude.{List, ℕ, take, ◌≤◌};

    ghost Value = { List ℕ };

    ghost view = { λ page. take page.held page.bytes };

    ghost invariant = { λ page. page.held ≤ 4096 };
}

/// Writes the bytes into the buffer from a place on.
fn copy_to(buffer: &mut [u8], at: usize, bytes: &[u8])
    requires { at + length bytes.now ≤ length buffer.old }
    ensures { take (at + length bytes.now) buffer.new ≡ take at buffer.old ++ bytes.now }
{
    buffer[at..at + bytes.len()].copy_from_slice(bytes);
}

impl Page {
    /// An empty page.
    pub fn new() -> Page
        ensures { result ≡ [] }
    {
        Page {
            bytes: [0; PAGE],
            held: 0,
        }
    }

    // How many bytes still fit.
    fn room(&self) -> usize
        ensures { result + length self.now ≡ 4096 }
    {
        PAGE - self.held
    }

    // Writes the text behind what is held.
    fn hold(&mut self, text: &[u8])
        requires { length self.old + length text.now ≤ 4096 }
        ensures { self.new ≡ self.old ++ text.now }
    {
        copy_to(&mut self.bytes, self.held, text);
        self.held += text.len();
    }

    // Empties the page into the sink.
    fn turn<K: Sink>(&mut self, sink: &mut K) -> Result<(), WriteFault>
        ensures puts { Puts K.taken K.faults sink.old sink.new result self.old }
        ensures empty { OnOk result (self.new ≡ []) }
    {
        let Ok(()) = put_all(sink, &self.bytes[..self.held]) else {
            return Err(WriteFault);
        };
        self.held = 0;
        Ok(())
    }

    /// Prints these bytes behind all that was printed before. A write fault comes only where a write
    /// failed.
    pub fn put_bytes<K: Sink>(&mut self, sink: &mut K, text: &[u8]) -> Result<(), WriteFault>
        ensures { Prints K.taken K.faults sink.old sink.new self.old self.new result text.now }
    {
        if text.len() <= self.room() {
            self.hold(text);
            return Ok(());
        }
        self.put_past(sink, text)
    }

    // Prints bytes behind all that was printed before, through a page that is emptied first. It stays a
    // call, so that what is inlined above it is small.
    #[inline(never)]
    fn put_past<K: Sink>(&mut self, sink: &mut K, text: &[u8]) -> Result<(), WriteFault>
        ensures { Prints K.taken K.faults sink.old sink.new self.old self.new result text.now }
    {
        let Ok(()) = self.turn(sink) else {
            return Err(WriteFault);
        };
        if text.len() <= PAGE {
            self.hold(text);
            return Ok(());
        }
        let Ok(()) = put_all(sink, text) else {
            return Err(WriteFault);
        };
        Ok(())
    }

    /// Prints the piece behind all that was printed before. A write fault comes only where a write
    /// failed.
    fn put_piece<K: Sink>(&mut self, sink: &mut K, piece: Piece<'_>) -> Result<(), WriteFault>
        ensures { Prints K.taken K.faults sink.old sink.new self.old self.new result (piece_text piece.entry) }
    {
        match piece {
            Piece::Text(text) => self.put_bytes(sink, text.as_bytes()),
            Piece::Number(number) => self.put_digits(sink, number),
        }
    }

    // Prints a number behind all that was printed before. A write fault comes only where a write failed.
    fn put_digits<K: Sink>(&mut self, sink: &mut K, number: u128) -> Result<(), WriteFault>
        ensures { Prints K.taken K.faults sink.old sink.new self.old self.new result (decimal number) }
    {
        let mut digits = Buffer::new();
        self.put_bytes(sink, digits.format(number).as_bytes())
    }

    /// Prints the pieces, one after another, behind all that was printed before. A write fault comes
    /// only where a write failed.
    pub fn put<K: Sink>(&mut self, sink: &mut K, pieces: &[Piece<'_>]) -> Result<(), WriteFault>
        ensures { Prints K.taken K.faults sink.old sink.new self.old self.new result (pieces_text pieces.now) }
    {
        for piece in pieces {
            let Ok(()) = self.put_piece(sink, *piece) else {
                return Err(WriteFault);
            };
        }
        Ok(())
    }

    /// Prints words and a number behind all that was printed before. A write fault comes only where a
    /// write failed.
    pub fn put_number<K: Sink>(
        &mut self,
        sink: &mut K,
        words: &str,
        number: u128,
    ) -> Result<(), WriteFault>
        ensures { Prints K.taken K.faults sink.old sink.new self.old self.new result (joined (words.now ∷ decimal number ∷ [])) }
    {
        let Ok(()) = self.put_bytes(sink, words.as_bytes()) else {
            return Err(WriteFault);
        };
        self.put_digits(sink, number)
    }

    /// Prints words and two numbers with a space between, behind all that was printed before. A write
    /// fault comes only where a write failed. It is inlined, so that words that a caller writes down
    /// are stored and not copied.
    #[inline(always)]
    pub fn put_pair<K: Sink>(
        &mut self,
        sink: &mut K,
        words: &str,
        pair: (u128, u128),
    ) -> Result<(), WriteFault>
        ensures { Prints K.taken K.faults sink.old sink.new self.old self.new result
            (joined (words.now ∷ decimal pair.0 ∷ codes " " ∷ decimal pair.1 ∷ [])) }
    {
        let Ok(()) = self.put_number(sink, words, pair.0) else {
            return Err(WriteFault);
        };
        self.put_number(sink, " ", pair.1)
    }

    /// Hands the rest of the text to the sink: the end of a text. A write fault comes only where a
    /// write failed.
    pub fn finish<K: Sink>(mut self, sink: &mut K) -> Result<(), WriteFault>
        ensures { Puts K.taken K.faults sink.old sink.new result self }
    {
        self.turn(sink)
    }
}
