//! A text, line by line.
ghost use Rattle.std.specs.Prelude.{◌≡◌, ◌==◌, ◌+◌, ◌^◌, ◌<◌, length, position};
ghost use Rattle.dm_text.specs.Places.{Place, at_start, TakesLine};

use std::marker::Model;

/// A place at the begin of a line of a text, seen as what is left of the text and the number of the line.
#[derive(Drop)]
pub struct Lines<'t> {
    left: &'t [u8],
    line: u32,
}

impl<'t> Model for Lines<'t> {
    ghost use Rattle.std.specs.Prelude.{◌+◌, ◌^◌, ◌<◌, length};
    ghost use Rattle.dm_text.specs.Places.{Place};

    ghost Value = { Place };

    ghost view = { λ p. record { left = p.left.now; line = p.line } };

    ghost invariant = { λ p. p.line + length p.left.now < 2 ^ 32 };
}

impl<'t> Lines<'t> {
    /// The first line of a text, which is line 1.
    pub fn new(text: &'t [u8]) -> Lines<'t>
        requires { length text.now + 1 < 2 ^ 32 }
        ensures { result ≡ at_start text.now }
    {
        Lines {
            left: text,
            line: 1,
        }
    }

    /// What is left of the text.
    pub fn left(&self) -> &'t [u8]
        ensures { result.now ≡ self.now.left }
    {
        self.left
    }

    /// The number of the line that begins here, from 1.
    pub fn line(&self) -> u32
        ensures { result ≡ self.now.line }
    {
        self.line
    }

    /// The line that begins here, without its LF, and goes on behind it. It is None where the text ends before an LF
    /// comes; the place then stays.
    pub fn next_line(&mut self) -> Option<&'t [u8]>
        ensures { TakesLine self.old self.new result }
    {
        let left = self.left;
        let Some(end) = line_feed(left) else {
            return None;
        };
        self.left = &left[end + 1..];
        self.line += 1;
        Some(&left[..end])
    }
}

/// The place of the first LF.
fn line_feed(bytes: &[u8]) -> Option<usize>
    ensures { result ≡ position (λ b. b == 10) bytes.now }
{
    bytes.iter().position(|b| *b == b'\n')
}
