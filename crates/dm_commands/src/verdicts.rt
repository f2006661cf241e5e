//! Verdicts in print, and the lines that say why a text has none.
ghost use Rattle.std.specs.Prelude.{◌∷◌, [], codes};
ghost use Rattle.std.specs.Fmt.{decimal};
ghost use Rattle.dm_input.specs.Lines.{line_end};
ghost use Rattle.dm_outside.specs.Printing.{Puts, joined};
ghost use Rattle.dm_commands.specs.Verdicts.{verdict_line, long_text_line, unread_text_line};

use dm_check::Verdict;
use dm_outside::{Piece, Sink, WriteFault, put_pieces};

/// Puts a line of words and a number.
pub fn put_number<K: Sink>(sink: &mut K, words: &str, number: u128) -> Result<(), WriteFault>
    ensures { Puts K.taken K.faults sink.old sink.new result (joined (words.now ∷ decimal number ∷ line_end ∷ [])) }
{
    put_pieces(
        sink,
        &[Piece::Text(words), Piece::Number(number), Piece::Text("\n")],
    )
}

/// Puts a line of words and two numbers.
pub fn put_two_numbers<K: Sink>(
    sink: &mut K,
    words: &str,
    first: u128,
    second: u128,
) -> Result<(), WriteFault>
    ensures { Puts K.taken K.faults sink.old sink.new result
        (joined (words.now ∷ decimal first ∷ codes " " ∷ decimal second ∷ line_end ∷ [])) }
{
    put_pieces(
        sink,
        &[
            Piece::Text(words),
            Piece::Number(first),
            Piece::Text(" "),
            Piece::Number(second),
            Piece::Text("\n"),
        ],
    )
}

/// Puts a line with a name in it.
fn put_named<'w, K: Sink>(
    sink: &mut K,
    before: &'w str,
    name: &'w str,
    after: &'w str,
) -> Result<(), WriteFault>
    ensures { Puts K.taken K.faults sink.old sink.new result (joined (before.now ∷ name.now ∷ after.now ∷ [])) }
{
    put_pieces(
        sink,
        &[Piece::Text(before), Piece::Text(name), Piece::Text(after)],
    )
}

/// Puts the line of a verdict.
pub fn put_verdict<K: Sink>(sink: &mut K, verdict: Verdict) -> Result<(), WriteFault>
    ensures { Puts K.taken K.faults sink.old sink.new result (verdict_line verdict) }
{
    match verdict {
        Verdict::Good { entries, plans } => {
            put_two_numbers(sink, "good ", entries as u128, plans as u128)
        }
        Verdict::Bad { line, kind } => put_pieces(
            sink,
            &[
                Piece::Text("bad "),
                Piece::Number(line as u128),
                Piece::Text(" "),
                Piece::Text(kind.word()),
                Piece::Text("\n"),
            ],
        ),
    }
}

/// Puts the line of a text that is too long.
pub fn put_long_text<K: Sink>(sink: &mut K, name: &str) -> Result<(), WriteFault>
    ensures { Puts K.taken K.faults sink.old sink.new result (long_text_line name.now) }
{
    put_named(sink, "refused ", name, " too-long\n")
}

/// Puts the line of a text that could not be read.
pub fn put_unread_text<K: Sink>(sink: &mut K, name: &str) -> Result<(), WriteFault>
    ensures { Puts K.taken K.faults sink.old sink.new result (unread_text_line name.now) }
{
    put_named(sink, "read fault ", name, "\n")
}
