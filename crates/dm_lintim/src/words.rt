//! A text of column words, separated by commas, read as the columns that the words name.
ghost use Rattle.std.specs.Prelude.{◌≡◌, ◌≤◌, ◌∷◌, length, Option, Some, IfSome, IfNone, OnOk, IfOk, IfErr, MatchBool, MatchOption, option_map, true};
ghost use Rattle.dm_lintim.specs.Columns.{AreColumns, BreaksWord, FirstMissing, HasAll, IsNew, Names, ReadsColumns, StopsAtWord, has_column, words_of};
ghost use Rattle.dm_lintim.specs.Inside.Words.{AddsColumn};
ghost use Rattle.dm_lintim.specs.Pieces.{is_comma, pieces, pieces_left};
ghost use Rattle.dm_lintim.specs.declared.columns.Column.{Column};

use crate::columns::{Column, ColumnFault};
use crate::layout::{Layout, MOST};

fn column_named(known: &[Column], word: &[u8]) -> Option<Column>
    ensures found { IfSome result (λ c. Names known.now word.now (Some c)) }
    ensures none { IfNone result ((c : Column) → Names known.now word.now (Some c) → ⊥) }
{
    for column in known {
        if column.name().as_bytes() == word {
            return Some(*column);
        }
    }
    None
}

// What a word stands for: a column, or one that is passed over.
fn named(known: &[Column], word: &[u8]) -> Option<Option<Column>>
    ensures found { IfSome result (Names known.now word.now) }
    ensures none { IfNone result ((c : Option Column) → Names known.now word.now c → ⊥) }
{
    if word == "-".as_bytes() {
        return Some(None);
    }
    match column_named(known, word) {
        Some(column) => Some(Some(column)),
        None => None,
    }
}

fn stands_already(layout: &Layout, column: Option<Column>) -> bool
    ensures { MatchBool result ((c : Column) × (column ≡ Some c) × (has_column layout.now c ≡ true)) (IsNew layout.now column) }
{
    match column {
        Some(column) => layout.has(column),
        None => false,
    }
}

// Puts the column of a word at the end.
fn add_word(known: &[Column], layout: &mut Layout, word: &[u8]) -> Result<(), ColumnFault>
    requires { length layout.old ≤ MOST }
    ensures adds { OnOk result (AddsColumn known.now layout.old word.now layout.new) }
    ensures breaks { IfErr result (BreaksWord known.now layout.old word.now) }
{
    let place = layout.len();
    let Some(column) = named(known, word) else {
        return Err(ColumnFault::UnknownColumn(place));
    };
    if stands_already(layout, column) {
        return Err(ColumnFault::DoubleColumn(place));
    }
    if place == MOST {
        return Err(ColumnFault::TooMany);
    }
    layout.push(column);
    Ok(())
}

/// The first piece of a text that commas cut, and what stands behind its comma, if there is one.
pub fn first_piece(text: &[u8]) -> (&[u8], Option<&[u8]>)
    ensures { pieces is_comma text.now ≡ result.0.now ∷ pieces_left (option_map (λ s. s.now) result.1) }
{
    for (place, byte) in text.iter().enumerate() {
        if *byte == b',' {
            return (&text[..place], Some(&text[place + 1..]));
        }
    }
    (text, None)
}

fn read_words(known: &[Column], text: &[u8]) -> Result<Layout, ColumnFault>
    ensures good { IfOk result (AreColumns known.now (words_of text.now)) }
    ensures stops { IfErr result (StopsAtWord known.now (words_of text.now)) }
{
    let mut layout = Layout::new();
    let mut rest = Some(text);
    while let Some(left) = rest {
        let (word, after) = first_piece(left);
        add_word(known, &mut layout, word)?;
        rest = after;
    }
    Ok(layout)
}

fn first_missing(layout: &Layout, required: &[Column]) -> Option<Column>
    ensures { MatchOption result (HasAll layout.now required.now) (FirstMissing layout.now required.now) }
{
    for column in required {
        if !layout.has(*column) {
            return Some(*column);
        }
    }
    None
}

/// The columns that a text names, of which the known ones may stand there and the required ones must.
pub(crate) fn read_columns(
    known: &[Column],
    required: &[Column],
    text: &[u8],
) -> Result<Layout, ColumnFault>
    ensures { ReadsColumns known.now required.now text.now result }
{
    let layout = read_words(known, text)?;
    match first_missing(&layout, required) {
        Some(column) => Err(ColumnFault::MissingColumn(column)),
        None => Ok(layout),
    }
}
