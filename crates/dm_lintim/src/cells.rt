//! The cells of a record, and the numbers that they give.
ghost use Rattle.std.specs.Prelude.{◌≡◌, ◌≤◌, ◌<◌, ◌*◌, ◌^◌, [], Some, slice_index_or, IsTrue, OnOk, IfOk, IfErr, IfSome, MatchResult};
ghost use Rattle.dm_base.specs.Numbers.{IsDigits, IsMilliText, milli_value, whole_value};
ghost use Rattle.dm_lintim.specs.Files.{IsNoWord, IsNumber, RefusesField, RefusesNumber, largest_of};
ghost use Rattle.dm_lintim.specs.Pieces.{cell_of, is_passed_over};
ghost use Rattle.dm_lintim.specs.Inside.Reader.{begins_with_digit, cells_of};
ghost use Rattle.dm_lintim.specs.Inside.Values.{HoldsNumber, IsNumberUnder, units_of};

use crate::columns::{Column, LARGEST_ID};
use crate::digits::usual_number;
use crate::fault::FileKind;
use crate::field::cell_of;
use csv::ByteRecord;
use dm_base::limits::{BOUND, DELAY, TIME, WEIGHT};
use dm_base::{NumFault, read_milli, read_whole};

/// The field at a place as it stands, its cell not looked for yet, or the empty text past the last one.
pub(crate) fn field_at(fields: &ByteRecord, place: usize) -> &[u8]
    ensures { cell_of result.now ≡ slice_index_or (cells_of fields.now) place [] }
{
    match fields.get(place) {
        Some(field) => field,
        None => &[],
    }
}

/// The largest number that may stand under a column of numbers.
fn largest(column: Column) -> u64
    ensures { result ≡ largest_of column }
{
    match column {
        Column::Id | Column::Stop | Column::Tail | Column::Head => LARGEST_ID,
        Column::Time => TIME,
        Column::Weight => WEIGHT,
        Column::Lower => BOUND,
        Column::Delay => DELAY,
        Column::PeriodicId | Column::Kind | Column::Upper => 0,
    }
}

// Why a column refuses a field in which no number was read.
fn refused(column: Column, fault: NumFault) -> FileKind
    ensures form { fault ≡ NumFault.NotANumber → result ≡ FileKind.BadNumber column }
    ensures size { fault ≡ NumFault.TooLarge → result ≡ FileKind.TooLarge column }
{
    match fault {
        NumFault::NotANumber => FileKind::BadNumber(column),
        NumFault::TooLarge => FileKind::TooLarge(column),
    }
}

// A number that was read, where it may stand under the column.
fn number_under(column: Column, number: u64) -> Result<u64, FileKind>
    ensures { MatchResult result (λ n. (n ≡ number) × (number ≤ largest_of column))
        (λ why. (largest_of column < number) × (why ≡ FileKind.TooLarge column)) }
{
    if number <= largest(column) {
        Ok(number)
    } else {
        Err(FileKind::TooLarge(column))
    }
}

// The whole number that a text gives under a column.
fn whole_of_text(column: Column, text: &[u8]) -> Result<u64, FileKind>
    ensures takes { OnOk result (IsNumber (IsDigits text.now) (whole_value text.now) (largest_of column)) }
    ensures value { IfOk result (λ number. number ≡ whole_value text.now) }
    ensures refuses { IfErr result (RefusesNumber (IsDigits text.now) (whole_value text.now) column) }
{
    match read_whole(text) {
        Ok(number) => number_under(column, number),
        Err(fault) => Err(refused(column, fault)),
    }
}

// The number of thousandths that a text gives under a column.
fn milli_of_text(column: Column, text: &[u8]) -> Result<u64, FileKind>
    ensures takes { OnOk result (IsNumber (IsMilliText text.now) (milli_value text.now) (largest_of column)) }
    ensures value { IfOk result (λ number. number ≡ milli_value text.now) }
    ensures refuses { IfErr result (RefusesNumber (IsMilliText text.now) (milli_value text.now) column) }
{
    match read_milli(text) {
        Ok(number) => number_under(column, number),
        Err(fault) => Err(refused(column, fault)),
    }
}

/// The number that the cell of any field gives under a column of numbers.
pub(crate) fn any_number_under(column: Column, field: &[u8]) -> Result<u64, FileKind>
    requires { HoldsNumber column }
    ensures number { IfOk result (IsNumberUnder column (cell_of field.now)) }
    ensures refuses { IfErr result (RefusesField IsNoWord (Some column) (cell_of field.now)) }
{
    match column {
        Column::Weight => milli_of_text(column, cell_of(field)),
        Column::Id
        | Column::PeriodicId
        | Column::Kind
        | Column::Time
        | Column::Stop
        | Column::Tail
        | Column::Head
        | Column::Lower
        | Column::Upper
        | Column::Delay => whole_of_text(column, cell_of(field)),
    }
}

// The number of a text of digits, in the units of the column.
fn in_units(column: Column, number: u64) -> u64
    requires { number < 10 ^ 15 }
    ensures { result ≡ units_of column * number }
{
    match column {
        Column::Weight => 1000 * number,
        Column::Id
        | Column::PeriodicId
        | Column::Kind
        | Column::Time
        | Column::Stop
        | Column::Tail
        | Column::Head
        | Column::Lower
        | Column::Upper
        | Column::Delay => number,
    }
}

/// The number that the cell of a field gives under a column of numbers, where it is one of a few digits that the column takes:
/// most fields of numbers are read so. Others give none, whatever they hold.
pub(crate) fn usual_number_under(column: Column, field: &[u8]) -> Option<u64>
    requires { HoldsNumber column }
    ensures { IfSome result (IsNumberUnder column (cell_of field.now)) }
{
    let Some(digits) = usual_number(field) else {
        return None;
    };
    let number = in_units(column, digits);
    if number > largest(column) {
        return None;
    }
    Some(number)
}

// Whether a field begins with a digit, as the first one of most records does: so does its cell.
fn begins_with_digit(field: &[u8]) -> bool
    ensures { result ≡ begins_with_digit field.now }
{
    0 < field.len() && field[0].is_ascii_digit()
}

/// Whether a record is passed over: a comment, or one empty field.
pub(crate) fn is_passed_over(fields: &ByteRecord) -> bool
    ensures { result ≡ is_passed_over (cells_of fields.now) }
{
    if fields.is_empty() {
        return false;
    }
    let field = field_at(fields, 0);
    if begins_with_digit(field) {
        return false;
    }
    match cell_of(field) {
        [] => fields.len() == 1,
        [first, ..] => *first == b'#',
    }
}
