//! The rows of a file, whatever its kind, or the first record that breaks a rule.
ghost use Rattle.std.specs.Prelude.{ℕ, ◌≡◌, ◌≤◌, ◌<◌, ◌+◌, ◌^◌, ◌⊎◌, List, Option, Result, Ok, Err, [], ◌∷◌, ◌++◌, false, length, OnOk, IfOk, IfErr, IfSome, IfNone, slice_index_or};
ghost use Rattle.csv.specs.Records.{fields_of};
ghost use Rattle.dm_lintim.specs.declared.columns.Column.{Column};
ghost use Rattle.dm_lintim.specs.Columns.{HasAll};
ghost use Rattle.dm_lintim.specs.Files.{BreaksRecord, RefusesFirst, IsGood, ReadsFile, RefusesField, TakesField, no_memory};
ghost use Rattle.dm_lintim.specs.Inside.Rows.{AddsRow, BreaksFile};
ghost use Rattle.dm_lintim.specs.Inside.Values.{AreValuesOf, AreWithin, HasKind, HoldsNumber, PutsCell};
ghost use Rattle.dm_lintim.specs.Pieces.{cell_of, has_byte_order_mark};
ghost use Rattle.dm_lintim.specs.Inside.Reader.{cells_of};

use crate::cells::{any_number_under, field_at, is_passed_over, usual_number_under};
use crate::columns::Column;
use crate::fault::{FileFault, FileKind};
use crate::field::cell_of;
use crate::layout::MOST;
use crate::records::{read_one, reader_of};
use crate::values::Values;
use csv::ByteRecord;
use dm_base::limits::FILE;
use std::alloc::Global;

// The bytes of one record that there is room for at once: most records are shorter, and a longer one takes more.
const RECORD_BYTES: usize = 256;

/// A row of one kind of file.
pub(crate) trait Row: Drop {
    /// What a type word of the file names.
    type Kind: Copy + Drop;

    // A type word of the file.
    ghost is_known: { List ℕ → Type 0 };

    // A kind and a type word that names it.
    ghost names: { Self.Kind → List ℕ → Type 0 };

    // The row that the cells of a record give under the columns of the file.
    ghost is_row: { List (Option Column) → List (List ℕ) → Self → Type 0 };

    // The columns that each record must have.
    ghost required: { List Column };

    /// The kind that a type word names.
    fn kind(text: &[u8]) -> Option<Self::Kind>
        ensures found { IfSome result (λ kind. names kind text.now × is_known text.now) }
        ensures none { IfNone result (is_known text.now → ⊥) };

    /// The row of a good record with these values.
    fn make(values: &Values<Self::Kind>) -> Self
        requires within { AreWithin values.now.numbers }
        requires kind { HasKind required values.now.kind }
        ensures { (columns : List (Option Column)) (fields : List (List ℕ)) → IsGood is_known columns fields
            → AreValuesOf names values.now.numbers values.now.kind columns fields → is_row columns fields result };
}

// Reads the type of a record.
fn read_kind<R: Row>(values: &mut Values<R::Kind>, text: &[u8]) -> Result<(), FileKind>
    requires { AreWithin values.old.numbers }
    ensures takes { OnOk result (TakesField R.is_known (Some Column.Kind) text.now) }
    ensures puts { OnOk result (PutsCell R.names (Some Column.Kind) text.now values.old.numbers values.old.kind values.new.numbers
        values.new.kind) }
    ensures within { OnOk result (AreWithin values.new.numbers) }
    ensures refuses { IfErr result (RefusesField R.is_known (Some Column.Kind) text.now) }
{
    match R::kind(text) {
        Some(kind) => {
            values.put_kind(kind);
            Ok(())
        }
        None => Err(FileKind::UnknownType),
    }
}

// Reads the number of any field under a column of numbers.
fn read_any_number<R: Row>(
    values: &mut Values<R::Kind>,
    column: Column,
    field: &[u8],
) -> Result<(), FileKind>
    requires within { AreWithin values.old.numbers }
    requires holds { HoldsNumber column }
    ensures takes { OnOk result (TakesField R.is_known (Some column) (cell_of field.now)) }
    ensures puts { OnOk result (PutsCell R.names (Some column) (cell_of field.now) values.old.numbers values.old.kind values.new.numbers
        values.new.kind) }
    ensures within { OnOk result (AreWithin values.new.numbers) }
    ensures refuses { IfErr result (RefusesField R.is_known (Some column) (cell_of field.now)) }
{
    let number = any_number_under(column, field)?;
    values.put(column, number);
    Ok(())
}

// Reads the number of a field under a column of numbers. Most are a few digits, so these are tried first.
fn read_number<R: Row>(
    values: &mut Values<R::Kind>,
    column: Column,
    field: &[u8],
) -> Result<(), FileKind>
    requires within { AreWithin values.old.numbers }
    requires holds { HoldsNumber column }
    ensures takes { OnOk result (TakesField R.is_known (Some column) (cell_of field.now)) }
    ensures puts { OnOk result (PutsCell R.names (Some column) (cell_of field.now) values.old.numbers values.old.kind values.new.numbers
        values.new.kind) }
    ensures within { OnOk result (AreWithin values.new.numbers) }
    ensures refuses { IfErr result (RefusesField R.is_known (Some column) (cell_of field.now)) }
{
    if let Some(number) = usual_number_under(column, field) {
        values.put(column, number);
        return Ok(());
    }
    read_any_number::<R>(values, column, field)
}

// Reads the cell at a place of a record under its column. Where the column is passed over, the field is not looked for.
fn read_cell<R: Row>(
    values: &mut Values<R::Kind>,
    column: Option<Column>,
    fields: &ByteRecord,
    place: usize,
) -> Result<(), FileKind>
    requires { AreWithin values.old.numbers }
    ensures takes { OnOk result (TakesField R.is_known column (slice_index_or (cells_of fields.now) place [])) }
    ensures puts { OnOk result (PutsCell R.names column (slice_index_or (cells_of fields.now) place []) values.old.numbers
        values.old.kind values.new.numbers values.new.kind) }
    ensures within { OnOk result (AreWithin values.new.numbers) }
    ensures refuses { IfErr result (RefusesField R.is_known column (slice_index_or (cells_of fields.now) place [])) }
{
    let Some(column) = column else {
        return Ok(());
    };
    match column {
        Column::PeriodicId | Column::Upper => Ok(()),
        Column::Kind => read_kind::<R>(values, cell_of(field_at(fields, place))),
        Column::Id
        | Column::Time
        | Column::Weight
        | Column::Stop
        | Column::Tail
        | Column::Head
        | Column::Lower
        | Column::Delay => read_number::<R>(values, column, field_at(fields, place)),
    }
}

// The values of a record, its cells read in the order of the columns.
fn read_cells<R: Row>(
    columns: &[Option<Column>],
    fields: &ByteRecord,
) -> Result<Values<R::Kind>, FileKind>
    requires { length (cells_of fields.now) ≡ length columns.now }
    ensures good { OnOk result (IsGood R.is_known columns.now (cells_of fields.now)) }
    ensures values { IfOk result (λ v. AreValuesOf R.names v.numbers v.kind columns.now (cells_of fields.now)) }
    ensures within { IfOk result (λ v. AreWithin v.numbers) }
    ensures refuses { IfErr result (RefusesFirst R.is_known columns.now (cells_of fields.now)) }
{
    let mut values = Values::new();
    for (place, column) in columns.iter().enumerate() {
        read_cell::<R>(&mut values, *column, fields, place)?;
    }
    Ok(values)
}

fn read_row<R: Row>(columns: &[Option<Column>], fields: &ByteRecord) -> Result<R, FileKind>
    requires columns { HasAll columns.now R.required }
    requires few { length (fields_of fields.now) < 2 ^ 32 }
    ensures row { IfOk result (R.is_row columns.now (cells_of fields.now)) }
    ensures good { OnOk result (IsGood R.is_known columns.now (cells_of fields.now)) }
    ensures breaks { IfErr result (BreaksRecord R.is_known columns.now (cells_of fields.now)) }
{
    let found = fields.len();
    if found != columns.len() {
        return Err(FileKind::FieldCount(found as u32));
    }
    let values = read_cells::<R>(columns, fields)?;
    Ok(R::make(&values))
}

fn push_row<R: Drop>(rows: &mut Vec<R>, row: R) -> Result<(), FileFault>
    ensures ok { OnOk result (rows.new.items ≡ rows.old.items ++ row ∷ []) }
    ensures err { IfErr result (λ fault. fault ≡ no_memory) }
{
    match rows.push(row) {
        Ok(()) => Ok(()),
        Err(_) => Err(FileFault::NO_MEMORY),
    }
}

// Puts the row of a record that counts at the end of the rows.
fn add_record<R: Row>(
    columns: &[Option<Column>],
    fields: &ByteRecord,
    rows: &mut Vec<R>,
) -> Result<(), FileFault>
    requires columns { HasAll columns.now R.required }
    requires few { length (fields_of fields.now) < 2 ^ 32 }
    requires room { length rows.old.items + 1 < 2 ^ 32 }
    ensures adds { OnOk result (AddsRow R.is_known R.is_row columns.now (cells_of fields.now) rows.old.items rows.new.items) }
    ensures breaks { IfErr result (λ fault. (fault ≡ no_memory)
        ⊎ BreaksFile R.is_known columns.now (cells_of fields.now) (length rows.old.items) fault) }
{
    if is_passed_over(fields) {
        return Ok(());
    }
    let number = rows.as_slice().len() as u32 + 1;
    match read_row::<R>(columns, fields) {
        Ok(row) => push_row(rows, row),
        Err(kind) => Err(FileFault { number, kind }),
    }
}

// The rows of a file that does not begin with a byte order mark.
fn read_records<R: Row>(
    alloc: Global,
    bytes: &[u8],
    columns: &[Option<Column>],
) -> Result<Vec<R>, FileFault>
    requires size { length bytes.now ≤ FILE }
    requires columns { HasAll columns.now R.required }
    requires no_mark { has_byte_order_mark bytes.now ≡ false }
    ensures rows { IfOk result (λ v. ReadsFile R.is_known R.is_row columns.now bytes.now (Ok v.items)) }
    ensures fault { IfErr result (λ fault. (fault ≡ no_memory) ⊎ ReadsFile R.is_known R.is_row columns.now bytes.now (Err fault)) }
{
    let mut reader = reader_of(alloc, bytes);
    let mut fields = ByteRecord::with_capacity(alloc, RECORD_BYTES, MOST)?;
    let mut rows = Vec::new(alloc);
    while read_one(&mut reader, &mut fields)? {
        add_record(columns, &fields, &mut rows)?;
    }
    Ok(rows)
}

fn has_byte_order_mark(bytes: &[u8]) -> bool
    ensures { result ≡ has_byte_order_mark bytes.now }
{
    bytes.len() >= 3 && bytes[0] == 0xEF && bytes[1] == 0xBB && bytes[2] == 0xBF
}

/// The rows of a file, or the first fault.
pub(crate) fn read_rows<R: Row>(
    alloc: Global,
    bytes: &[u8],
    columns: &[Option<Column>],
) -> Result<Vec<R>, FileFault>
    requires size { length bytes.now ≤ FILE }
    requires columns { HasAll columns.now R.required }
    ensures rows { IfOk result (λ v. ReadsFile R.is_known R.is_row columns.now bytes.now (Ok v.items)) }
    ensures fault { IfErr result (λ fault. (fault ≡ no_memory) ⊎ ReadsFile R.is_known R.is_row columns.now bytes.now (Err fault)) }
{
    if has_byte_order_mark(bytes) {
        return Err(FileFault::BYTE_ORDER_MARK);
    }
    read_records(alloc, bytes, columns)
}
