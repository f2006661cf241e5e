//! The records of a file, one after the other.
ghost use Rattle.std.specs.Prelude.{◌≡◌, IfOk, false};
ghost use Rattle.csv.specs.Records.{fields_of};
ghost use Rattle.dm_lintim.specs.Inside.Reader.{SplitsPlainly, TakesFirst, records_of};
ghost use Rattle.dm_lintim.specs.Pieces.{has_byte_order_mark, split_records};

use csv::{ByteRecord, Reader, ReaderBuilder};
use std::alloc::{AllocError, Global};

/// A reader of all records of a file that does not begin with a byte order mark.
pub(crate) fn reader_of(alloc: Global, bytes: &[u8]) -> Reader<&[u8]>
    requires { has_byte_order_mark bytes.now ≡ false }
    ensures plain { SplitsPlainly result }
    ensures records { records_of result ≡ split_records bytes.now }
{
    ReaderBuilder::new()
        .delimiter(b';')
        .quoting(false)
        .has_headers(false)
        .flexible(true)
        .from_reader(alloc, bytes)
}

/// Takes the next record, where there is one. `csv` says nothing of a reader that has met the end. Every error is one of memory:
/// the text lies in memory, and records may have any number of fields.
pub(crate) fn read_one(
    reader: &mut Reader<&[u8]>,
    fields: &mut ByteRecord,
) -> Result<bool, AllocError>
    requires { SplitsPlainly reader.old }
    ensures { IfOk result (TakesFirst reader.old reader.new (fields_of fields.new)) }
{
    let Ok(found) = reader.read_byte_record(fields) else {
        return Err(AllocError);
    };
    Ok(found)
}
