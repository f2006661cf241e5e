//! Why a file gives no rows.

use crate::columns::Column;
use std::alloc::AllocError;

/// The first record of a file that breaks a rule, and which rule.
#[derive(Clone, Copy, PartialEq, Eq, Debug)]
pub struct FileFault {
    /// The record's number, from 1. It is 0 for a byte order mark, and where memory ran out.
    pub number: u32,
    pub kind: FileKind,
}

/// A rule that a file or one of its records breaks. Within a record the first that is broken is told, in the order
/// of the columns after the number of fields.
#[derive(Clone, Copy, PartialEq, Eq, Debug)]
pub enum FileKind {
    /// The record has this many fields, which is not the number of columns.
    FieldCount(u32),

    /// The field under this column is no number.
    BadNumber(Column),

    /// The number under this column is above its largest.
    TooLarge(Column),

    /// The type is none of the file's type words.
    UnknownType,

    /// The file begins with a byte order mark.
    ByteOrderMark,

    /// Memory ran out. This alone the bytes do not determine.
    OutOfMemory,
}

impl FileFault {
    pub(crate) const NO_MEMORY: FileFault = FileFault {
        number: 0,
        kind: FileKind::OutOfMemory,
    };

    pub(crate) const BYTE_ORDER_MARK: FileFault = FileFault {
        number: 0,
        kind: FileKind::ByteOrderMark,
    };
}

impl From<AllocError> for FileFault {
    ghost use Rattle.std.specs.Prelude.{◌≡◌};
    ghost use Rattle.dm_lintim.specs.Files.{no_memory};

    ghost from_gives = { λ _ e. e ≡ no_memory };

    fn from(_error: AllocError) -> FileFault {
        FileFault::NO_MEMORY
    }
}
