//! The lines of a file behind its records.
use crate::text::{cut, part_at};

/// A line of a file, with its number from 1.
#[derive(Clone, Copy)]
pub struct FileLine<'a> {
    pub number: u64,
    pub text: &'a [u8],
}

/// A field without the spaces, tabs and double quotes round it.
pub fn trimmed(field: &[u8]) -> &[u8] {
    let bare = field.trim_ascii();
    match bare {
        [b'"', inner @ .., b'"'] => inner,
        _ => bare,
    }
}

/// Whether a line is a record, and no blank line and no comment.
fn is_record(line: &[u8]) -> bool {
    let (field, rest) = cut(line, b';');
    match trimmed(field) {
        [] => !rest.is_empty(),
        [first, ..] => *first != b'#',
    }
}

/// The line of a record, by the record's number from 1.
pub fn line_of_record(text: &[u8], record: u32) -> Option<FileLine<'_>> {
    let mut number: u64 = 0;
    let mut seen: u32 = 0;
    for line in text.split(|byte| *byte == b'\n') {
        number = number.saturating_add(1);
        if is_record(line) {
            seen = seen.saturating_add(1);
        }
        if seen == record {
            let text = line.strip_suffix(b"\r").unwrap_or(line);
            return Some(FileLine { number, text });
        }
    }
    None
}

/// The number of the line of a record, or 0 where there is none.
pub fn number_of_record(text: &[u8], record: usize) -> u64 {
    let Ok(record) = u32::try_from(record) else {
        return 0;
    };
    match line_of_record(text, record) {
        Some(line) => line.number,
        None => 0,
    }
}

/// How many fields a line has.
pub fn fields(line: &[u8]) -> usize {
    line.split(|byte| *byte == b';').count()
}

/// The field of a line under a column, where the columns name it.
pub fn field_under<'a>(line: &'a [u8], columns: &str, column: &str) -> &'a [u8] {
    for (place, name) in columns.split(',').enumerate() {
        if name == column {
            return trimmed(part_at(line, b';', place));
        }
    }
    &[]
}
