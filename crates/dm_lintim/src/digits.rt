//! The usual number: a field that is a few digits up to its end, with nothing but blanks before them. It is read in one pass, and
//! its cell is not looked for. Other fields are left to the readers of any text.
ghost use Rattle.std.specs.Prelude.{◌≡◌, ◌<◌, ◌^◌, IfSome};
ghost use Rattle.dm_base.specs.Numbers.{IsDigits, whole_value};
ghost use Rattle.dm_lintim.specs.Pieces.{cell_of};

use crate::field::trim_front;

// The most digits that are read in this way: a thousand times their number is below 2^64.
const MOST_DIGITS: usize = 15;

// The number that a text of a few digits writes.
fn number_of_few(text: &[u8]) -> Option<u64>
    ensures value { IfSome result (λ n. IsDigits text.now × (n ≡ whole_value text.now)) }
    ensures small { IfSome result (λ n. n < 10 ^ 15) }
{
    if text.is_empty() || text.len() > MOST_DIGITS {
        return None;
    }
    let mut number = 0;
    for byte in text {
        if !byte.is_ascii_digit() {
            return None;
        }
        number = number * 10 + u64::from(*byte - b'0');
    }
    Some(number)
}

/// The number that the cell of a field writes with a few digits, where nothing stands after them. Other fields give
/// none, whatever they hold.
pub(crate) fn usual_number(field: &[u8]) -> Option<u64>
    ensures value { IfSome result (λ n. IsDigits (cell_of field.now) × (n ≡ whole_value (cell_of field.now))) }
    ensures small { IfSome result (λ n. n < 10 ^ 15) }
{
    number_of_few(trim_front(field))
}
