//! Words and numbers in front of a line.
ghost use Rattle.std.specs.Prelude.{◌≡◌, ◌^◌, ◌<◌, ◌≤◌, ℕ, ◌+◌, ◌*◌, ◌-◌, All, SomeIff, IfSome};
ghost use Rattle.std.specs.Option.{option_map};
ghost use Rattle.std.specs.List.{prefix_len};
ghost use Rattle.std.specs.Char.{is_ascii_digit, IsAsciiDigit};
ghost use Rattle.dm_base.specs.Numbers.{whole_value};
ghost use Rattle.dm_text.specs.Inside.Parts.{behind, number_in_front, is_plain};

use dm_base::{FEW, few_digits};

/// What stands behind the text, where the line begins with it.
pub fn behind<'t>(line: &'t [u8], text: &str) -> Option<&'t [u8]>
    ensures { option_map (λ rest. rest.now) result ≡ behind text.now line.now }
{
    line.strip_prefix(text.as_bytes())
}

/// The number whose digits stand in front of the line, and what stands behind them. It is None where there is no digit, where
/// a zero stands before another digit, or where the number is above the largest.
pub fn number_in_front(line: &[u8], largest: u128) -> Option<(u128, &[u8])>
    ensures reads { option_map (λ p. (p.0, p.1.now)) result ≡ number_in_front largest line.now }
    ensures fits { IfSome result (λ p. p.0 ≤ largest) }
{
    let end = digits_in_front(line);
    let digits = &line[..end];
    if !is_plain(digits) {
        return None;
    }
    let Some(value) = value_of(digits) else {
        return None;
    };
    if value > largest {
        return None;
    }
    Some((value, &line[end..]))
}

fn digits_in_front(line: &[u8]) -> usize
    ensures { result ≡ prefix_len is_ascii_digit line.now }
{
    line.iter().take_while(|byte| byte.is_ascii_digit()).count()
}

// Whether there are digits, and no zero stands before another one.
fn is_plain(digits: &[u8]) -> bool
    ensures { result ≡ is_plain digits.now }
{
    match digits {
        [] => false,
        [_] => true,
        [first, ..] => *first != b'0',
    }
}

// The number that the digits write, where it is below 2^128.
fn value_of(digits: &[u8]) -> Option<u128>
    requires { All IsAsciiDigit digits.now }
    ensures { let value = whole_value digits.now in SomeIff result (value < 2 ^ 128) value }
{
    if digits.len() > FEW {
        return value_of_many(digits);
    }
    Some(u128::from(few_digits(digits).value))
}

// The same, whatever the number of digits.
#[inline(never)]
fn value_of_many(digits: &[u8]) -> Option<u128>
    requires { All IsAsciiDigit digits.now }
    ensures { let value = whole_value digits.now in SomeIff result (value < 2 ^ 128) value }
{
    let mut value = Some(0);
    for digit in digits {
        value = with_digit(value, *digit);
    }
    value
}

// The value with one digit more at its end.
fn with_digit(value: Option<u128>, digit: u8) -> Option<u128>
    requires { IsAsciiDigit digit }
    ensures { (n : ℕ) → SomeIff value (n < 2 ^ 128) n
        → let next = n * 10 + (digit - 48) in SomeIff result (next < 2 ^ 128) next }
{
    let Some(value) = value else {
        return None;
    };
    let Some(tens) = value.checked_mul(10) else {
        return None;
    };
    tens.checked_add((digit - b'0') as u128)
}
