//! Readers of decimal texts.
ghost use Rattle.std.specs.Prelude.{◌≡◌, ℕ, ◌+◌, ◌-◌, ◌*◌, ◌^◌, ◌<◌, ◌≤◌, ◌↔◌, length, take, drop, All, slice_index, slice_index_or, SomeIff, MatchOption};
ghost use Rattle.std.specs.Char.{IsAsciiDigit};
ghost use Rattle.std.specs.List.{AllWithin};
ghost use Rattle.dm_base.specs.Numbers.{IsDigits, IsEnding, IsMilliText, ReadsNumber, whole_value, milli_value, thousandths_value};

/// Why a text gives no number.
#[derive(Clone, Copy, PartialEq, Eq, Debug)]
pub enum NumFault {
    /// The text has another form.
    NotANumber,

    /// The text has the form, and its value is above 18446744073709551615.
    TooLarge,
}

/// Reads one or more decimal digits, of any number; leading zeros are allowed. It takes no memory.
pub fn read_whole(text: &[u8]) -> Result<u64, NumFault>
    ensures reads { ReadsNumber (IsDigits text.now) (whole_value text.now) result }
    ensures not_a_number { (result ≡ Err NumFault.NotANumber) ↔ ¬ IsDigits text.now }
    ensures too_large { (result ≡ Err NumFault.TooLarge) ↔ (IsDigits text.now × (2 ^ 64 ≤ whole_value text.now)) }
{
    let front = digits_at_front(text);
    if front.len == 0 || front.len < text.len() {
        return Err(NumFault::NotANumber);
    }
    front.value.ok_or(NumFault::TooLarge)
}

/// Reads one or more decimal digits, and optionally a point and any number of digits, as thousandths. Digits past the
/// third decimal are dropped. It takes no memory.
pub fn read_milli(text: &[u8]) -> Result<u64, NumFault>
    ensures reads { ReadsNumber (IsMilliText text.now) (milli_value text.now) result }
    ensures not_a_number { (result ≡ Err NumFault.NotANumber) ↔ ¬ IsMilliText text.now }
    ensures too_large { (result ≡ Err NumFault.TooLarge) ↔ (IsMilliText text.now × (2 ^ 64 ≤ milli_value text.now)) }
{
    let front = digits_at_front(text);
    if front.len == 0 {
        return Err(NumFault::NotANumber);
    }
    let Some(thousandths) = thousandths_after(&text[front.len..]) else {
        return Err(NumFault::NotANumber);
    };
    joined(front.value, thousandths).ok_or(NumFault::TooLarge)
}

/// How many bytes [`few_digits`] takes at most: a number of 19 digits is below 2^64.
pub const FEW: usize = 19;

/// The digits at the front of a text, and the number that they write.
#[derive(Clone, Copy, PartialEq, Eq, Debug)]
pub struct FewDigits {
    pub value: u64,
    pub count: usize,
}

/// Reads the decimal digits at the front of a text of at most 19 bytes; no digit is the number 0. It takes no memory.
pub fn few_digits(text: &[u8]) -> FewDigits
    requires { length text.now ≤ FEW }
    ensures within { result.count ≤ length text.now }
    ensures digits { AllWithin IsAsciiDigit text.now 0 result.count }
    ensures ends { result.count < length text.now → ¬ IsAsciiDigit (slice_index text.now result.count) }
    ensures value { result.value ≡ whole_value (take result.count text.now) }
    ensures small { result.value < 10 ^ result.count }
{
    let mut value = 0;
    for (count, byte) in text.iter().enumerate() {
        if !byte.is_ascii_digit() {
            return FewDigits { value, count };
        }
        value = value * 10 + u64::from(*byte - b'0');
    }
    FewDigits {
        value,
        count: text.len(),
    }
}

// The digits at the front of a text, and the number that they write where it is below 2^64.
#[derive(Clone, Copy)]
struct Front {
    len: usize,
    value: Option<u64>,
}

fn digits_at_front(text: &[u8]) -> Front
    ensures within { result.len ≤ length text.now }
    ensures digits { AllWithin IsAsciiDigit text.now 0 result.len }
    ensures ends { result.len < length text.now → ¬ IsAsciiDigit (slice_index text.now result.len) }
    ensures value { let read = whole_value (take result.len text.now) in SomeIff result.value (read < 2 ^ 64) read }
{
    let few = few_digits(&text[..text.len().min(FEW)]);
    if few.count < text.len() && few.count == FEW {
        return many_digits_at_front(text);
    }
    Front {
        len: few.count,
        value: Some(few.value),
    }
}

// The same, whatever the number of digits.
#[inline(never)]
fn many_digits_at_front(text: &[u8]) -> Front
    ensures within { result.len ≤ length text.now }
    ensures digits { AllWithin IsAsciiDigit text.now 0 result.len }
    ensures ends { result.len < length text.now → ¬ IsAsciiDigit (slice_index text.now result.len) }
    ensures value { let read = whole_value (take result.len text.now) in SomeIff result.value (read < 2 ^ 64) read }
{
    let mut value = Some(0);
    for (i, byte) in text.iter().enumerate() {
        if !byte.is_ascii_digit() {
            return Front { len: i, value };
        }
        value = with_digit(value, *byte);
    }
    Front {
        len: text.len(),
        value,
    }
}

// The value with one digit more at its end.
fn with_digit(value: Option<u64>, digit: u8) -> Option<u64>
    requires { IsAsciiDigit digit }
    ensures { (n : ℕ) → SomeIff value (n < 2 ^ 64) n
        → let next = n * 10 + (digit - 48) in SomeIff result (next < 2 ^ 64) next }
{
    value?.checked_mul(10)?.checked_add(u64::from(digit - b'0'))
}

// The thousandths that stand after whole digits, or none where something else stands there.
fn thousandths_after(rest: &[u8]) -> Option<u64>
    ensures { MatchOption result (¬ IsEnding rest.now)
        (λ n. IsEnding rest.now × (n ≡ thousandths_value (drop 1 rest.now))) }
{
    match rest {
        [] => Some(0),
        [b'.', decimals @ ..] => thousandths_of(decimals),
        _ => None,
    }
}

// The thousandths of the digits after a point, or none where something else is among them.
#[tactic(auto, using(crate::proofs::NumberLemmas::thousandths_value_is))]
fn thousandths_of(decimals: &[u8]) -> Option<u64>
    ensures { MatchOption result (¬ All IsAsciiDigit decimals.now)
        (λ n. All IsAsciiDigit decimals.now × (n ≡ thousandths_value decimals.now)) }
{
    if !decimals.iter().all(|digit| digit.is_ascii_digit()) {
        return None;
    }
    let tenths = decimal_at(decimals, 0);
    let hundredths = decimal_at(decimals, 1);
    let thousandths = decimal_at(decimals, 2);
    Some(100 * tenths + 10 * hundredths + thousandths)
}

// The digit at a place, or 0 past the last one.
fn decimal_at(decimals: &[u8], place: usize) -> u64
    requires { All IsAsciiDigit decimals.now }
    ensures value { result ≡ slice_index_or decimals.now place 48 - 48 }
    ensures digit { result < 10 }
{
    match decimals.get(place) {
        Some(digit) => u64::from(*digit - b'0'),
        None => 0,
    }
}

// A number of thousandths, from a number of wholes.
fn joined(wholes: Option<u64>, thousandths: u64) -> Option<u64>
    ensures { (n : ℕ) → SomeIff wholes (n < 2 ^ 64) n
        → let all = 1000 * n + thousandths in SomeIff result (all < 2 ^ 64) all }
{
    wholes?.checked_mul(1000)?.checked_add(thousandths)
}
