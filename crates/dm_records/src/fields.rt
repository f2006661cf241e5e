//! Lines made of words and numbers, read from their front. Nothing here takes memory.
ghost use Rattle.std.specs.Prelude.{◌≡◌, ◌≤◌, [], ◌∷◌, IfSome};
ghost use Rattle.std.specs.Option.{option_map};
ghost use Rattle.dm_records.specs.Inside.Fields.{number_behind, fields, whole, numbers_in, NumbersFit};

use dm_text::{behind, number_in_front};

/// The largest id, line or entry number.
pub(crate) const LARGEST_ID: u128 = 4_294_967_295;

/// The largest value that a line may say.
pub(crate) const LARGEST_VALUE: u128 = 18_446_744_073_709_551_615;

/// The numbers of a kind of words, each with its largest.
#[derive(Clone, Copy)]
pub(crate) enum Shape {
    Bare,
    Single(u128),

    /// Two numbers with a space between them.
    Double(u128, u128),

    /// One id, or two with a space between them, the smaller first.
    Choice,
}

/// In place of the second id of a choice that has one alone.
pub(crate) const NO_ID: u128 = LARGEST_ID + 1;

/// A number behind the text, of at most so much.
pub(crate) fn number_behind<'l>(
    line: &'l [u8],
    text: &str,
    largest: u128,
) -> Option<(u128, &'l [u8])>
    ensures reads { option_map (λ p. (p.0, p.1.now)) result ≡ number_behind largest text.now line.now }
    ensures fits { IfSome result (λ p. p.0 ≤ largest) }
{
    let Some(rest) = behind(line, text) else {
        return None;
    };
    number_in_front(rest, largest)
}

/// The numbers of two fields, each some words and a number of at most so much, and what stands behind them.
pub(crate) fn two_numbers<'l>(
    line: &'l [u8],
    first: &str,
    first_largest: u128,
    second: &str,
    second_largest: u128,
) -> Option<(u128, u128, &'l [u8])>
    ensures reads { option_map (λ p. (p.0 ∷ p.1 ∷ [], p.2.now)) result ≡ fields
        ((first.now, first_largest) ∷ (second.now, second_largest) ∷ []) line.now }
    ensures first_fits { IfSome result (λ p. p.0 ≤ first_largest) }
    ensures second_fits { IfSome result (λ p. p.1 ≤ second_largest) }
{
    let Some((one, rest)) = number_behind(line, first, first_largest) else {
        return None;
    };
    let Some((two, rest)) = number_behind(rest, second, second_largest) else {
        return None;
    };
    Some((one, two, rest))
}

/// The numbers of three fields, and what stands behind them.
pub(crate) fn three_numbers<'l>(
    line: &'l [u8],
    first: &str,
    first_largest: u128,
    second: &str,
    second_largest: u128,
    third: &str,
    third_largest: u128,
) -> Option<(u128, u128, u128, &'l [u8])>
    ensures reads { option_map (λ p. (p.0 ∷ p.1 ∷ p.2 ∷ [], p.3.now)) result ≡ fields
        ((first.now, first_largest) ∷ (second.now, second_largest) ∷ (third.now, third_largest) ∷ []) line.now }
    ensures first_fits { IfSome result (λ p. p.0 ≤ first_largest) }
    ensures second_fits { IfSome result (λ p. p.1 ≤ second_largest) }
    ensures third_fits { IfSome result (λ p. p.2 ≤ third_largest) }
{
    let Some((one, two, rest)) = two_numbers(line, first, first_largest, second, second_largest)
    else {
        return None;
    };
    let Some((three, rest)) = number_behind(rest, third, third_largest) else {
        return None;
    };
    Some((one, two, three, rest))
}

/// The number of a line of one field.
pub(crate) fn one_whole(line: &[u8], text: &str, largest: u128) -> Option<u128>
    ensures reads { option_map (λ n. n ∷ []) result ≡ whole (fields ((text.now, largest) ∷ []) line.now) }
    ensures fits { IfSome result (λ n. n ≤ largest) }
{
    match number_behind(line, text, largest) {
        Some((number, [])) => Some(number),
        _ => None,
    }
}

/// The numbers of a line of two fields.
pub(crate) fn two_whole(
    line: &[u8],
    first: &str,
    first_largest: u128,
    second: &str,
    second_largest: u128,
) -> Option<(u128, u128)>
    ensures reads { option_map (λ p. p.0 ∷ p.1 ∷ []) result ≡ whole
        (fields ((first.now, first_largest) ∷ (second.now, second_largest) ∷ []) line.now) }
    ensures first_fits { IfSome result (λ p. p.0 ≤ first_largest) }
    ensures second_fits { IfSome result (λ p. p.1 ≤ second_largest) }
{
    match two_numbers(line, first, first_largest, second, second_largest) {
        Some((one, two, [])) => Some((one, two)),
        _ => None,
    }
}

/// The numbers of a line of three fields.
pub(crate) fn three_whole(
    line: &[u8],
    first: &str,
    first_largest: u128,
    second: &str,
    second_largest: u128,
    third: &str,
    third_largest: u128,
) -> Option<(u128, u128, u128)>
    ensures reads { option_map (λ p. p.0 ∷ p.1 ∷ p.2 ∷ []) result ≡ whole
        (fields ((first.now, first_largest) ∷ (second.now, second_largest) ∷ (third.now, third_largest) ∷ []) line.now) }
    ensures first_fits { IfSome result (λ p. p.0 ≤ first_largest) }
    ensures second_fits { IfSome result (λ p. p.1 ≤ second_largest) }
    ensures third_fits { IfSome result (λ p. p.2 ≤ third_largest) }
{
    match three_numbers(
        line,
        first,
        first_largest,
        second,
        second_largest,
        third,
        third_largest,
    ) {
        Some((one, two, three, [])) => Some((one, two, three)),
        _ => None,
    }
}

/// The numbers of a shape, 0 in place of one that it has not, and what stands behind them.
pub(crate) fn numbers_in(line: &[u8], shape: Shape) -> Option<(u128, u128, &[u8])>
    ensures reads { option_map (λ p. ((p.0, p.1), p.2.now)) result ≡ numbers_in shape line.now }
    ensures fits { IfSome result (λ p. NumbersFit shape p.0 p.1) }
{
    match shape {
        Shape::Bare => Some((0, 0, line)),
        Shape::Single(largest) => {
            let Some((number, rest)) = number_in_front(line, largest) else {
                return None;
            };
            Some((number, 0, rest))
        }
        Shape::Double(largest, other) => {
            let Some((one, rest)) = number_in_front(line, largest) else {
                return None;
            };
            let Some((two, rest)) = number_behind(rest, " ", other) else {
                return None;
            };
            Some((one, two, rest))
        }
        Shape::Choice => ids_in(line),
    }
}

/// The one or two ids of a choice, and what stands behind them.
#[tactic(auto, using(crate::proofs::KindsRead::no_first, crate::proofs::KindsRead::no_second, crate::proofs::KindsRead::sorted_ids, crate::proofs::KindsRead::unsorted_ids))]
fn ids_in(line: &[u8]) -> Option<(u128, u128, &[u8])>
    ensures reads { option_map (λ p. ((p.0, p.1), p.2.now)) result ≡ numbers_in Shape.Choice line.now }
    ensures fits { IfSome result (λ p. NumbersFit Shape.Choice p.0 p.1) }
{
    let Some((one, rest)) = number_in_front(line, LARGEST_ID) else {
        return None;
    };
    let Some((two, rest)) = number_behind(rest, " ", LARGEST_ID) else {
        return Some((one, NO_ID, rest));
    };
    if two < one {
        return None;
    }
    Some((one, two, rest))
}
