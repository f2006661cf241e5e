//! The kinds of answers: their words and their numbers.
ghost use Rattle.std.specs.Prelude.{◌≡◌, ℕ, List, is_some, IfSome};
ghost use Rattle.std.specs.Option.{option_map};
ghost use Rattle.dm_text.specs.Inside.Parts.{behind};
ghost use Rattle.dm_records.specs.Inside.Fields.{kind_in_front, row_in, NumbersFit};
ghost use Rattle.dm_records.specs.declared.fields.Shape.{Shape};
ghost use Rattle.dm_records.specs.declared.kinds.TheConstants.{TOLD, FREE};
ghost use Rattle.dm_records.specs.Inside.Kinds.{told_text, told_shape, free_text, free_shape};

use crate::fields::{LARGEST_ID, Shape, numbers_in};
use dm_text::behind;

/// A kind of answer: its words, and the numbers behind them.
pub(crate) trait Kind: Copy {
    /// The words.
    ghost words: { Self → List ℕ };

    /// The numbers.
    ghost numbers: { Self → Shape };

    /// The words in front.
    fn text(self) -> &'static str
        ensures { result.now ≡ words self };

    /// The numbers behind the words.
    fn shape(self) -> Shape
        ensures { result ≡ numbers self };
}

/// A kind of answer at an entry.
#[derive(Clone, Copy)]
pub(crate) enum ToldKind {
    Ok,
    Read,
    Old,
    Time,
    Cost,
    Range,
    UnknownEvent,
    UnknownActivity,
    UnknownChange,
    UnknownPair,
    Passed,
    NotPassed,
    Cancelled,
    NotCancelled,
    Locked,
    NotLocked,
    Back,
    Full,
}

/// A kind of answer at no entry.
#[derive(Clone, Copy)]
pub(crate) enum FreeKind {
    NoPlan,
    Plans,
    Range,
}

/// Every kind of answer at an entry.
pub(crate) const TOLD: [ToldKind; 18] = [
    ToldKind::Ok,
    ToldKind::Read,
    ToldKind::Old,
    ToldKind::Time,
    ToldKind::Cost,
    ToldKind::Range,
    ToldKind::UnknownEvent,
    ToldKind::UnknownActivity,
    ToldKind::UnknownChange,
    ToldKind::UnknownPair,
    ToldKind::Passed,
    ToldKind::NotPassed,
    ToldKind::Cancelled,
    ToldKind::NotCancelled,
    ToldKind::Locked,
    ToldKind::NotLocked,
    ToldKind::Back,
    ToldKind::Full,
];

/// Every kind of answer at no entry.
pub(crate) const FREE: [FreeKind; 3] = [FreeKind::NoPlan, FreeKind::Plans, FreeKind::Range];

impl Kind for ToldKind {
    ghost words = { told_text };

    ghost numbers = { told_shape };

    fn text(self) -> &'static str
        ensures { result.now ≡ told_text self }
    {
        match self {
            ToldKind::Ok => " ok",
            ToldKind::Read => " read",
            ToldKind::Old => " old",
            ToldKind::Time => " time ",
            ToldKind::Cost => " cost ",
            ToldKind::Range => " refused range ",
            ToldKind::UnknownEvent => " refused unknown-event ",
            ToldKind::UnknownActivity => " refused unknown-activity ",
            ToldKind::UnknownChange => " refused unknown-change ",
            ToldKind::UnknownPair => " refused unknown-pair ",
            ToldKind::Passed => " refused passed ",
            ToldKind::NotPassed => " refused not-passed ",
            ToldKind::Cancelled => " refused cancelled ",
            ToldKind::NotCancelled => " refused not-cancelled ",
            ToldKind::Locked => " refused locked ",
            ToldKind::NotLocked => " refused not-locked ",
            ToldKind::Back => " refused back ",
            ToldKind::Full => " refused full",
        }
    }

    fn shape(self) -> Shape
        ensures { result ≡ told_shape self }
    {
        match self {
            ToldKind::Ok | ToldKind::Read | ToldKind::Old | ToldKind::Full => Shape::Bare,
            ToldKind::Time | ToldKind::Cost | ToldKind::Range | ToldKind::Back => {
                Shape::Single(u128::MAX)
            }
            ToldKind::UnknownEvent
            | ToldKind::UnknownActivity
            | ToldKind::UnknownChange
            | ToldKind::NotPassed
            | ToldKind::Cancelled
            | ToldKind::NotCancelled => Shape::Single(LARGEST_ID),
            ToldKind::Locked | ToldKind::NotLocked => Shape::Choice,
            ToldKind::UnknownPair => Shape::Double(LARGEST_ID, LARGEST_ID),
            ToldKind::Passed => Shape::Double(LARGEST_ID, u128::MAX),
        }
    }
}

impl Kind for FreeKind {
    ghost words = { free_text };

    ghost numbers = { free_shape };

    fn text(self) -> &'static str
        ensures { result.now ≡ free_text self }
    {
        match self {
            FreeKind::NoPlan => "noplan",
            FreeKind::Plans => "plans",
            FreeKind::Range => "range ",
        }
    }

    fn shape(self) -> Shape
        ensures { result ≡ free_shape self }
    {
        match self {
            FreeKind::NoPlan | FreeKind::Plans => Shape::Bare,
            FreeKind::Range => Shape::Single(u128::MAX),
        }
    }
}

/// A kind of answer with its numbers, and what stands behind them.
pub(crate) fn told_row(line: &[u8]) -> Option<((ToldKind, u128, u128), &[u8])>
    ensures reads { option_map (λ p. (p.0, p.1.now)) result ≡ row_in told_text told_shape TOLD line.now }
    ensures fits { IfSome result (λ p. NumbersFit (told_shape p.0.0) p.0.1 p.0.2) }
{
    row_in(&TOLD, line)
}

/// A kind of answer at no entry with its number, and what stands behind it.
pub(crate) fn free_row(line: &[u8]) -> Option<((FreeKind, u128, u128), &[u8])>
    ensures reads { option_map (λ p. (p.0, p.1.now)) result ≡ row_in free_text free_shape FREE line.now }
    ensures fits { IfSome result (λ p. NumbersFit (free_shape p.0.0) p.0.1 p.0.2) }
{
    row_in(&FREE, line)
}

/// The first of these kinds whose words stand in front, with its numbers, and what stands behind them.
fn row_in<'l, K: Kind>(kinds: &[K], line: &'l [u8]) -> Option<((K, u128, u128), &'l [u8])>
    ensures reads { option_map (λ p. (p.0, p.1.now)) result ≡ row_in K.words K.numbers kinds.now line.now }
    ensures fits { IfSome result (λ p. NumbersFit (K.numbers p.0.0) p.0.1 p.0.2) }
{
    let Some(kind) = kind_in_front(kinds, line) else {
        return None;
    };
    let Some(rest) = behind(line, kind.text()) else {
        return None;
    };
    let Some((one, two, rest)) = numbers_in(rest, kind.shape()) else {
        return None;
    };
    Some(((kind, one, two), rest))
}

/// The first of these kinds whose words stand in front.
fn kind_in_front<K: Kind>(kinds: &[K], line: &[u8]) -> Option<K>
    ensures { result ≡ kind_in_front K.words kinds.now line.now }
{
    kinds.iter().copied().find(|kind| is_in_front(*kind, line))
}

/// Whether the words of a kind stand in front of the line.
fn is_in_front<K: Kind>(kind: K, line: &[u8]) -> bool
    ensures { result ≡ is_some (behind (K.words kind) line.now) }
{
    behind(line, kind.text()).is_some()
}
