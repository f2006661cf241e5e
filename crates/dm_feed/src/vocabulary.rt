//! The words that lines are made of.
ghost use Rattle.std.specs.Prelude.{◌≡◌};
ghost use Rattle.dm_feed.specs.Inside.Reading.{word_named};

/// A word of the lines.
#[derive(Clone, Copy, PartialEq, Eq, Debug)]
pub enum Word {
    Delay,
    Event,
    Activity,
    Pass,
    Recall,
    Keep,
    Drop,
    First,
    Now,
    Cancel,
    Restore,
    Lock,
    Unlock,
    Time,
    Cost,
    Read,
    Plan,
    Solve,
    Adopt,
    Carry,
}

/// The word that is spelled so.
pub(crate) fn word_of(text: &[u8]) -> Option<Word>
    ensures { result ≡ word_named text.now }
{
    let word = match text {
        b"delay" => Word::Delay,
        b"event" => Word::Event,
        b"activity" => Word::Activity,
        b"pass" => Word::Pass,
        b"recall" => Word::Recall,
        b"keep" => Word::Keep,
        b"drop" => Word::Drop,
        b"first" => Word::First,
        b"now" => Word::Now,
        b"cancel" => Word::Cancel,
        b"restore" => Word::Restore,
        b"lock" => Word::Lock,
        b"unlock" => Word::Unlock,
        b"time" => Word::Time,
        b"cost" => Word::Cost,
        b"read" => Word::Read,
        b"plan" => Word::Plan,
        b"solve" => Word::Solve,
        b"adopt" => Word::Adopt,
        b"carry" => Word::Carry,
        _ => return None,
    };
    Some(word)
}
