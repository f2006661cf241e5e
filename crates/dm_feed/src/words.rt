//! How bytes are cut into words.
ghost use Rattle.std.specs.Prelude.{◌≡◌, ◌==◌, [], ◌∷◌, MatchOption, position};
ghost use Rattle.std.specs.Option.{option_map};
ghost use Rattle.dm_feed.specs.Words.{words_of};
ghost use Rattle.dm_feed.specs.Inside.Cuts.{cut_at, BeginsWord};

/// The place of the first byte that is `at`.
fn first_place(bytes: &[u8], at: u8) -> Option<usize>
    ensures { result ≡ position (λ b. b == at) bytes.now }
{
    bytes.iter().position(|b| *b == at)
}

/// The bytes before the first that is `at`, and those behind it.
pub(crate) fn cut(bytes: &[u8], at: u8) -> Option<(&[u8], &[u8])>
    ensures { option_map (λ parts. (parts.0.now, parts.1.now)) result ≡ cut_at at bytes.now }
{
    let Some(place) = first_place(bytes, at) else {
        return None;
    };
    Some((&bytes[..place], &bytes[place + 1..]))
}

fn skip_spaces(bytes: &[u8]) -> &[u8]
    ensures same { words_of result.now ≡ words_of bytes.now }
    ensures word { BeginsWord result.now }
{
    let mut rest = bytes;
    while let [b' ', behind @ ..] = rest {
        rest = behind;
    }
    rest
}

/// The first word, and what stands behind it.
pub(crate) fn next_word(bytes: &[u8]) -> Option<(&[u8], &[u8])>
    ensures { MatchOption result (words_of bytes.now ≡ [])
        (λ parts. words_of bytes.now ≡ parts.0.now ∷ words_of parts.1.now) }
{
    let rest = skip_spaces(bytes);
    if rest.is_empty() {
        return None;
    }
    match cut(rest, b' ') {
        Some((word, behind)) => Some((word, behind)),
        None => Some((rest, &[])),
    }
}
