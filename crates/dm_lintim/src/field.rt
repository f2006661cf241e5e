//! The cell of a field: the part without blanks at its ends and without one pair of quotes.
ghost use Rattle.std.specs.Prelude.{◌≡◌, ◌-◌, ◌+◌, ◌≤◌, ◌↔◌, IsTrue, length, map};
ghost use Rattle.std.specs.Char.{to_ascii_lowercase};
ghost use Rattle.std.specs.List.{prefix_len, suffix_len};
ghost use Rattle.dm_lintim.specs.Pieces.{is_blank, cell_of, unquoted, without_front_blanks, without_end_blanks};

fn is_blank(byte: u8) -> bool
    ensures { result ≡ is_blank byte }
{
    byte == b' ' || byte == b'\t'
}

fn front_blanks(text: &[u8]) -> usize
    ensures count { result ≡ prefix_len is_blank text.now }
    ensures within { result ≤ length text.now }
{
    let mut count = 0;
    while count < text.len() && is_blank(text[count]) {
        count += 1;
    }
    count
}

fn end_without_blanks(text: &[u8]) -> usize
    ensures { result + suffix_len is_blank text.now ≡ length text.now }
{
    let mut end = text.len();
    while end > 0 && is_blank(text[end - 1]) {
        end -= 1;
    }
    end
}

/// A text from its first byte that is no blank on.
pub(crate) fn trim_front(text: &[u8]) -> &[u8]
    ensures { result.now ≡ without_front_blanks text.now }
{
    &text[front_blanks(text)..]
}

fn trim_end(text: &[u8]) -> &[u8]
    ensures { result.now ≡ without_end_blanks text.now }
{
    &text[..end_without_blanks(text)]
}

fn unquoted(text: &[u8]) -> &[u8]
    ensures { result.now ≡ unquoted text.now }
{
    let end = text.len();
    if end >= 2 && text[0] == b'"' && text[end - 1] == b'"' {
        &text[1..end - 1]
    } else {
        text
    }
}

pub(crate) fn cell_of(field: &[u8]) -> &[u8]
    ensures { result.now ≡ cell_of field.now }
{
    unquoted(trim_end(trim_front(field)))
}

/// Whether a text is a word; ASCII letters count in either case. A text of another length is none, and most texts have the
/// letters in the word's case, so this is tried first.
pub(crate) fn is_word(text: &[u8], word: &str) -> bool
    ensures { IsTrue result ↔ (map to_ascii_lowercase text.now ≡ map to_ascii_lowercase word.now) }
{
    if text.len() != word.len() {
        return false;
    }
    if text == word.as_bytes() {
        return true;
    }
    text.eq_ignore_ascii_case(word.as_bytes())
}
