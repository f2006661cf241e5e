//! Words that are names, and words that are options.
ghost use Rattle.std.specs.Prelude.{Bool, ◌≡◌, ◌∷◌, [], ◌||◌, ℕ, Option, List, Some, None, map, filter, length, string_bytes, MatchOption};
ghost use Rattle.std.specs.Option.{option_map};
ghost use Rattle.std.specs.List.{list_all};
ghost use Rattle.dm_words.specs.Asked.{names_in};
ghost use Rattle.dm_words.specs.Options.{GivesOption, HasFlag, at_option, batch_option, behind, boards_option, file_options, held_option, is_name, is_option, minimal_option, options_of, solve_option, start_options, values_of, workers_option};

/// How the word of each option begins.
pub const PENALTY_OPTION: &str = "--penalty=";

pub const PLANS_OPTION: &str = "--plans=";

pub const BATCH_OPTION: &str = "--batch=";

pub const EVENT_COLUMNS: &str = "--event-columns=";

pub const ACTIVITY_COLUMNS: &str = "--activity-columns=";

pub const EVENT_DELAYS: &str = "--event-delays=";

pub const ACTIVITY_DELAYS: &str = "--activity-delays=";

pub const CANCELLED_OPTION: &str = "--cancelled=";

pub const BOARDS_OPTION: &str = "--boards=";

pub const AT_OPTION: &str = "--at=";

pub const HELD_OPTION: &str = "--held=";

pub const MINIMAL_OPTION: &str = "--minimal=";

pub const CHANGES_OPTION: &str = "--changes=";

pub const WORKERS_OPTION: &str = "--workers=";

/// The option that has no value.
pub const SOLVE_OPTION: &str = "--solve";

/// A question to the journal of a text.
#[derive(Clone, Copy, PartialEq, Eq, Debug)]
pub enum QueryKind {
    Follow,
    Window,
    Rules,
    Journey,
}

/// A command, by which its words may have these options or those.
#[derive(Clone, Copy, PartialEq, Eq, Debug)]
pub enum Kind {
    Run,
    Check,
    Gen,
    Query(QueryKind),
}

/// What stands behind the text, where the word begins with it.
pub fn behind<'a>(text: &str, word: &'a str) -> Option<&'a str>
    ensures { option_map (λ x. x.now) result ≡ behind text.now word.now }
{
    word.strip_prefix(text)
}

fn is_name(word: &str) -> bool
    ensures { result ≡ is_name word.now }
{
    match word.as_bytes() {
        [] => false,
        [first, ..] => *first != b'-',
    }
}

/// Whether the word names a file of what is so at the start.
#[tactic(auto, unfolding(crate::specs::Options::start_options))]
fn is_start_option(word: &str) -> bool
    ensures { result ≡ is_option start_options word.now }
{
    behind(EVENT_DELAYS, word).is_some()
        || behind(ACTIVITY_DELAYS, word).is_some()
        || behind(CANCELLED_OPTION, word).is_some()
}

/// Whether the word is an option of the files of a folder.
#[tactic(auto, unfolding(crate::specs::Options::file_options))]
fn is_file_option(word: &str) -> bool
    ensures { result ≡ is_option file_options word.now }
{
    behind(PENALTY_OPTION, word).is_some()
        || behind(PLANS_OPTION, word).is_some()
        || behind(EVENT_COLUMNS, word).is_some()
        || behind(ACTIVITY_COLUMNS, word).is_some()
        || is_start_option(word)
}

/// Whether the word is an option of a run.
fn is_run_option(word: &str) -> bool
    ensures { result ≡ is_option (batch_option ∷ workers_option ∷ boards_option ∷ file_options) word.now }
{
    behind(BATCH_OPTION, word).is_some()
        || behind(WORKERS_OPTION, word).is_some()
        || behind(BOARDS_OPTION, word).is_some()
        || is_file_option(word)
}

/// Whether the word is an option of a window.
fn is_window_option(word: &str) -> bool
    ensures { result ≡ is_option (at_option ∷ held_option ∷ minimal_option ∷ solve_option ∷ file_options) word.now }
{
    behind(AT_OPTION, word).is_some()
        || behind(HELD_OPTION, word).is_some()
        || behind(MINIMAL_OPTION, word).is_some()
        || behind(SOLVE_OPTION, word).is_some()
        || is_file_option(word)
}

/// Whether the word is an option of the command.
fn is_option(kind: Kind, word: &str) -> bool
    ensures { result ≡ is_option (options_of kind) word.now }
{
    match kind {
        Kind::Run => is_run_option(word),
        Kind::Check | Kind::Query(QueryKind::Follow) => is_file_option(word),
        Kind::Gen => behind(PENALTY_OPTION, word).is_some(),
        Kind::Query(QueryKind::Window) => is_window_option(word),
        Kind::Query(QueryKind::Rules) => {
            behind(WORKERS_OPTION, word).is_some()
                || behind(SOLVE_OPTION, word).is_some()
                || is_file_option(word)
        }
        Kind::Query(QueryKind::Journey) => {
            behind(CHANGES_OPTION, word).is_some() || is_file_option(word)
        }
    }
}

/// Whether each word is a name or an option of the command.
pub fn are_known(kind: Kind, words: &[String]) -> bool
    ensures { result ≡ list_all (λ word. is_name word || is_option (options_of kind) word) (map string_bytes words.now) }
{
    for word in words {
        if !is_name(word.as_str()) && !is_option(kind, word.as_str()) {
            return false;
        }
    }
    true
}

/// The first value that the words give an option, and the words behind it.
fn next_value<'a>(option: &str, words: &'a [String]) -> Option<(&'a str, &'a [String])>
    ensures { MatchOption result (values_of option.now (map string_bytes words.now) ≡ [])
        (λ next. values_of option.now (map string_bytes words.now) ≡ next.0.now ∷ values_of option.now (map string_bytes next.1.now)) }
{
    for (place, word) in words.iter().enumerate() {
        if let Some(value) = behind(option, word.as_str()) {
            return Some((value, &words[place + 1..]));
        }
    }
    None
}

/// A value that is no text, or stands twice.
pub fn given<'a>(option: &str, words: &'a [String]) -> Option<Option<&'a str>>
    ensures { MatchOption result ((v : Option (List ℕ)) → GivesOption option.now (map string_bytes words.now) v → ⊥)
        (λ v. GivesOption option.now (map string_bytes words.now) (option_map (λ x. x.now) v)) }
{
    let Some((value, rest)) = next_value(option, words) else {
        return Some(None);
    };
    if value.is_empty() || next_value(option, rest).is_some() {
        return None;
    }
    Some(Some(value))
}

/// Whether the words have an option that takes no value, which stands at most once.
pub fn has_flag(option: &str, words: &[String]) -> Option<bool>
    ensures { MatchOption result ((has : Bool) → HasFlag option.now (map string_bytes words.now) has → ⊥)
        (λ has. HasFlag option.now (map string_bytes words.now) has) }
{
    let Some((value, rest)) = next_value(option, words) else {
        return Some(false);
    };
    if !value.is_empty() || next_value(option, rest).is_some() {
        return None;
    }
    Some(true)
}

/// The first of the words that is a name, and the words behind it.
pub fn next_name(words: &[String]) -> Option<(&str, &[String])>
    ensures { MatchOption result (filter is_name (map string_bytes words.now) ≡ [])
        (λ next. filter is_name (map string_bytes words.now) ≡ next.0.now ∷ filter is_name (map string_bytes next.1.now)) }
{
    for (place, word) in words.iter().enumerate() {
        if is_name(word.as_str()) {
            return Some((word.as_str(), &words[place + 1..]));
        }
    }
    None
}

/// How many of the words are names.
pub fn count_names(words: &[String]) -> usize
    ensures { result ≡ length (filter is_name (map string_bytes words.now)) }
{
    let mut count = 0;
    for word in words {
        if is_name(word.as_str()) {
            count += 1;
        }
    }
    count
}

/// The two names of the words, where they are two.
pub fn two_names(words: &[String]) -> Option<(&str, &str)>
    ensures { MatchOption result ((one other : List ℕ) → filter is_name (map string_bytes words.now) ≡ one ∷ other ∷ [] → ⊥)
        (λ names. filter is_name (map string_bytes words.now) ≡ names.0.now ∷ names.1.now ∷ []) }
{
    let Some((one, rest)) = next_name(words) else {
        return None;
    };
    let Some((other, rest)) = next_name(rest) else {
        return None;
    };
    if next_name(rest).is_some() {
        return None;
    }
    Some((one, other))
}

/// The three names of the words, where they are three.
pub fn three_names(words: &[String]) -> Option<(&str, &str, &str)>
    ensures { MatchOption result ((one other third : List ℕ) → filter is_name (map string_bytes words.now) ≡ one ∷ other ∷ third ∷ [] → ⊥)
        (λ names. filter is_name (map string_bytes words.now) ≡ names.0.now ∷ names.1.now ∷ names.2.now ∷ []) }
{
    let Some((one, rest)) = next_name(words) else {
        return None;
    };
    let Some((other, third)) = two_names(rest) else {
        return None;
    };
    Some((one, other, third))
}

/// The names among some words, in their order.
#[derive(Clone, Copy)]
pub struct Names<'a> {
    pub(crate) words: &'a [String],
}

impl<'a> Names<'a> {
    /// The first name, and the names behind it.
    pub fn split_first(self) -> Option<(&'a str, Names<'a>)>
        ensures { MatchOption result (names_in self.entry ≡ []) (λ next. names_in self.entry ≡ next.0.now ∷ names_in next.1) }
    {
        match next_name(self.words) {
            Some((name, words)) => Some((name, Names { words })),
            None => None,
        }
    }
}
