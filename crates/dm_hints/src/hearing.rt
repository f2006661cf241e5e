//! What is heard in the text that a command prints.
use crate::text::{cut, is_same, number, word_at};
use dm_base::limits::FEEDS;
use memchr::memchr_iter;

/// How many bytes of a line are kept.
pub const KEPT: usize = 240;

/// How many malformed lines of a feed are told by number.
pub const TOLD: usize = 5;

/// The front of a line.
#[derive(Clone, Copy)]
pub struct Line {
    bytes: [u8; KEPT],
    len: usize,
}

impl Line {
    pub fn new() -> Line {
        Line {
            bytes: [0; KEPT],
            len: 0,
        }
    }

    fn push(&mut self, byte: u8) {
        if let Some(place) = self.bytes.get_mut(self.len) {
            *place = byte;
            self.len = self.len.saturating_add(1);
        }
    }

    fn hold(&mut self, text: &[u8]) {
        for byte in text {
            self.push(*byte);
        }
    }

    /// The bytes that were kept.
    pub fn kept(&self) -> &[u8] {
        self.bytes.get(..self.len).unwrap_or_default()
    }
}

/// The malformed lines of a feed, and how it ended.
#[derive(Clone, Copy)]
pub struct FeedHeard {
    /// How many lines were malformed, and the numbers of the first of them.
    pub malformed: u32,
    pub first: [u64; TOLD],
    pub stop: Stop,
}

/// How a feed ended.
#[derive(Clone, Copy)]
pub enum Stop {
    End,
    Fault,
    Long,
}

/// Why a line is refused.
pub const REASONS: [&str; 17] = [
    "range",
    "unknown-event",
    "unknown-activity",
    "unknown-change",
    "unknown-pair",
    "passed",
    "not-passed",
    "cancelled",
    "not-cancelled",
    "locked",
    "not-locked",
    "cycle",
    "back",
    "full",
    "noplan",
    "old",
    "plans",
];

/// The reason in an answer, and nothing where it has none: `N refused REASON ..`, `N old`, or the reason alone.
fn reason_in(answer: &[u8]) -> &[u8] {
    let (first, rest) = cut(answer, b' ');
    if !matches!(first, [b'0'..=b'9', ..]) {
        return first;
    }
    match rest {
        [b'r', b'e', b'f', b'u', b's', b'e', b'd', b' ', why @ ..] => word_at(why, 0),
        b"old" => rest,
        _ => &[],
    }
}

/// The number of a feed, or 0 where the word is none.
fn feed_number(word: &[u8]) -> usize {
    match number(word) {
        Some(number) if number <= FEEDS as u64 => number as usize,
        _ => 0,
    }
}

/// What a text has told so far.
#[derive(Drop)]
pub struct Heard {
    /// Its first line.
    pub first: Line,
    line: Line,
    has_first: bool,
    is_run: bool,

    /// Whether nothing that stands behind is heard.
    is_done: bool,
    feed: usize,
    pub feeds: [FeedHeard; FEEDS],

    /// How many lines were refused for each reason, in the order of `REASONS`.
    pub refused: [u32; 17],
}

impl Heard {
    pub fn new() -> Heard {
        let silent = FeedHeard {
            malformed: 0,
            first: [0; TOLD],
            stop: Stop::End,
        };
        Heard {
            first: Line::new(),
            line: Line::new(),
            has_first: false,
            is_run: false,
            is_done: false,
            feed: 0,
            feeds: [silent; FEEDS],
            refused: [0; 17],
        }
    }

    /// Whether it is the text of a run.
    pub fn is_run(&self) -> bool {
        self.is_run
    }

    /// Hears bytes.
    pub fn hear_all(&mut self, bytes: &[u8]) {
        if self.is_done {
            return;
        }
        let mut from = 0;
        for end in memchr_iter(b'\n', bytes) {
            self.end_line(bytes.get(from..end).unwrap_or_default());
            from = end.saturating_add(1);
        }
        self.line.hold(bytes.get(from..).unwrap_or_default());
    }

    /// Hears what is left of a line.
    fn end_line(&mut self, rest: &[u8]) {
        if self.line.len == 0 {
            self.hear_line(rest.get(..KEPT).unwrap_or(rest));
        } else {
            self.end_held(rest);
        }
    }

    /// Hears a line of which a front is held.
    fn end_held(&mut self, rest: &[u8]) {
        self.line.hold(rest);
        let line = self.line;
        self.line.len = 0;
        self.hear_line(line.kept());
    }

    /// Hears a line. Most lines tell nothing, so it is inlined, and what some lines tell stays a call.
    #[inline(always)]
    fn hear_line(&mut self, line: &[u8]) {
        if !self.has_first {
            self.hear_first(line);
        } else if !self.is_done {
            self.hear_later(line);
        }
    }

    /// Hears the first line. Nothing else is heard of a text that is not that of a run.
    #[inline(never)]
    fn hear_first(&mut self, line: &[u8]) {
        self.has_first = true;
        self.first.hold(line);
        self.is_run = is_same(word_at(line, 0), "dm-run");
        self.is_done = !self.is_run;
    }

    /// Hears a line of a run's text behind the first. The times and the cost, which are its end, tell nothing.
    #[inline(always)]
    fn hear_later(&mut self, line: &[u8]) {
        match line {
            [b'0'..=b'9', .., b' ', b'o', b'k'] => {}
            [b'0'..=b'9', ..] => self.hear_numbered(line),
            [b'f', ..] => self.hear_feed(line),
            [b'l', ..] if is_same(line, "long") => self.end_feed(Stop::Long),
            [b't', ..] if is_same(word_at(line, 0), "times") => self.is_done = true,
            _ => {}
        }
    }

    /// Hears a line that begins as that of a feed does, or as that of a failed read.
    #[inline(never)]
    fn hear_feed(&mut self, line: &[u8]) {
        let (front, rest) = cut(line, b' ');
        if is_same(front, "feed") {
            self.feed = feed_number(word_at(rest, 0));
        } else if is_same(line, "fault") {
            self.end_feed(Stop::Fault);
        }
    }

    /// Hears a line that begins with a number: a line, an arrow and its answer, or a malformed line.
    #[inline(never)]
    fn hear_numbered(&mut self, line: &[u8]) {
        let (front, arrow) = cut(line, b'>');
        match arrow {
            [b' ', answer @ ..] => self.hear_answer(answer),
            _ => self.hear_unanswered(front),
        }
    }

    /// Hears a line that begins with a number and has no answer.
    fn hear_unanswered(&mut self, line: &[u8]) {
        let (number_of_line, rest) = cut(line, b' ');
        if is_same(rest, "malformed") {
            self.hear_malformed(number(number_of_line).unwrap_or(0));
        }
    }

    fn end_feed(&mut self, stop: Stop) {
        if let Some(feed) = self.feeds.get_mut(self.feed.wrapping_sub(1)) {
            feed.stop = stop;
        }
    }

    fn hear_malformed(&mut self, line: u64) {
        if let Some(feed) = self.feeds.get_mut(self.feed.wrapping_sub(1)) {
            if let Some(place) = feed.first.get_mut(feed.malformed as usize) {
                *place = line;
            }
            feed.malformed = feed.malformed.saturating_add(1);
        }
    }

    fn hear_answer(&mut self, answer: &[u8]) {
        match reason_in(answer) {
            [] => {}
            reason => self.hear_reason(reason),
        }
    }

    /// Counts a refusal, if the word is a reason.
    fn hear_reason(&mut self, reason: &[u8]) {
        for (place, known) in REASONS.iter().enumerate() {
            if is_same(reason, known) {
                if let Some(count) = self.refused.get_mut(place) {
                    *count = count.saturating_add(1);
                }
            }
        }
    }
}
