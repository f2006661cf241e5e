//! The reader of a feed.
ghost use Rattle.std.specs.Prelude.{◌≡◌, ◌≢◌, ◌+◌, ◌<◌, ◌≤◌, [], length, take, drop, IfOk, IfErr, IfSome, Some, None, MatchOption, MatchBool};
ghost use Rattle.dm_feed.specs.Feeds.{Answers, StopsAt, IsUnended, without_return};
ghost use Rattle.dm_feed.specs.Lines.{Hears};
ghost use Rattle.dm_feed.specs.DueItems.{AnswersInOrder, IsDetermined};
ghost use Rattle.dm_feed.specs.Inside.Consuming.{EndsAt, Fills, FailsToFill, ConsumesRest, ConsumesLine};

use crate::buffer::Buffer;
use crate::feed::{FeedStop, Next};
use crate::grammar::Heard;
use crate::reading::read_line;
use dm_base::limits::{FEED, LINE};
use dm_outside::Source;
use memchr::memchr;
use std::marker::Model;

/// Reads the lines of a feed from a source, and takes no memory. It takes at most 262,145 bytes.
#[derive(Drop)]
pub struct LineReader<S> {
    source: S,
    buffer: Buffer,
    taken: usize,
    lines: u32,
    stop: Option<FeedStop>,
}

impl<S> Model for LineReader<S> {
    ghost use Rattle.std.specs.Prelude.{◌≡◌, ◌+◌, ◌≤◌, length, None};
    ghost use Rattle.dm_feed.specs.Feeds.{ReaderValue};

    ghost Value = { ReaderValue S };

    ghost view = { λ reader. record {
      source = reader.source;
      pending = reader.buffer;
      taken = reader.taken;
      lines = reader.lines;
      stop = reader.stop;
    } };

    ghost invariant = { λ reader.
        (reader.taken ≤ 262145) × (reader.lines + length reader.buffer ≤ reader.taken)
        × (reader.stop ≡ None → reader.taken ≤ 262144) };
}

/// What stood at the front of what was left of a feed.
enum NextLine {
    /// A line with its end.
    Line(Heard),

    /// The last line, which has no end.
    Last(Heard),

    /// No line.
    Nothing(FeedStop),
}

// Whether something is asked.
fn is_due(heard: &Heard) -> bool
    ensures { MatchBool result (heard.now ≢ Heard.Blank) (heard.now ≡ Heard.Blank) }
{
    !matches!(heard, Heard::Blank)
}

/// The place of the first line feed, if none is before this place.
pub(crate) fn line_feed(bytes: &[u8], from: usize) -> Option<usize>
    requires within { from ≤ length bytes.now }
    requires unended { IsUnended (take from bytes.now) }
    ensures { MatchOption result (IsUnended bytes.now) (EndsAt bytes.now) }
{
    let Some(place) = memchr(b'\n', &bytes[from..]) else {
        return None;
    };
    Some(from + place)
}

// The bytes without a carriage return at their end.
fn without_return(bytes: &[u8]) -> &[u8]
    ensures { result.now ≡ without_return bytes.now }
{
    let [front @ .., last] = bytes else {
        return bytes;
    };
    if *last == b'\r' { front } else { bytes }
}

/// What is heard in a line that ended with a line feed.
pub(crate) fn hear_ended(bytes: &[u8]) -> Heard
    ensures { Hears (without_return bytes.now) result }
{
    read_line(without_return(bytes))
}

impl<S> LineReader<S> {
    /// A reader of all that the source has left.
    pub fn new(source: S) -> LineReader<S>
        ensures { result ≡ record { source = source; pending = []; taken = 0; lines = 0; stop = None } }
    {
        LineReader {
            source,
            buffer: Buffer::new(),
            taken: 0,
            lines: 0,
            stop: None,
        }
    }

    // The place of the first line feed among what is pending, if none is before this place.
    fn pending_line_feed(&self, from: usize) -> Option<usize>
        requires within { from ≤ length self.now.pending }
        requires unended { IsUnended (take from self.now.pending) }
        ensures { MatchOption result (IsUnended self.now.pending) (EndsAt self.now.pending) }
    {
        line_feed(self.buffer.as_slice(), from)
    }

    // The line that was consumed last, with what was heard in it.
    fn due(&self, heard: Heard) -> Next
        ensures { result ≡ Next.Due self.now.lines heard }
    {
        Next::Due {
            line: self.lines,
            heard,
        }
    }

    // How many bytes are pending.
    fn waiting(&self) -> usize
        ensures { result ≡ length self.now.pending }
    {
        self.buffer.as_slice().len()
    }

    // Consumes a line whose line feed is at this place.
    fn consume_to(&mut self, at: usize)
        requires { at < length self.old.pending }
        ensures consumed { self.new ≡ record self.old { pending = drop (at + 1) self.old.pending; lines = self.old.lines + 1 } }
        ensures within { self.old.stop ≡ None → self.old.taken ≤ 262144 }
    {
        self.buffer.drop_front(at + 1);
        self.lines += 1;
    }

    // Consumes the line that ends with the line feed at this place.
    fn consume_ended(&mut self, at: usize) -> Heard
        requires { at < length self.old.pending }
        ensures consumed { self.new ≡ record self.old { pending = drop (at + 1) self.old.pending; lines = self.old.lines + 1 } }
        ensures within { self.old.stop ≡ None → self.old.taken ≤ 262144 }
        ensures hears { Hears (without_return (take at self.old.pending)) result }
    {
        let heard = hear_ended(&self.buffer.as_slice()[..at]);
        self.consume_to(at);
        heard
    }

    // Consumes all that is pending as the last line.
    fn consume_last(&mut self) -> Heard
        requires { 0 < length self.old.pending }
        ensures consumed { self.new ≡ record self.old { pending = []; lines = self.old.lines + 1; stop = Some FeedStop.End } }
        ensures hears { Hears self.old.pending result }
    {
        let heard = read_line(self.buffer.as_slice());
        self.buffer.clear();
        self.lines += 1;
        self.stop = Some(FeedStop::End);
        heard
    }

    // Consumes the last line, of which the front was let go.
    fn consume_dropped(&mut self)
        requires some { self.old.lines < self.old.taken }
        requires none { self.old.pending ≡ [] }
        ensures { self.new ≡ record self.old { lines = self.old.lines + 1; stop = Some FeedStop.End } }
    {
        self.lines += 1;
        self.stop = Some(FeedStop::End);
    }

    // Lets the front of a line go.
    fn drop_pending(&mut self)
        ensures dropped { self.new ≡ record self.old { pending = [] } }
        ensures counted { self.old.lines + length self.old.pending ≤ self.old.taken }
    {
        self.buffer.clear();
    }

    // Consumes all that is pending, behind which the source has ended.
    fn consume_rest(&mut self) -> NextLine
        ensures { ConsumesRest self.old self.new result }
    {
        if self.waiting() > 0 {
            return NextLine::Last(self.consume_last());
        }
        self.stop = Some(FeedStop::End);
        NextLine::Nothing(FeedStop::End)
    }
}

impl<S: Source> LineReader<S> {
    // Takes more bytes behind the pending ones.
    fn fill(&mut self) -> Result<usize, FeedStop>
        requires open { self.old.stop ≡ None }
        requires room { length self.old.pending < 4096 }
        ensures ok { IfOk result (Fills S.left self.old self.new) }
        ensures err { IfErr result (FailsToFill S.left S.faults S.is_sound self.old self.new) }
        ensures stopped { IfErr result (λ stop. self.new.stop ≡ Some stop) }
        ensures later { S.faults self.old.source ≤ S.faults self.new.source }
        ensures stays_sound { S.is_sound self.old.source → S.is_sound self.new.source }
    {
        let most = if self.taken < FEED {
            FEED - self.taken
        } else {
            1
        };
        let Ok(count) = self.buffer.read_from(&mut self.source, most) else {
            self.stop = Some(FeedStop::Fault);
            return Err(FeedStop::Fault);
        };
        self.taken += count;
        if self.taken > FEED {
            self.stop = Some(FeedStop::Long);
            return Err(FeedStop::Long);
        }
        Ok(count)
    }

    // Consumes a line of which so much is pending that it is malformed.
    fn skip_line(&mut self) -> NextLine
        requires open { self.old.stop ≡ None }
        requires long { 1025 < length self.old.pending }
        requires unended { IsUnended self.old.pending }
        ensures consumes { ConsumesLine S.left S.faults S.is_sound self.old self.new result }
        ensures later { S.faults self.old.source ≤ S.faults self.new.source }
        ensures stays_sound { S.is_sound self.old.source → S.is_sound self.new.source }
    {
        self.drop_pending();
        loop {
            match self.fill() {
                Err(stop) => return NextLine::Nothing(stop),
                Ok(0) => {
                    self.consume_dropped();
                    return NextLine::Last(Heard::Malformed);
                }
                Ok(_) => {}
            }
            if let Some(at) = self.pending_line_feed(0) {
                self.consume_to(at);
                return NextLine::Line(Heard::Malformed);
            }
            self.drop_pending();
        }
    }

    fn next_line(&mut self) -> NextLine
        requires open { self.old.stop ≡ None }
        ensures consumes { ConsumesLine S.left S.faults S.is_sound self.old self.new result }
        ensures later { S.faults self.old.source ≤ S.faults self.new.source }
        ensures stays_sound { S.is_sound self.old.source → S.is_sound self.new.source }
    {
        let mut looked = 0;
        loop {
            if let Some(at) = self.pending_line_feed(looked) {
                return NextLine::Line(self.consume_ended(at));
            }
            looked = self.waiting();
            if looked > LINE + 1 {
                return self.skip_line();
            }
            match self.fill() {
                Err(stop) => return NextLine::Nothing(stop),
                Ok(0) => return self.consume_rest(),
                Ok(_) => {}
            }
        }
    }

    // The next due line, or why there is none.
    fn next_due(&mut self) -> Next
        requires open { self.old.stop ≡ None }
        ensures answers { Answers S.left S.faults S.is_sound self.old self.new result }
        ensures stopped { StopsAt self.new result }
        ensures later { S.faults self.old.source ≤ S.faults self.new.source }
        ensures stays_sound { S.is_sound self.old.source → S.is_sound self.new.source }
    {
        loop {
            match self.next_line() {
                NextLine::Line(heard) => {
                    if is_due(&heard) {
                        return self.due(heard);
                    }
                }
                NextLine::Last(heard) => {
                    if is_due(&heard) {
                        return self.due(heard);
                    }
                    return Next::Stop(FeedStop::End);
                }
                NextLine::Nothing(stop) => return Next::Stop(stop),
            }
        }
    }

    /// The next line that is neither blank nor a comment, or why there is none. After a stop each call gives that stop
    /// and reads nothing.
    pub fn next(&mut self) -> Next
        // What is given, and what it leaves.
        ensures answers { self.old.stop ≡ None → Answers S.left S.faults S.is_sound self.old self.new result }

        // Where the source tells what is left: the first due item of it, and then the others are left; a stop only
        // where there is none, by the size of the feed.
        ensures in_order { self.old.stop ≡ None → IfSome (S.left self.old.source)
            (λ rest. AnswersInOrder S.left self.old self.new rest result) }

        // So the due items that are left determine the answer, unless a read failed.
        ensures exactly { self.old.stop ≡ None → result ≢ Next.Stop FeedStop.Fault
            → IfSome (S.left self.old.source) (λ rest. IsDetermined self.old rest result) }

        // A stop is the last answer.
        ensures stopped { StopsAt self.new result }
        ensures stays_stopped { IfSome self.old.stop (λ stop. (result ≡ Next.Stop stop) × (self.new ≡ self.old)) }

        // Never more than one byte above the limit is taken.
        ensures bounded { self.new.taken ≤ 262145 }

        ensures later { S.faults self.old.source ≤ S.faults self.new.source }
        ensures stays_sound { S.is_sound self.old.source → S.is_sound self.new.source }
    {
        if let Some(stop) = self.stop {
            return Next::Stop(stop);
        }
        self.next_due()
    }
}
