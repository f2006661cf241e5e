//! Copies of what lines say, which take no memory.
ghost use Rattle.std.specs.Prelude.{◌≡◌};
ghost use Rattle.dm_feed.specs.Lines.{IsSaid, IsSpelledLine};

use crate::grammar::Line;
use dm_rows::Message;

/// The same line. Of a message it is one that a line says.
pub fn copy_of_line(said: &Line) -> Line
    requires { IsSpelledLine said.now }
    ensures { result ≡ said.now }
{
    match said {
        Line::Say(message) => Line::Say(copy_of_message(message)),
        Line::Time(event) => Line::Time(*event),
        Line::CostNow => Line::CostNow,
        Line::Plan(nodes) => Line::Plan(*nodes),
        Line::Solve(nodes) => Line::Solve(*nodes),
        Line::Adopt => Line::Adopt,
        Line::Carry => Line::Carry,
        Line::Read => Line::Read,
    }
}

/// The same message, which a line says, so it is no adopted list.
pub fn copy_of_message(message: &Message) -> Message
    requires { IsSaid message.now }
    ensures { result ≡ message.now }
{
    match message {
        Message::DelayEvent(event, delay) => Message::DelayEvent(*event, *delay),
        Message::DelayActivity(act, delay) => Message::DelayActivity(*act, *delay),
        Message::Pass(event, time) => Message::Pass(*event, *time),
        Message::Recall(event) => Message::Recall(*event),
        Message::Keep(act) => Message::Keep(*act),
        Message::Drop(act) => Message::Drop(*act),
        Message::First(first, second) => Message::First(*first, *second),
        Message::Now(time) => Message::Now(*time),
        Message::Cancel(event) => Message::Cancel(*event),
        Message::Restore(event) => Message::Restore(*event),
        Message::Lock(choice) => Message::Lock(*choice),
        Message::Unlock(choice) => Message::Unlock(*choice),
        Message::Adopt(_) => unreachable!(),
    }
}
