//! The feed of delays.
ghost use Rattle.std.specs.Prelude.{◌≡◌, ◌+◌, ◌*◌, ◌<◌, ◌≤◌, IfOk};
ghost use Rattle.dm_rows.specs.declared.messages.Message.TheVariants.{DelayEvent};
ghost use Rattle.dm_feed.specs.declared.grammar.Line.TheVariants.{Say};
ghost use Rattle.dm_gen.specs.Draws.{next_state, drawn_below};
ghost use Rattle.dm_gen.specs.Feed.{feed_of};

use crate::draws::Draws;
use dm_base::EventId;
use dm_feed::Line;
use dm_rows::Message;
use std::alloc::{AllocError, Global};

// The line of the next two draws: the event of so many trains, then its delay.
fn next_line(draws: &mut Draws, trains: u32) -> Line
    requires least { 0 < trains }
    requires most { trains ≤ 2000 }
    ensures moved { draws.new.state ≡ next_state (next_state draws.old.state) }
    ensures line { result ≡ Line.Say (Message.DelayEvent (record { 0 = drawn_below (20 * trains) (next_state draws.old.state) + 1 })
        (drawn_below 900 draws.new.state + 1)) }
{
    let event = draws.below(20 * u64::from(trains)) as u32 + 1;
    let delay = draws.below(900) + 1;
    Line::Say(Message::DelayEvent(EventId(event), delay))
}

/// The feed's lines for so many trains, drawn from the number.
pub(crate) fn feed_of(alloc: Global, number: u64, trains: u32) -> Result<Vec<Line>, AllocError>
    requires least { 0 < trains }
    requires most { trains ≤ 2000 }
    ensures { IfOk result (λ lines. lines.items ≡ feed_of number trains) }
{
    let mut draws = Draws { state: number };
    let mut lines = Vec::new(alloc);
    for _line in 0..500u32 {
        lines.push(next_line(&mut draws, trains))?;
    }
    Ok(lines)
}
