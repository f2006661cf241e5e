//! Boards that show the times of a server, and which events are cancelled.

ghost use Rattle.std.specs.Prelude.{◌≡◌, ◌<◌, false, Some, vec_len};
ghost use Rattle.dm_rows.specs.History.{IsLegal};
ghost use Rattle.dm_display.specs.Displays.{IsFor};
ghost use Rattle.dm_crew.specs.Inside.Displays.{HasEarlierTimes, Shows};

use crate::desk::Seat;
use dm_display::Display;
use dm_outside::Board;
use dm_server::{Kept, Server};
use dm_turn::Pass;
use std::sync::Wait;

/// Shows boards the times after the history that a pass then sees, whatever they have shown. Where there are none, nobody waits for
/// the server. It takes no memory.
pub fn show<'n, P: Seat, R: Wait>(
    rt: &R,
    server: &Server<'n>,
    main: &mut Pass<Kept<'n>>,
    display: &mut Display<'n>,
    boards: &mut Vec<Box<dyn Board>>,
)
    requires here { main.old.turn ≡ server.now.id }
    requires idle { main.old.holds ≡ false }
    requires base { main.old.base ≡ Some P.base }
    requires legal { IsLegal P.base.network P.base.start main.old.seen }
    requires fits { IsFor P.base.network (vec_len boards.old) display.old }
    ensures { Shows place times flags faults is_sound P.base main.old main.new display.old display.new boards.old.items boards.new.items }
{
    if boards.is_empty() {
        return;
    }
    let entry = server.copy_shown(rt, main, &mut display.times, &mut display.cancelled);
    display.entries = entry;
    let _dropped = display.publisher.publish(
        display.net,
        &display.times,
        &display.cancelled,
        entry,
        boards,
    );
}

/// The same of boards that nobody else has shown anything since they were shown times last: they are asked only for events whose
/// times or marks have changed.
pub fn show_growth<'n, P: Seat, R: Wait>(
    rt: &R,
    server: &Server<'n>,
    main: &mut Pass<Kept<'n>>,
    display: &mut Display<'n>,
    boards: &mut Vec<Box<dyn Board>>,
)
    requires here { main.old.turn ≡ server.now.id }
    requires idle { main.old.holds ≡ false }
    requires base { main.old.base ≡ Some P.base }
    requires legal { IsLegal P.base.network P.base.start main.old.seen }
    requires fits { IsFor P.base.network (vec_len boards.old) display.old }
    requires has { 0 < vec_len boards.old → HasEarlierTimes P.base main.old.seen display.old }
    ensures { Shows place times flags faults is_sound P.base main.old main.new display.old display.new boards.old.items boards.new.items }
{
    if boards.is_empty() {
        return;
    }
    let shown = display.entries;
    let entry = server.follow_times(
        rt,
        main,
        &mut display.times,
        &mut display.cancelled,
        shown,
        &mut display.listed,
    );
    display.entries = entry;
    let _dropped = display.publisher.publish_listed(
        display.net,
        &display.times,
        &display.cancelled,
        &display.listed,
        entry,
        boards,
    );
}
