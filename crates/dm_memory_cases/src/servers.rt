//! A server that is opened, entered into, copied, and given choices to carry over.
ghost use Rattle.std.specs.Prelude.{◌≡◌, false};

use crate::case::{LATE, PENALTY, is_due};
use dm_base::ActId;
use dm_network::Network;
use dm_rows::{At, Decision, Entry, Refusal};
use dm_samples::{Failure, rows_on_time};
use dm_server::{Kept, Server};
use dm_settle::NoTimes;
use dm_turn::Pass;
use std::sync::Wait;

/// The change is not waited for.
const CHOICES: [Decision; 1] = [Decision::Drop(ActId(5))];

/// A delay is posted, the rows are copied, and a choice is carried over.
pub fn serves<R: Wait + AllocGlobal>(rt: &R, net: &Network) -> Result<(), Failure> {
    match serves_once(rt, net) {
        Err(Failure::OutOfMemory) => serves_once(rt, net),
        outcome => outcome,
    }
}

fn serves_once<R: Wait + AllocGlobal>(rt: &R, net: &Network) -> Result<(), Failure> {
    let rows = rows_on_time(rt.alloc(), net)?;
    match Server::new(rt.alloc(), net, rows, PENALTY, 1) {
        Ok((server, mut pass)) => is_served(rt, &server, &mut pass),
        Err(NoTimes::OutOfMemory) => Err(Failure::OutOfMemory),
        Err(NoTimes::Cycle(_)) => Err(Failure::NoDay),
    }
}

fn is_served<'n, R: Wait>(
    rt: &R,
    server: &Server<'n>,
    pass: &mut Pass<Kept<'n>>,
) -> Result<(), Failure>
    requires turn { pass.old.turn ≡ server.now.id }
    requires idle { pass.old.holds ≡ false }
{
    let number = posted(rt, server, pass)?;
    let entry = copied(rt, server, pass)?;
    let carried = carried(rt, server, pass)?;
    is_due((number, entry, carried) == (1, 1, 2), 5)
}

/// Posts the delay, and gives the number of its entry.
fn posted<'n, R: Wait>(
    rt: &R,
    server: &Server<'n>,
    pass: &mut Pass<Kept<'n>>,
) -> Result<u32, Failure>
    requires turn { pass.old.turn ≡ server.now.id }
    requires idle { pass.old.holds ≡ false }
    ensures turn { pass.new.turn ≡ server.now.id }
    ensures idle { pass.new.holds ≡ false }
{
    match post(rt, server, pass) {
        Ok(number) => Ok(number),
        Err(refused) => {
            let At { entry, why } = refused;
            is_due(entry == 0 && why == Refusal::OutOfMemory, 0)?;
            post(rt, server, pass).map_err(|_refused| Failure::Differs(1))
        }
    }
}

fn post<'n, R: Wait>(
    rt: &R,
    server: &Server<'n>,
    pass: &mut Pass<Kept<'n>>,
) -> Result<u32, At<Refusal>>
    requires turn { pass.old.turn ≡ server.now.id }
    requires idle { pass.old.holds ≡ false }
    ensures turn { pass.new.turn ≡ server.now.id }
    ensures idle { pass.new.holds ≡ false }
{
    let entry = Entry {
        feed: 1,
        line: 1,
        message: LATE,
    };
    server.post(rt, pass, entry)
}

/// Copies the rows, and gives how many entries they are after.
fn copied<'n, R: Wait>(
    rt: &R,
    server: &Server<'n>,
    pass: &mut Pass<Kept<'n>>,
) -> Result<u32, Failure>
    requires turn { pass.old.turn ≡ server.now.id }
    requires idle { pass.old.holds ≡ false }
    ensures turn { pass.new.turn ≡ server.now.id }
    ensures idle { pass.new.holds ≡ false }
{
    if let Ok(snapshot) = server.snapshot(rt, pass) {
        return Ok(snapshot.entry);
    }
    match server.snapshot(rt, pass) {
        Ok(snapshot) => Ok(snapshot.entry),
        Err(_refused) => Err(Failure::Differs(2)),
    }
}

/// Carries the choice over, and gives the number of its entry.
fn carried<'n, R: Wait>(
    rt: &R,
    server: &Server<'n>,
    pass: &mut Pass<Kept<'n>>,
) -> Result<u32, Failure>
    requires turn { pass.old.turn ≡ server.now.id }
    requires idle { pass.old.holds ≡ false }
{
    let At { entry, why } = match server.carry(rt, pass, CHOICES.as_slice(), 1, 2) {
        Ok(number) => return Ok(number),
        Err(refused) => refused,
    };
    is_due(entry == 1 && why == Refusal::OutOfMemory, 3)?;
    server
        .carry(rt, pass, CHOICES.as_slice(), 1, 2)
        .map_err(|_refused| Failure::Differs(4))
}
