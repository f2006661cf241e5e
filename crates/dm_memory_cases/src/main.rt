//! Calls that are made again where memory was refused.
//!
//! The cases run on a connection at one station whose first train is a minute late. They make calls that take memory and change
//! something, and calls that no run makes: they keep entries, enter into a table and a server, carry choices over, follow a journal,
//! search for a plan, and ask for the choices of a rule. Where a call is refused memory, what it
//! changes has to be as before. The same call is then made again, and has to answer. For each case the program prints `NAME ok`, or
//! after how many steps it came out otherwise.
//!
//! With ample memory nothing is refused. `dispatch-tools memory` refuses each call for memory in turn, and the printed text has
//! to stay the same. The program stands on the crates that it calls and on dm_samples for networks, and promises nothing.
#![tactic(auto)]

mod case;
mod entries;
mod followers;
mod plans;
mod servers;
mod tables;

ghost use Rattle.dm_rows.specs.Rows.{IsSized};

use case::{Case, late_day, network, twice};
use dm_network::Network;
use dm_rows::Snapshot;
use dm_samples::{Sample, report};
use entries::KeepsEntries;
use followers::FollowsJournal;
use plans::{ComparesRule, MakesPlan};
use servers::serves;
use std::io;
use std::sync::Wait;
use tables::{EntersMessages, RefusesCycle};

fn main(rt: HostRuntime) -> io::Result<()> {
    match network(rt.alloc(), Sample::Connection) {
        Ok(net) => on_network(&rt, &net),
        Err(failure) => report(&rt, "network", Err(failure)),
    }
}

fn on_network<R: Print + Wait + AllocGlobal>(rt: &R, net: &Network) -> io::Result<()> {
    match late_day(rt.alloc(), net) {
        Ok(day) => on_day(rt, net, &day),
        Err(failure) => report(rt, "day", Err(failure)),
    }
}

fn on_day<R: Print + Wait + AllocGlobal>(rt: &R, net: &Network, day: &Snapshot) -> io::Result<()>
    requires { IsSized net.now day.now.rows }
{
    say::<KeepsEntries, _>(rt, "entries", net, day)?;
    say::<EntersMessages, _>(rt, "messages", net, day)?;
    say::<RefusesCycle, _>(rt, "cycle", net, day)?;
    say::<FollowsJournal, _>(rt, "journal", net, day)?;
    say::<MakesPlan, _>(rt, "plan", net, day)?;
    say::<ComparesRule, _>(rt, "rule", net, day)?;
    report(rt, "server", serves(rt, net))
}

fn say<C: Case, R: Print + AllocGlobal>(
    rt: &R,
    name: &str,
    net: &Network,
    day: &Snapshot,
) -> io::Result<()>
    requires { IsSized net.now day.now.rows }
{
    report(rt, name, twice::<C>(rt.alloc(), net, day))
}
