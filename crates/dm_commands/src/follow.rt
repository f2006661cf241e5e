//! The state that a journal tells, in print.
ghost use Rattle.std.specs.Prelude.{◌≡◌, ◌≤◌, length};
ghost use Rattle.dm_outside.specs.Printing.{Puts};
ghost use Rattle.dm_rows.specs.Rows.{IsSized};
ghost use Rattle.dm_commands.specs.Ends.{EndsAs};
ghost use Rattle.dm_commands.specs.Followed.{cost_line, entries_line, state_text, tail_line};
ghost use Rattle.dm_commands.specs.Inside.Asking.{state_of};

use crate::status::Status;
use crate::verdicts::{put_number, put_two_numbers};
use dm_base::Cost;
use dm_follow::{Follower, Tail};
use dm_network::Network;
use dm_outside::{Piece, Sink, WriteFault, put_pieces};
use dm_report::{write_cancelled, write_timetable};
use dm_rows::Rows;
use dm_times::Times;

/// Prints the state that a follower has come to.
pub fn end_state<K: Sink>(follower: &Follower<'_>, out: &mut K) -> Status
    ensures ends { EndsAs K.taken K.faults out.old out.new (state_of follower.now) Status.Ok result }
    ensures later { K.faults out.old ≤ K.faults out.new }
{
    match put_state(follower, out) {
        Ok(()) => Status::Ok,
        Err(WriteFault) => Status::WriteFault,
    }
}

/// Puts the state that a follower has come to.
fn put_state<K: Sink>(follower: &Follower<'_>, out: &mut K) -> Result<(), WriteFault>
    ensures { Puts K.taken K.faults out.old out.new result (state_of follower.now) }
{
    let table = follower.table();
    table.reveal();
    let (net, rows, times) = (table.network(), table.rows(), table.times());
    put_parts(
        out,
        table.len(),
        follower.tail(),
        net,
        rows,
        times,
        table.cost_now(),
    )
}

/// Puts the parts of a state.
fn put_parts<K: Sink>(
    out: &mut K,
    entries: u32,
    tail: Tail,
    net: &Network,
    rows: &Rows,
    times: &Times,
    cost: Cost,
) -> Result<(), WriteFault>
    requires sized { IsSized net.now rows.now }
    requires times { length times.now ≡ length net.now.events }
    ensures { Puts K.taken K.faults out.old out.new result (state_text net.now rows.now entries tail times.now cost) }
{
    let Ok(()) = put_entries(out, entries) else {
        return Err(WriteFault);
    };
    let Ok(()) = put_tail(out, tail) else {
        return Err(WriteFault);
    };
    let Ok(()) = write_timetable(net, times, out) else {
        return Err(WriteFault);
    };
    let Ok(()) = write_cancelled(net, rows, out) else {
        return Err(WriteFault);
    };
    put_cost(out, cost)
}

fn put_entries<K: Sink>(out: &mut K, entries: u32) -> Result<(), WriteFault>
    ensures { Puts K.taken K.faults out.old out.new result (entries_line entries) }
{
    put_number(out, "entries ", entries as u128)
}

/// Puts what there is of a journal's lines.
fn put_tail<K: Sink>(out: &mut K, tail: Tail) -> Result<(), WriteFault>
    ensures { Puts K.taken K.faults out.old out.new result (tail_line tail) }
{
    match tail {
        Tail::Whole => put_pieces(out, &[Piece::Text("tail whole"), Piece::Text("\n")]),
        Tail::Torn { line, bytes } => {
            put_two_numbers(out, "tail torn ", line as u128, bytes as u128)
        }
        Tail::Failed { .. } => put_pieces(out, &[]),
    }
}

/// Puts a cost, in thousandths of passenger seconds.
fn put_cost<K: Sink>(out: &mut K, cost: Cost) -> Result<(), WriteFault>
    ensures { Puts K.taken K.faults out.old out.new result (cost_line cost) }
{
    put_number(out, "cost ", cost)
}
