//! A check of a text, from its words to its verdict.
ghost use Rattle.std.specs.Prelude.{◌≤◌};
ghost use Rattle.dm_rows.specs.Rows.{IsSized};
ghost use Rattle.dm_input.specs.Stops.{IsKept};
ghost use Rattle.dm_words.specs.Asked.{check_of};
ghost use Rattle.dm_commands.specs.Inside.Checking.{Judges, EndsJudged, EndsChecked};
ghost use Rattle.dm_commands.specs.Inside.Stages.{IsCheckWithin};

use crate::ends::{end_long_text, end_stopped, end_unread_text, end_verdict};
use crate::status::Status;
use dm_base::limits::TEXT;
use dm_check::{Verdict, check};
use dm_input::{Opened, read_opening, take_name};
use dm_network::Network;
use dm_outside::{Shelf, Sink, TakeFault};
use dm_rows::Rows;
use dm_words::CheckWords;
use std::alloc::{AllocError, Global};

/// Reads the files that the words name, and then the text, which is judged over the network and the start rows that they make.
pub fn check_text<H: Shelf, K: Sink>(
    alloc: Global,
    words: &CheckWords<'_>,
    shelf: &mut H,
    out: &mut K,
) -> Status
    requires within { IsCheckWithin (check_of words.now) }
    ensures ends { EndsChecked K.taken K.faults (H.files shelf.old) (H.is_sound shelf.old) (check_of words.now) out.old out.new result }
    ensures kept { IsKept H.files H.is_sound shelf.old shelf.new }
    ensures later { K.faults out.old ≤ K.faults out.new }
{
    let opened = match read_opening(alloc, shelf, &words.files) {
        Ok(opened) => opened,
        Err(stop) => return end_stopped(&words.files, &stop, out),
    };
    let Opened { net, rows } = opened;
    judge_text(alloc, &net, &rows, words, shelf, out)
}

/// Opens the text that the words name, and prints the verdict on it, or why there is none.
fn judge_text<H: Shelf, K: Sink>(
    alloc: Global,
    net: &Network,
    rows: &Rows,
    words: &CheckWords<'_>,
    shelf: &mut H,
    out: &mut K,
) -> Status
    requires sized { IsSized net.now rows.now }
    requires within { IsCheckWithin (check_of words.now) }
    ensures ends { EndsJudged K.taken K.faults (H.files shelf.old) (H.is_sound shelf.old) (check_of words.now).text net.now rows.now
        (check_of words.now).files.penalty (check_of words.now).files.plans out.old out.new result }
    ensures kept { IsKept H.files H.is_sound shelf.old shelf.new }
    ensures later { K.faults out.old ≤ K.faults out.new }
{
    match verdict_on(alloc, net, rows, words, shelf) {
        Ok(verdict) => end_verdict(verdict, out),
        Err(TakeFault::ReadFault) => end_unread_text(words.text, out),
        Err(TakeFault::TooLong) => end_long_text(words.text, out),
        Err(TakeFault::OutOfMemory) => Status::NoMemory,
    }
}

/// The verdict on the text that the words name.
fn verdict_on<H: Shelf>(
    alloc: Global,
    net: &Network,
    rows: &Rows,
    words: &CheckWords<'_>,
    shelf: &mut H,
) -> Result<Verdict, TakeFault>
    requires sized { IsSized net.now rows.now }
    requires within { IsCheckWithin (check_of words.now) }
    ensures judges { Judges (H.files shelf.old) (H.is_sound shelf.old) (check_of words.now).text net.now rows.now
        (check_of words.now).files.penalty (check_of words.now).files.plans result }
    ensures kept { IsKept H.files H.is_sound shelf.old shelf.new }
{
    let text = match take_name(alloc, shelf, words.text, TEXT) {
        Ok(text) => text,
        Err(fault) => return Err(fault),
    };
    let (penalty, plans) = (words.files.penalty, words.files.plans);
    match check(alloc, net, rows, penalty, plans, &text) {
        Ok(verdict) => Ok(verdict),
        Err(AllocError) => Err(TakeFault::OutOfMemory),
    }
}
