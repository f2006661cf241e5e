//! The ends that print one line: why nothing else is printed.
ghost use Rattle.std.specs.Prelude.{◌≢◌, ◌≤◌};
ghost use Rattle.dm_outside.specs.Printing.{Puts};
ghost use Rattle.dm_words.specs.Asked.{files_of};
ghost use Rattle.dm_store_text.specs.Lines.{refusal_line, store_line, form_line, bad_line, reply_line, feed_line, unread_line};
ghost use Rattle.dm_store_text.specs.Written.{EndsAs, EndsFiles};

use crate::status::Status;
use dm_check::BadKind;
use dm_input::{InputStop, put_read_fault, put_refused};
use dm_outside::{Piece, Sink, WriteFault, put_pieces};
use dm_restore::RestoreStop;
use dm_words::FileWords;

/// The end where files are refused or cannot be read.
pub fn end_files<K: Sink>(files: &FileWords<'_>, stop: &InputStop, out: &mut K) -> Status
    ensures ends { EndsFiles K.taken K.faults (files_of files.now) stop.now out.old out.new result }
    ensures later { K.faults out.old ≤ K.faults out.new }
{
    let (put, status) = match stop {
        InputStop::Refused(flaw) => (put_refused(out, files, flaw), Status::Refused),
        InputStop::ReadFault(file) => (put_read_fault(out, files, *file), Status::ReadFault),
        InputStop::NoMemory => return Status::NoMemory,
    };
    match put {
        Ok(()) => status,
        Err(WriteFault) => Status::WriteFault,
    }
}

/// The end where something of this name cannot be opened or read.
pub fn end_unread<K: Sink>(out: &mut K, name: &str) -> Status
    ensures { EndsAs K.taken K.faults out.old out.new (unread_line name.now) Status.ReadFault result }
{
    match put_pieces(
        out,
        &[
            Piece::Text("read fault "),
            Piece::Text(name),
            Piece::Text("\n"),
        ],
    ) {
        Ok(()) => Status::ReadFault,
        Err(WriteFault) => Status::WriteFault,
    }
}

/// The end where the store is refused, for this reason.
pub fn end_store<K: Sink>(out: &mut K, why: &str) -> Status
    ensures { EndsAs K.taken K.faults out.old out.new (store_line why.now) Status.Refused result }
{
    match put_pieces(
        out,
        &[
            Piece::Text("refused store "),
            Piece::Text(why),
            Piece::Text("\n"),
        ],
    ) {
        Ok(()) => Status::Refused,
        Err(WriteFault) => Status::WriteFault,
    }
}

/// The end where the block of this number is misshapen.
fn end_form<K: Sink>(out: &mut K, block: usize) -> Status
    ensures { EndsAs K.taken K.faults out.old out.new (form_line block) Status.Refused result }
{
    match put_pieces(
        out,
        &[
            Piece::Text("refused store form "),
            Piece::Number(block as u128),
            Piece::Text("\n"),
        ],
    ) {
        Ok(()) => Status::Refused,
        Err(WriteFault) => Status::WriteFault,
    }
}

/// Puts the line of what is wrong in a line of the run's text.
fn put_bad<K: Sink>(sink: &mut K, line: u32, kind: BadKind) -> Result<(), WriteFault>
    ensures { Puts K.taken K.faults sink.old sink.new result (bad_line line kind) }
{
    put_pieces(
        sink,
        &[
            Piece::Text("refused store "),
            Piece::Number(line as u128),
            Piece::Text(" "),
            Piece::Text(kind.word()),
            Piece::Text("\n"),
        ],
    )
}

/// The end where the run of a store breaks a rule in a line of its text.
fn end_bad<K: Sink>(out: &mut K, line: u32, kind: BadKind) -> Status
    ensures { EndsAs K.taken K.faults out.old out.new (bad_line line kind) Status.Refused result }
{
    match put_bad(out, line, kind) {
        Ok(()) => Status::Refused,
        Err(WriteFault) => Status::WriteFault,
    }
}

/// The end where what a journal holds is refused.
pub fn end_refused<K: Sink>(reason: RestoreStop, out: &mut K) -> Status
    requires { reason ≢ RestoreStop.OutOfMemory }
    ensures ends { EndsAs K.taken K.faults out.old out.new (refusal_line reason) Status.Refused result }
    ensures later { K.faults out.old ≤ K.faults out.new }
{
    match reason {
        RestoreStop::Full => end_store(out, "full"),
        RestoreStop::Head => end_store(out, "head"),
        RestoreStop::Form(block) => end_form(out, block),
        RestoreStop::Bad(line, kind) => end_bad(out, line, kind),
        RestoreStop::OutOfMemory => Status::NoMemory,
    }
}

/// The end where the reply file of this number holds more than the journal.
pub fn end_reply<K: Sink>(out: &mut K, number: usize) -> Status
    ensures { EndsAs K.taken K.faults out.old out.new (reply_line number) Status.Refused result }
{
    match put_pieces(
        out,
        &[
            Piece::Text("refused store reply "),
            Piece::Number(number as u128),
            Piece::Text("\n"),
        ],
    ) {
        Ok(()) => Status::Refused,
        Err(WriteFault) => Status::WriteFault,
    }
}

/// The end where a line of a feed is not the one that was answered.
pub fn end_feed<K: Sink>(out: &mut K, number: u32, line: u32) -> Status
    ensures { EndsAs K.taken K.faults out.old out.new (feed_line number line) Status.Refused result }
{
    match put_pieces(
        out,
        &[
            Piece::Text("refused feed "),
            Piece::Number(number as u128),
            Piece::Text(" line "),
            Piece::Number(line as u128),
            Piece::Text("\n"),
        ],
    ) {
        Ok(()) => Status::Refused,
        Err(WriteFault) => Status::WriteFault,
    }
}
