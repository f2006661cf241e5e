//! The lines that say why there is no run.
ghost use Rattle.std.specs.Prelude.{[], ◌++◌, codes, unwrap_or};
ghost use Rattle.std.specs.Option.{option_map};
ghost use Rattle.std.specs.List.{flat_map};
ghost use Rattle.dm_outside.specs.Printing.{Puts, Prints};
ghost use Rattle.dm_words.specs.Asked.{files_of};
ghost use Rattle.dm_input.specs.Lines.{name_of, kind_text, id_text, cycle_text, network_text, start_text, file_text, flaw_text, refused_line, read_fault_line, usage_line};

use crate::flaws::{File, FileFlaw, InputFlaw};
use dm_base::ActId;
use dm_lintim::{FileFault, FileKind};
use dm_network::NetFault;
use dm_outside::{Page, Piece, Sink, WriteFault, put_all};
use dm_rows::StartFault;
use dm_words::FileWords;

/// Prints the rule that a record breaks.
fn print_kind<K: Sink>(sink: &mut K, page: &mut Page, kind: FileKind) -> Result<(), WriteFault>
    ensures { Prints K.taken K.faults sink.old sink.new page.old page.new result (kind_text kind) }
{
    match kind {
        FileKind::FieldCount(count) => page.put_number(sink, " field-count ", count as u128),
        FileKind::BadNumber(column) => page.put(
            sink,
            &[Piece::Text(" bad-number "), Piece::Text(column.name())],
        ),
        FileKind::TooLarge(column) => page.put(
            sink,
            &[Piece::Text(" too-large "), Piece::Text(column.name())],
        ),
        FileKind::UnknownType => page.put(sink, &[Piece::Text(" unknown-type")]),
        FileKind::ByteOrderMark => page.put(sink, &[Piece::Text(" byte-order-mark")]),
        FileKind::OutOfMemory => page.put(sink, &[]),
    }
}

#[tactic(auto, unfolding(crate::specs::Lines::id_text))]
fn print_id<K: Sink>(sink: &mut K, page: &mut Page, id: ActId) -> Result<(), WriteFault>
    ensures { Prints K.taken K.faults sink.old sink.new page.old page.new result (id_text id) }
{
    page.put_number(sink, " ", id.0 as u128)
}

fn print_ids<K: Sink>(sink: &mut K, page: &mut Page, ids: &[ActId]) -> Result<(), WriteFault>
    ensures { Prints K.taken K.faults sink.old sink.new page.old page.new result (flat_map id_text ids.now) }
{
    for id in ids {
        let Ok(()) = print_id(sink, page, *id) else {
            return Err(WriteFault);
        };
    }
    Ok(())
}

fn print_cycle<K: Sink>(sink: &mut K, page: &mut Page, ids: &[ActId]) -> Result<(), WriteFault>
    ensures { Prints K.taken K.faults sink.old sink.new page.old page.new result (cycle_text ids.now) }
{
    let Ok(()) = page.put(sink, &[Piece::Text(" cycle")]) else {
        return Err(WriteFault);
    };
    print_ids(sink, page, ids)
}

/// Prints why records make no network.
fn print_network<K: Sink>(sink: &mut K, page: &mut Page, fault: &NetFault) -> Result<(), WriteFault>
    ensures { Prints K.taken K.faults sink.old sink.new page.old page.new result (network_text fault.now) }
{
    match fault {
        NetFault::TooMany => page.put(sink, &[Piece::Text(" too-many")]),
        NetFault::DoubleEvent(id) => page.put_number(sink, " double-event ", id.0 as u128),
        NetFault::DoubleActivity(id) => page.put_number(sink, " double-activity ", id.0 as u128),
        NetFault::UnknownEvent(id) => page.put_number(sink, " unknown-event ", id.0 as u128),
        NetFault::ZeroHeadway(id) => page.put_number(sink, " zero-headway ", id.0 as u128),
        NetFault::Cycle(ids) => print_cycle(sink, page, ids.as_slice()),
        NetFault::OutOfMemory => page.put(sink, &[]),
    }
}

/// Prints why delays and cancelled events make no start rows.
fn print_start<K: Sink>(sink: &mut K, page: &mut Page, fault: &StartFault) -> Result<(), WriteFault>
    ensures { Prints K.taken K.faults sink.old sink.new page.old page.new result (start_text fault.now) }
{
    match fault {
        StartFault::UnknownEvent(id) => page.put_number(sink, " unknown-event ", id.0 as u128),
        StartFault::UnknownActivity(id) => page.put_number(
            sink,
            " unknown-activity ",
            id.0 as u128,
        ),
        StartFault::OutOfMemory => page.put(sink, &[]),
    }
}

/// Prints the name of a file, as it is opened.
fn print_name<K: Sink>(
    sink: &mut K,
    page: &mut Page,
    words: &FileWords<'_>,
    file: File,
) -> Result<(), WriteFault>
    ensures { Prints K.taken K.faults sink.old sink.new page.old page.new result (name_of (files_of words.now) file) }
{
    match file {
        File::Events => print_in_folder(sink, page, words.folder, Some("Events-expanded.giv")),
        File::Activities => print_in_folder(
            sink,
            page,
            words.folder,
            Some("Activities-expanded.giv"),
        ),
        File::EventDelays => print_in_folder(sink, page, words.folder, words.event_delays),
        File::ActivityDelays => print_in_folder(sink, page, words.folder, words.activity_delays),
        File::CancelledEvents => print_in_folder(sink, page, words.folder, words.cancelled),
    }
}

/// Prints the name of a file of the folder, or nothing.
fn print_in_folder<'x, K: Sink>(
    sink: &mut K,
    page: &mut Page,
    folder: &'x str,
    name: Option<&'x str>,
) -> Result<(), WriteFault>
    ensures { Prints K.taken K.faults sink.old sink.new page.old page.new result
        (unwrap_or (option_map (λ x. folder.now ++ (codes "/" ++ x.now)) name.entry) []) }
{
    match name {
        None => page.put(sink, &[]),
        Some(name) => page.put(
            sink,
            &[Piece::Text(folder), Piece::Text("/"), Piece::Text(name)],
        ),
    }
}

/// Prints what is refused, and why.
fn print_flaw<K: Sink>(
    sink: &mut K,
    page: &mut Page,
    words: &FileWords<'_>,
    flaw: &InputFlaw,
) -> Result<(), WriteFault>
    ensures { Prints K.taken K.faults sink.old sink.new page.old page.new result (flaw_text (files_of words.now) flaw.now) }
{
    match flaw {
        InputFlaw::InFile(file, why) => {
            let Ok(()) = print_name(sink, page, words, *file) else {
                return Err(WriteFault);
            };
            print_file(sink, page, *why)
        }
        InputFlaw::Network(fault) => {
            let Ok(()) = page.put(sink, &[Piece::Text("network")]) else {
                return Err(WriteFault);
            };
            print_network(sink, page, fault)
        }
        InputFlaw::Start(fault) => {
            let Ok(()) = page.put(sink, &[Piece::Text("start")]) else {
                return Err(WriteFault);
            };
            print_start(sink, page, fault)
        }
    }
}

/// Prints why a file is refused.
fn print_file<K: Sink>(sink: &mut K, page: &mut Page, why: FileFlaw) -> Result<(), WriteFault>
    ensures { Prints K.taken K.faults sink.old sink.new page.old page.new result (file_text why) }
{
    match why {
        FileFlaw::Record(fault) => print_record(sink, page, fault),
        FileFlaw::TooLong => page.put(sink, &[Piece::Text(" too-long")]),
    }
}

/// Prints that a record breaks a rule.
fn print_record<K: Sink>(sink: &mut K, page: &mut Page, fault: FileFault) -> Result<(), WriteFault>
    ensures { Prints K.taken K.faults sink.old sink.new page.old page.new result (file_text (FileFlaw.Record fault)) }
{
    let Ok(()) = page.put_number(sink, " record ", fault.number as u128) else {
        return Err(WriteFault);
    };
    print_kind(sink, page, fault.kind)
}

fn print_refused_line<K: Sink>(
    sink: &mut K,
    page: &mut Page,
    words: &FileWords<'_>,
    flaw: &InputFlaw,
) -> Result<(), WriteFault>
    ensures { Prints K.taken K.faults sink.old sink.new page.old page.new result (refused_line (files_of words.now) flaw.now) }
{
    let Ok(()) = page.put(sink, &[Piece::Text("refused ")]) else {
        return Err(WriteFault);
    };
    let Ok(()) = print_flaw(sink, page, words, flaw) else {
        return Err(WriteFault);
    };
    page.put(sink, &[Piece::Text("\n")])
}

/// Prints the line of what could not be read.
fn print_read_fault_line<K: Sink>(
    sink: &mut K,
    page: &mut Page,
    words: &FileWords<'_>,
    file: File,
) -> Result<(), WriteFault>
    ensures { Prints K.taken K.faults sink.old sink.new page.old page.new result (read_fault_line (files_of words.now) file) }
{
    let Ok(()) = page.put(sink, &[Piece::Text("read fault ")]) else {
        return Err(WriteFault);
    };
    let Ok(()) = print_name(sink, page, words, file) else {
        return Err(WriteFault);
    };
    page.put(sink, &[Piece::Text("\n")])
}

/// Puts the line of what is refused.
pub fn put_refused<K: Sink>(
    sink: &mut K,
    words: &FileWords<'_>,
    flaw: &InputFlaw,
) -> Result<(), WriteFault>
    ensures { Puts K.taken K.faults sink.old sink.new result (refused_line (files_of words.now) flaw.now) }
{
    let mut page = Page::new();
    let Ok(()) = print_refused_line(sink, &mut page, words, flaw) else {
        return Err(WriteFault);
    };
    page.finish(sink)
}

/// Puts the line of what could not be read. A write fault comes only where a write failed.
pub fn put_read_fault<K: Sink>(
    sink: &mut K,
    words: &FileWords<'_>,
    file: File,
) -> Result<(), WriteFault>
    ensures { Puts K.taken K.faults sink.old sink.new result (read_fault_line (files_of words.now) file) }
{
    let mut page = Page::new();
    let Ok(()) = print_read_fault_line(sink, &mut page, words, file) else {
        return Err(WriteFault);
    };
    page.finish(sink)
}

/// Puts the usage line. A write fault comes only where a write failed.
pub fn put_usage<K: Sink>(sink: &mut K) -> Result<(), WriteFault>
    ensures { Puts K.taken K.faults sink.old sink.new result usage_line }
{
    put_all(
        sink,
        b"usage: run DIR FEED.. | check DIR TEXT | gen NUMBER TRAINS | follow DIR TEXT | window DIR TEXT FROM TO BUDGET | rules DIR TEXT RULE BUDGET | journey DIR TEXT FROM TO AFTER\n",
    )
}
