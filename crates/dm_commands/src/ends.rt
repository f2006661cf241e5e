//! The ends of a call that prints one line: why nothing else is printed.
ghost use Rattle.std.specs.Prelude.{◌≡◌, ◌≤◌};
ghost use Rattle.dm_input.specs.Lines.{usage_line, refused_line, read_fault_line};
ghost use Rattle.dm_words.specs.Asked.{files_of};
ghost use Rattle.dm_commands.specs.Ends.{EndsAs};
ghost use Rattle.dm_commands.specs.Verdicts.{verdict_line, verdict_status, long_text_line, unread_text_line};
ghost use Rattle.dm_check.specs.declared.verdicts.Verdict.TheVariants.{Bad as BadVerdict};
ghost use Rattle.dm_commands.specs.Inside.Asking.{kind_of_rule};
ghost use Rattle.dm_commands.specs.Inside.Stages.{EndsStopped};

use crate::status::Status;
use crate::verdicts::{put_long_text, put_unread_text, put_verdict};
use dm_check::{BadKind, Verdict};
use dm_input::{File, InputFlaw, InputStop, put_read_fault, put_refused, put_usage};
use dm_journal::{BrokenLine, BrokenRule};
use dm_outside::{Sink, WriteFault};
use dm_words::FileWords;

/// Says why the files of a folder make no network with start rows.
pub fn end_stopped<K: Sink>(files: &FileWords<'_>, stop: &InputStop, out: &mut K) -> Status
    ensures ends { EndsStopped K.taken K.faults (files_of files.now) stop.now out.old out.new result }
    ensures later { K.faults out.old ≤ K.faults out.new }
{
    match stop {
        InputStop::Refused(flaw) => end_refused(files, flaw, out),
        InputStop::ReadFault(file) => end_unread(files, *file, out),
        InputStop::NoMemory => Status::NoMemory,
    }
}

/// Says which words are in form.
pub fn end_usage<K: Sink>(out: &mut K) -> Status
    ensures { EndsAs K.taken K.faults out.old out.new usage_line Status.Usage result }
{
    match put_usage(out) {
        Ok(()) => Status::Usage,
        Err(WriteFault) => Status::WriteFault,
    }
}

fn end_refused<K: Sink>(files: &FileWords<'_>, flaw: &InputFlaw, out: &mut K) -> Status
    ensures { EndsAs K.taken K.faults out.old out.new (refused_line (files_of files.now) flaw.now) Status.Refused result }
{
    match put_refused(out, files, flaw) {
        Ok(()) => Status::Refused,
        Err(WriteFault) => Status::WriteFault,
    }
}

fn end_unread<K: Sink>(files: &FileWords<'_>, file: File, out: &mut K) -> Status
    ensures { EndsAs K.taken K.faults out.old out.new (read_fault_line (files_of files.now) file) Status.ReadFault result }
{
    match put_read_fault(out, files, file) {
        Ok(()) => Status::ReadFault,
        Err(WriteFault) => Status::WriteFault,
    }
}

/// Says what is told of a text, and ends with the status of that.
pub fn end_verdict<K: Sink>(verdict: Verdict, out: &mut K) -> Status
    ensures { EndsAs K.taken K.faults out.old out.new (verdict_line verdict) (verdict_status verdict) result }
{
    match put_verdict(out, verdict) {
        Ok(()) => status_of_verdict(verdict),
        Err(WriteFault) => Status::WriteFault,
    }
}

fn status_of_verdict(verdict: Verdict) -> Status
    ensures { result ≡ verdict_status verdict }
{
    match verdict {
        Verdict::Good { .. } => Status::Ok,
        Verdict::Bad { .. } => Status::Bad,
    }
}

/// Says that the text of a name is too long.
pub fn end_long_text<K: Sink>(name: &str, out: &mut K) -> Status
    ensures { EndsAs K.taken K.faults out.old out.new (long_text_line name.now) Status.Refused result }
{
    match put_long_text(out, name) {
        Ok(()) => Status::Refused,
        Err(WriteFault) => Status::WriteFault,
    }
}

/// Says that the text of a name could not be read.
pub fn end_unread_text<K: Sink>(name: &str, out: &mut K) -> Status
    ensures { EndsAs K.taken K.faults out.old out.new (unread_text_line name.now) Status.ReadFault result }
{
    match put_unread_text(out, name) {
        Ok(()) => Status::ReadFault,
        Err(WriteFault) => Status::WriteFault,
    }
}

/// Says that a line of a journal breaks its rule.
pub fn end_broken<K: Sink>(broken: BrokenLine, out: &mut K) -> Status
    ensures ends { EndsAs K.taken K.faults out.old out.new (verdict_line (BadVerdict broken.line (kind_of_rule broken.rule))) Status.Bad
        result }
    ensures later { K.faults out.old ≤ K.faults out.new }
{
    let line = broken.line;
    let kind = kind_of(broken.rule);
    end_verdict(Verdict::Bad { line, kind }, out)
}

/// The kind of a line that breaks a rule.
fn kind_of(rule: BrokenRule) -> BadKind
    ensures { result ≡ kind_of_rule rule }
{
    match rule {
        BrokenRule::Form => BadKind::Form,
        BrokenRule::Entry => BadKind::Entry,
    }
}

/// Says that a line of a journal is not whole.
pub fn end_torn<K: Sink>(line: u32, out: &mut K) -> Status
    ensures ends { EndsAs K.taken K.faults out.old out.new (verdict_line (BadVerdict line BadKind.Truncated)) Status.Bad result }
    ensures later { K.faults out.old ≤ K.faults out.new }
{
    let kind = BadKind::Truncated;
    end_verdict(Verdict::Bad { line, kind }, out)
}
