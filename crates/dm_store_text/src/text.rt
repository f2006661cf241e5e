//! The text of the run that a store holds.
ghost use Rattle.std.specs.Prelude.{◌≡◌, ◌≤◌, [], length, string_bytes, IfOk};
ghost use Rattle.std.specs.Io.KnownBytes.{Keeps};
ghost use Rattle.dm_base.specs.declared.limits.TheConstants.{FEEDS, PENALTY};
ghost use Rattle.dm_cert.specs.declared.limits.TheConstants.{PLANS};
ghost use Rattle.dm_cert.specs.RunTexts.{run_text, FitsRun, IsSpelledRun};
ghost use Rattle.dm_input.specs.Stops.{IsKept};
ghost use Rattle.dm_rows.specs.Active.{HasNoCycle};
ghost use Rattle.dm_rows.specs.Rows.{IsSized};
ghost use Rattle.dm_restore.specs.Start.{setting_of_head};
ghost use Rattle.dm_words.specs.Asked.{names_in};
ghost use Rattle.dm_words.specs.ServerAsked.{server_of};
ghost use Rattle.dm_store_text.specs.Asked.{IsAsked, IsWithin, head_of, setting_for};
ghost use Rattle.dm_store_text.specs.Texts.{IsDueText, IsOfBytes, IsOfStore, journal_name};
ghost use Rattle.dm_store_text.specs.Inside.Ending.{EndsStopped, EndsText};
ghost use Rattle.dm_store_text.specs.Written.{EndsAs, FailsToWrite, Writes, run_in};

use crate::ends::{end_files, end_refused, end_store, end_unread};
use crate::printed::end_run;
use crate::status::Status;
use dm_input::{Opened, read_opening, take_name};
use dm_network::Network;
use dm_outside::{Shelf, Sink, TakeFault};
use dm_restore::{Head, RestoreStop, Restored, restore};
use dm_rows::Rows;
use dm_store::LARGEST_JOURNAL;
use dm_words::{Names, ServeWords};
use std::alloc::{AllocError, Global};

/// Prints the text of the run that the store of these words holds. It takes no lock, and changes nothing.
pub fn text_of_store<H: Shelf, K: Sink>(
    alloc: Global,
    words: &ServeWords<'_>,
    shelf: &mut H,
    out: &mut K,
) -> Status
    requires asked { IsAsked (server_of words.now) }

    // The text is that of the true run whose book the journal holds.
    ensures text { result ≡ Status.Ok → Writes (K.taken out.old) (K.taken out.new)
        (IsDueText (H.files shelf.old) (H.is_sound shelf.old) (server_of words.now) Status.Ok) }

    // Each other status has its cause.
    ensures refused { result ≡ Status.Refused → Writes (K.taken out.old) (K.taken out.new)
        (IsDueText (H.files shelf.old) (H.is_sound shelf.old) (server_of words.now) Status.Refused) }
    ensures read_fault { result ≡ Status.ReadFault → Writes (K.taken out.old) (K.taken out.new)
        (IsDueText (H.files shelf.old) (H.is_sound shelf.old) (server_of words.now) Status.ReadFault) }
    ensures write_fault { result ≡ Status.WriteFault → FailsToWrite K.taken K.faults out.old out.new
        (IsDueText (H.files shelf.old) (H.is_sound shelf.old) (server_of words.now)) }
    ensures no_memory { result ≡ Status.NoMemory → Keeps (K.taken out.old) (K.taken out.new) }
    ensures words_are_good { result ≡ Status.Usage → ⊥ }

    // Whatever the status, the shelf tells what it told, and no count of faults has fallen.
    ensures shelf_kept { IsKept H.files H.is_sound shelf.old shelf.new }
    ensures later { K.faults out.old ≤ K.faults out.new }
{
    text_by_words(alloc, words, shelf, out)
}

/// The same, with how it ends said at once.
fn text_by_words<H: Shelf, K: Sink>(
    alloc: Global,
    words: &ServeWords<'_>,
    shelf: &mut H,
    out: &mut K,
) -> Status
    requires asked { IsAsked (server_of words.now) }
    ensures ends { EndsText K.taken K.faults (IsDueText (H.files shelf.old) (H.is_sound shelf.old) (server_of words.now))
        out.old out.new result }
    ensures shelf_kept { IsKept H.files H.is_sound shelf.old shelf.new }
    ensures later { K.faults out.old ≤ K.faults out.new }
{
    let opened = match read_opening(alloc, shelf, &words.run.files) {
        Ok(opened) => opened,
        Err(stop) => return end_files(&words.run.files, &stop, out),
    };
    let Opened { net, rows } = opened;
    net.reveal();
    text_over(alloc, words, &net, rows, shelf, out)
}

/// The text over a network and start rows.
fn text_over<H: Shelf, K: Sink>(
    alloc: Global,
    words: &ServeWords<'_>,
    net: &Network,
    rows: Rows,
    shelf: &mut H,
    out: &mut K,
) -> Status
    requires sized { IsSized net.now rows }
    requires no_cycle { HasNoCycle net.now rows }
    requires within { IsWithin (server_of words.now) }
    ensures ends { EndsText K.taken K.faults (λ status text. IsOfStore (H.files shelf.old) (H.is_sound shelf.old)
        (server_of words.now) status (setting_for (server_of words.now) (record { net = net.now; rows = rows })) text)
        out.old out.new result }
    ensures shelf_kept { IsKept H.files H.is_sound shelf.old shelf.new }
    ensures later { K.faults out.old ≤ K.faults out.new }
{
    let Ok(name) = journal_name(alloc, words) else {
        return Status::NoMemory;
    };
    match take_name(alloc, shelf, name.as_str(), LARGEST_JOURNAL) {
        Ok(bytes) => text_of_bytes(alloc, net, rows, head_of(words), &bytes, out),
        Err(TakeFault::ReadFault) => end_unread(out, name.as_str()),
        Err(TakeFault::TooLong) => end_store(out, "full"),
        Err(TakeFault::OutOfMemory) => Status::NoMemory,
    }
}

/// The text of the run that the bytes of a journal with this head hold.
fn text_of_bytes<K: Sink>(
    alloc: Global,
    net: &Network,
    rows: Rows,
    head: Head,
    bytes: &[u8],
    out: &mut K,
) -> Status
    requires sized { IsSized net.now rows }
    requires no_cycle { HasNoCycle net.now rows }
    requires penalty { head.penalty ≤ PENALTY }
    requires plans { head.plans ≤ PLANS }
    requires feeds { (1 ≤ head.feeds) × (head.feeds ≤ FEEDS) }
    ensures ends { EndsText K.taken K.faults (IsOfBytes (setting_of_head net.now rows head) head.feeds bytes.now) out.old out.new result }
    ensures later { K.faults out.old ≤ K.faults out.new }
{
    match restore(alloc, net, rows, head, bytes) {
        Ok(restored) => {
            restored.desk.table.reveal();
            end_restored(&restored, out)
        }
        Err(stop) => end_stopped(stop, out),
    }
}

/// Prints the run that was read back.
fn end_restored<K: Sink>(restored: &Restored<'_>, out: &mut K) -> Status
    requires { IsSpelledRun (run_in restored.now.desk.table restored.now.logs.items []) }
    ensures ends { EndsAs K.taken K.faults out.old out.new
        (run_text 2 (run_in restored.now.desk.table restored.now.logs.items [])) Status.Ok result }
    ensures fits { FitsRun (run_in restored.now.desk.table restored.now.logs.items []) }
    ensures later { K.faults out.old ≤ K.faults out.new }
{
    end_run(&restored.desk.table, &restored.logs, &[], out)
}

/// The end where what a journal holds gives no run.
fn end_stopped<K: Sink>(stop: RestoreStop, out: &mut K) -> Status
    ensures ends { EndsStopped K.taken K.faults stop out.old out.new result }
    ensures later { K.faults out.old ≤ K.faults out.new }
{
    match stop {
        RestoreStop::OutOfMemory => Status::NoMemory,
        _ => end_refused(stop, out),
    }
}

/// The name of a store's journal.
fn journal_name(alloc: Global, words: &ServeWords<'_>) -> Result<String, AllocError>
    ensures { IfOk result (λ name. string_bytes name ≡ journal_name (server_of words.now)) }
{
    let store = words.store;
    format!(in alloc; "{store}/journal")
}

/// What goes with the journal of a store.
fn head_of(words: &ServeWords<'_>) -> Head
    requires { IsWithin (server_of words.now) }
    ensures { result ≡ head_of (server_of words.now) }
{
    Head {
        penalty: words.run.files.penalty,
        plans: words.run.files.plans,
        feeds: count(words.run.feeds),
    }
}

fn count(names: Names<'_>) -> u32
    requires { length (names_in names) ≤ FEEDS }
    ensures { result ≡ length (names_in names.entry) }
{
    let mut rest = names;
    let mut count = 0;
    while let Some((_, others)) = rest.split_first() {
        rest = others;
        count += 1;
    }
    count
}
