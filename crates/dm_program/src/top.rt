//! The top call.
ghost use Rattle.std.specs.Prelude.{◌≡◌, ◌⊎◌, ◌≤◌, ℕ, List, Ok, Err, IfOk, IsSome, length, map, string_bytes, vec_len};
ghost use Rattle.std.specs.Thread.{IsSync};
ghost use Rattle.dm_base.specs.declared.limits.TheConstants.{BOARDS, TEXT};
ghost use Rattle.dm_outside.specs.Faults.{HasRisen};
ghost use Rattle.dm_input.specs.declared.flaws.InputFlaw.{InputFlaw as AFlaw};
ghost use Rattle.dm_input.specs.Input.{Opening, OpeningAnswer, IsHeld};
ghost use Rattle.dm_input.specs.Stops.{IsKept, IsLong};
ghost use Rattle.dm_words.specs.Words.{Asks, AsksNothing, CheckAsked, CheckOf, FilesAsked, GenAsked, GenOf, QueryAsked, QueryOf, RunAsked, RunOf};
ghost use Rattle.dm_cert.specs.Runs.{IsRunText};
ghost use Rattle.dm_check.specs.declared.verdicts.Verdict.{Verdict};
ghost use Rattle.dm_check.specs.FalseRecords.{IsVerdict};
ghost use Rattle.dm_commands.specs.Answers.{IsAnswerAt};
ghost use Rattle.dm_commands.specs.Commands.{AsksAbout, AsksOver};
ghost use Rattle.dm_commands.specs.Ends.{Ends, IsDue, Writes, AsksNoRun, EndsAnswered, EndsAt, EndsTold, AreSound, AreShort, IsSoundFor};
ghost use Rattle.dm_desk.specs.Searching.{FindsAsked, MaySearch};
ghost use Rattle.dm_outlook.specs.Searching.{FindsInWindow};
ghost use Rattle.dm_commands.specs.Verdicts.{verdict_line, verdict_status, long_text_line};

use crate::windows::planned;
use dm_commands::{BoardList, CommandMeans, Ending, Status, dispatch_with};
use dm_desk::PlanRequest;
use dm_find::find;
use dm_outside::{Board, Gate, Shelf, Sink};
use dm_parts::AnyPlan;
use dm_stretch::Window;
use std::alloc::{AllocError, Global};
use std::sync::Wait;
use std::thread::Threads;

/// Does what the words ask, which are those without the program's name, and answers the status to end with.
pub fn dispatch<R: Threads + Wait + Sync, H: Shelf, K: Sink, G: Gate>(
    rt: &R,
    alloc: Global,
    words: &[String],
    shelf: &mut H,
    boards: &mut Vec<Box<dyn Board>>,
    gate: &G,
    out: &mut K,
) -> Status
    requires { vec_len boards.old ≤ BOARDS }

    // The text is that of a run whose journal, logs, notes, times and cost are true, and whose feeds all ended well, or the
    // summary of a generated day, or the verdict that a text is good, or the answer to what is asked of a journal. Each board
    // that no note names shows the final times of its stop. At every end without a run, but for want of memory, the boards are as
    // before.
    ensures headline { result ≡ Status.Ok → Writes (K.taken out.old) (K.taken out.new)
        (IsDue (H.files shelf.old) (H.is_sound shelf.old) (⟦<BoardList as Ending>⟧.ends boards.old boards.new)
        (map string_bytes words.now) Status.Ok) }

    // Each status has its cause. That a text is bad comes with the first record that breaks its rule, or the first line of a journal.
    // Where a feed alone is the cause, the text is that of a run too.
    ensures ends { Ends K.taken K.faults (H.files shelf.old) (H.is_sound shelf.old) (⟦<BoardList as Ending>⟧.ends boards.old boards.new)
        (map string_bytes words.now) out.old out.new result }

    // Nothing of a generated day is refused: words that ask for one end well, but for a write fault and want of memory.
    ensures generated { (asked : GenAsked) → Asks (map string_bytes words.now) (GenOf asked) → (result ≡ Status.Ok)
        ⊎ ((result ≡ Status.WriteFault) ⊎ (result ≡ Status.NoMemory)) }

    // Words that ask for nothing come to the usage line, but for a write fault.
    ensures outside { AsksNothing (map string_bytes words.now) → (result ≡ Status.Usage) ⊎ (result ≡ Status.WriteFault) }

    // The first refusal comes exactly where it is, but for the faults that go before.
    ensures first_refusal { (files : FilesAsked) (flaw : AFlaw) → AsksOver (map string_bytes words.now) files → IsSome (H.files shelf.old)
        → OpeningAnswer (H.files shelf.old) files (Err flaw) → EndsAt files flaw (K.taken out.old) (K.taken out.new) result }
    ensures long_text { (files : FilesAsked) (text : List ℕ) (opening : Opening) → AsksAbout (map string_bytes words.now) files text
        → IsSome (H.files shelf.old)
        → OpeningAnswer (H.files shelf.old) files (Ok opening) → IsLong (H.files shelf.old) text TEXT
        → EndsTold Status.Refused (long_text_line text) (K.taken out.old) (K.taken out.new) result }

    // The verdict on a text comes exactly where it is, but for the same.
    ensures judged { (asked : CheckAsked) (opening : Opening) (bytes : List ℕ) (verdict : Verdict)
        → Asks (map string_bytes words.now) (CheckOf asked) → IsSome (H.files shelf.old)
        → OpeningAnswer (H.files shelf.old) asked.files (Ok opening) → IsHeld (H.files shelf.old) asked.text bytes → length bytes ≤ TEXT
        → IsVerdict opening.net opening.rows asked.files.penalty asked.files.plans bytes verdict
        → EndsTold (verdict_status verdict) (verdict_line verdict) (K.taken out.old) (K.taken out.new) result }

    // What is asked of the journal of a text is answered from its bytes, but for the same: a line that breaks its rule is told,
    // or a torn line where all are wanted, or the question is answered.
    ensures answered { (asked : QueryAsked) (opening : Opening) (bytes : List ℕ) → Asks (map string_bytes words.now) (QueryOf asked)
        → IsSome (H.files shelf.old)
        → OpeningAnswer (H.files shelf.old) asked.files (Ok opening) → IsHeld (H.files shelf.old) asked.text bytes → length bytes ≤ TEXT
        → EndsAnswered (IsAnswerAt asked.query opening.net opening.rows asked.files.penalty bytes) (K.taken out.old) (K.taken out.new)
        result }

    // Good words, files and feeds, a sound shelf and a sink without a fault give a run, or want of memory.
    ensures complete { (asked : RunAsked) (opening : Opening) → Asks (map string_bytes words.now) (RunOf asked) → IsSome (H.files shelf.old)
        → OpeningAnswer (H.files shelf.old) asked.files (Ok opening) → AreShort (H.files shelf.old) asked
        → AreSound (H.is_sound shelf.old) asked
        → (HasRisen (K.faults out.old) (K.faults out.new) → ⊥) → (result ≡ Status.Ok) ⊎ (result ≡ Status.NoMemory) }

    // A text that is not too long has a verdict, or wants memory, where the files are good, the shelf is sound and the sink does
    // not fail.
    ensures complete_check { (asked : CheckAsked) (opening : Opening) (bytes : List ℕ) → Asks (map string_bytes words.now) (CheckOf asked)
        → IsSome (H.files shelf.old)
        → OpeningAnswer (H.files shelf.old) asked.files (Ok opening) → IsHeld (H.files shelf.old) asked.text bytes → length bytes ≤ TEXT
        → IsSoundFor (H.is_sound shelf.old) asked.files asked.text → (HasRisen (K.faults out.old) (K.faults out.new) → ⊥)
        → (result ≡ Status.Ok) ⊎ ((result ≡ Status.Bad) ⊎ (result ≡ Status.NoMemory)) }

    // Where the same hold, the text of a true run is good, or wants memory.
    ensures run_texts_are_good { (asked : CheckAsked) (opening : Opening) (bytes : List ℕ)
        → Asks (map string_bytes words.now) (CheckOf asked) → IsSome (H.files shelf.old)
        → OpeningAnswer (H.files shelf.old) asked.files (Ok opening) → IsHeld (H.files shelf.old) asked.text bytes → length bytes ≤ TEXT
        → IsRunText opening.net opening.rows asked.files.penalty asked.files.plans bytes
        → IsSoundFor (H.is_sound shelf.old) asked.files asked.text → (HasRisen (K.faults out.old) (K.faults out.new) → ⊥)
        → (result ≡ Status.Ok) ⊎ (result ≡ Status.NoMemory) }

    // What is asked of the journal of a text that is not too long is answered, or wants memory, where the same hold.
    ensures complete_query { (asked : QueryAsked) (opening : Opening) (bytes : List ℕ) → Asks (map string_bytes words.now) (QueryOf asked)
        → IsSome (H.files shelf.old)
        → OpeningAnswer (H.files shelf.old) asked.files (Ok opening) → IsHeld (H.files shelf.old) asked.text bytes → length bytes ≤ TEXT
        → IsSoundFor (H.is_sound shelf.old) asked.files asked.text → (HasRisen (K.faults out.old) (K.faults out.new) → ⊥)
        → Writes (K.taken out.old) (K.taken out.new) (IsAnswerAt asked.query opening.net opening.rows asked.files.penalty bytes result)
        ⊎ (result ≡ Status.NoMemory) }

    // Whatever the status, words that ask for no run leave the boards as they were, the shelf tells what it told, the sink's
    // count has not fallen and the list has its boards in their order.
    ensures boards_left { AsksNoRun (map string_bytes words.now) → boards.new.items ≡ boards.old.items }
    ensures shelf_kept { IsKept H.files H.is_sound shelf.old shelf.new }
    ensures later { K.faults out.old ≤ K.faults out.new }
    ensures boards_kept { map place boards.new.items ≡ map place boards.old.items }
{
    let search = move |request: &PlanRequest<'_>| -> Result<AnyPlan, AllocError>
        requires { IsSync R.row × IsSync G.row × MaySearch request.now }
        ensures { IfOk result (FindsAsked request.now) }
    { find(rt, alloc, request, gate) };
    let search_window = move |request: &PlanRequest<'_>, window: &Window| -> Result<
        AnyPlan,
        AllocError,
    >
        requires { MaySearch request.now }
        ensures { IfOk result (FindsInWindow request.now window.now) }
    { planned(alloc, request, window) };
    dispatch_with(
        &CommandMeans {
            rt,
            alloc,
            search: &search,
            search_window: &search_window,
            gate,
        },
        words,
        shelf,
        boards,
        out,
    )
}
