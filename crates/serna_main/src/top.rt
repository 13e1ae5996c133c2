ghost use Rattle.std.specs.Prelude.{◌≡◌, ◌≢◌, ◌≤◌, ◌+◌, ◌⊎◌, ℕ, List, [], IfSome, IsTrue, false, length};
ghost use Rattle.plain_editor.specs.Input.{input_limit};
ghost use Rattle.serna_outside.specs.Outside.{Appends, IsAtEnd, Rose};
ghost use Rattle.plain_editor.specs.Editor.{opened};
ghost use Rattle.live_editor.specs.Held.{IsSoundEditor};
ghost use Rattle.serna_main.specs.Out.{IsOut, IsEnded, IsAccepted, IsRefused, words_refusal};
ghost use Rattle.serna_main.specs.Endings.{IsAnswered, IsClosed, spoiled_status};
ghost use Rattle.serna_main.specs.Sections.{IsJudged};
ghost use Rattle.page_print.specs.Outside.{AppendsFront};
ghost use Rattle.serna_main.specs.declared.status.Status.{Status};
ghost use Rattle.serna_main.specs.declared.status.Status.TheVariants as status;

use crate::Status;
use crate::read::{ReadError, read_input};
use crate::run::run_script;
use crate::sections::{Judged, judge};
use page_print::offer;
use serna_outside::{Sink, Source};
use std::alloc::Global;

/// The line that refuses an input.
const REFUSAL: &str = "input refused 1 NotBuilt\n";

/// The line that refuses the words of the command line.
const WORDS_REFUSAL: &str = "words refused\n";

/// Runs the program: reads an input, and writes the replies to its script, or the one line that refuses it.
///
/// `words` are the words of the command line, without the program's name. The empty list alone is accepted so far: every other
/// one is refused by one line, and the source stays as it was. Each line of a reply is offered to the sink as one piece. What is
/// promised of bytes holds where source and sink tell theirs.
///
/// The run ends with
/// - `Ok`: the input was read to its end, all replies were written, and neither count of faults rose;
/// - `BadWords`: there are words, and the line `words refused` was written;
/// - `InputRefused`: the input is not of the built form, and the line `input refused 1 NotBuilt` was written;
/// - `ReadFault`: the source's count of faults rose, and nothing was written;
/// - `WriteFault`: the sink's count of faults rose, and a front of what was to be written is written;
/// - `NoMemory`: there was no memory, and a front of what was to be written is written. No clause says when.
///
/// With every status but `WriteFault`, `finish` was the last call on the sink. With `WriteFault` it was only where all replies
/// were written: after a write that failed, `finish` is not called. An accepted input ends with `Ok` or `NoMemory` where no count
/// of faults rose. `read` is called at most once more than it gives bytes, and at most 16,385 times.
pub fn serna_alone<S: Source, K: Sink>(
    alloc: Global,
    words: &[String],
    source: &mut S,
    sink: &mut K,
) -> Status
    // Where no fault and no want of memory ended the run, the bytes written are those of the words and the input.
    ensures out { IsEnded result → IfSome (S.left source.old) (λ input.
        (bytes : List ℕ) × IsOut words.now input bytes result × Appends (K.held sink.old) (K.held sink.new) bytes) }

    // Whatever the status, what was written is a front of those bytes.
    ensures front { IfSome (S.left source.old) (λ input. (bytes : List ℕ) (ended : Status) → IsOut words.now input bytes ended →
        AppendsFront (K.held sink.old) (K.held sink.new) bytes) }

    // The last call on the sink was `finish`, but where the sink failed.
    ensures finished { result ≢ status.WriteFault → IsTrue (K.is_finished sink.new) }

    // Ok comes only where the input was read to its end and neither count of faults rose; the source's count stays where
    // words or input are refused, too.
    ensures end { result ≡ status.Ok → IsAtEnd (S.left source.new) }
    ensures kept_source { IsEnded result → S.faults source.new ≡ S.faults source.old }
    ensures kept_sink { result ≡ status.Ok → K.faults sink.new ≡ K.faults sink.old }

    // A fault comes only where its count rose. After a read fault nothing was written.
    ensures read_fault { result ≡ status.ReadFault → Rose (S.faults source.old) (S.faults source.new) }
    ensures read_nothing { result ≡ status.ReadFault → K.held sink.new ≡ K.held sink.old }
    ensures write_fault { result ≡ status.WriteFault → Rose (K.faults sink.old) (K.faults sink.new) }

    // Where `finish` was the last call and yet the sink failed, all replies were written.
    ensures spoiled { result ≡ status.WriteFault → IsTrue (K.is_finished sink.new) → IfSome (S.left source.old) (λ input.
        (bytes : List ℕ) × IsOut words.now input bytes status.Ok × Appends (K.held sink.old) (K.held sink.new) bytes) }

    // Words are refused where there are some, also where the source does not tell its bytes: nothing is read then.
    ensures bad_words { result ≡ status.BadWords → (words.now ≢ []) × Appends (K.held sink.old) (K.held sink.new) words_refusal }
    ensures words_first { words.now ≢ [] → (result ≡ status.BadWords) ⊎ (result ≡ status.WriteFault) }
    ensures unread { words.now ≢ [] → source.new ≡ source.old }

    // Each call of `read` but one gives a byte, and no more are made than an input of the built form needs.
    ensures calls { IfSome (S.left source.old) (λ before. IfSome (S.left source.new) (λ after.
        S.calls source.new + length after ≤ S.calls source.old + length before + 1)) }
    ensures calls_in_all { S.calls source.new ≤ S.calls source.old + (input_limit + 1) }

    // An accepted input is answered whole where no count of faults rose, but for want of memory.
    ensures complete { words.now ≡ [] → IfSome (S.left source.old) (λ input. IsAccepted input →
        (Rose (S.faults source.old) (S.faults source.new) → ⊥) × (Rose (K.faults sink.old) (K.faults sink.new) → ⊥) →
        (result ≡ status.Ok) ⊎ (result ≡ status.NoMemory)) }
{
    if !words.is_empty() {
        return refuse_words(sink);
    }
    match read_input(alloc, source) {
        Err(ReadError::Failed) => close(sink, Status::ReadFault),
        Err(ReadError::NoMemory) => close(sink, Status::NoMemory),
        Ok(bytes) => answer(alloc, bytes.as_slice(), sink),
    }
}

/// Writes the line that refuses the words.
fn refuse_words<K: Sink>(sink: &mut K) -> Status
    ensures refused { result ≡ status.BadWords → Appends (K.held sink.old) (K.held sink.new) words_refusal }
    ensures front { AppendsFront (K.held sink.old) (K.held sink.new) words_refusal }
    ensures write_fault { result ≡ status.WriteFault → Rose (K.faults sink.old) (K.faults sink.new) }
    ensures only { (result ≡ status.BadWords) ⊎ (result ≡ status.WriteFault) }
    ensures finished { result ≢ status.WriteFault → IsTrue (K.is_finished sink.new) }
    ensures unfinished { result ≡ status.WriteFault → K.is_finished sink.new ≡ false }
{
    if offer(WORDS_REFUSAL, sink) {
        close(sink, Status::BadWords)
    } else {
        Status::WriteFault
    }
}

/// Answers an input that was read.
fn answer<K: Sink>(alloc: Global, input: &[u8], sink: &mut K) -> Status
    ensures { IsAnswered input.now result (K.held sink.old) (K.held sink.new) (K.faults sink.old) (K.faults sink.new) (IsTrue (K.is_finished sink.new)) }
{
    match judge(alloc, input) {
        Err(_) => close(sink, Status::NoMemory),
        Ok(None) => refuse(sink),
        Ok(Some(judged)) => obey(alloc, judged, sink),
    }
}

/// Writes the line that refuses an input.
fn refuse<K: Sink>(sink: &mut K) -> Status
    ensures { (input : List ℕ) → IsRefused input → IsAnswered input result (K.held sink.old) (K.held sink.new) (K.faults sink.old) (K.faults sink.new) (IsTrue (K.is_finished sink.new)) }
{
    if offer(REFUSAL, sink) {
        close(sink, Status::InputRefused)
    } else {
        Status::WriteFault
    }
}

/// Answers the script of an accepted input.
fn obey<K: Sink>(alloc: Global, judged: Judged, sink: &mut K) -> Status
    requires within { judged.first ≤ length judged.lines.items }
    requires sound { IsSoundEditor (opened judged.names judged.source.source) }
    ensures { (input : List ℕ) → IsJudged input judged → IsAnswered input result (K.held sink.old) (K.held sink.new) (K.faults sink.old) (K.faults sink.new) (IsTrue (K.is_finished sink.new)) }
{
    let Judged {
        names,
        style,
        source,
        lines,
        first,
    } = judged;
    match run_script(alloc, names, &style, source, &lines[first..], sink) {
        Status::Ok => close(sink, Status::Ok),
        Status::NoMemory => close(sink, Status::NoMemory),
        Status::WriteFault => Status::WriteFault,
        other => other,
    }
}

/// Ends a run that no failed write ended: calls `finish`, and an Ok where it answers false is a fault.
fn close<K: Sink>(sink: &mut K, status: Status) -> Status
    ensures held { K.held sink.new ≡ K.held sink.old }
    ensures finished { IsTrue (K.is_finished sink.new) }
    ensures status { IsClosed status result (K.faults sink.old) (K.faults sink.new) }
{
    if sink.finish() {
        status
    } else {
        spoiled(status)
    }
}

fn spoiled(status: Status) -> Status
    ensures { result ≡ spoiled_status status }
{
    match status {
        Status::Ok => Status::WriteFault,
        Status::BadWords => Status::BadWords,
        Status::InputRefused => Status::InputRefused,
        Status::ReadFault => Status::ReadFault,
        Status::WriteFault => Status::WriteFault,
        Status::NoMemory => Status::NoMemory,
    }
}
