//! A text that is read from a source and answered.

ghost use Rattle.serve.specs.Below.{[], ℕ, List, length, take, drop, Some, IfOk, Err, ForSome, Rose, ScriptError as Refusal};
ghost use Rattle.std.specs.Prelude.{◌≡◌, ◌<◌, ◌≤◌, ◌+◌, ◌^◌, ◌++◌};
ghost use Rattle.serve.specs.Headline.{IsAnswer, IsRefused, IsRoomFor, IsSpelled};
ghost use Rattle.serve.specs.Status.{HasReadAll, IsDoneOrPoor};

use crate::checking::check_text;
use crate::script::script_text;
use crate::sessions::sessions_text;
use crate::status::Status;
use outside::read_all::read_all;
use outside::words::Question;
use outside::write_all::write_all;
use outside::{ReadEnd, Sink, Source};
use script_text::json_text::ScriptFault;
use std::sync::Wait;
use std::thread::Threads;

// Reads a text to the source's end, and answers what is asked of it.
pub(crate) fn answer_source<R: AllocGlobal + Threads + Wait + Sync, S: Source, K: Sink>(
    rt: &R,
    question: Question,
    source: &mut S,
    sink: &mut K,
) -> Status
    ensures done { result ≡ Status.Done → ForSome (S.left source.old) (λ bytes. (length bytes ≤ 2 ^ 24)
        × (text : List ℕ) × IsAnswer question bytes text
        × ForSome (K.taken sink.old) (λ old. K.taken sink.new ≡ Some (old ++ text))) }
    ensures read { HasReadAll result → ForSome (S.left source.old) (λ _. S.left source.new ≡ Some []) }
    ensures at_most { ForSome (S.left source.old) (λ bytes. (n : ℕ) × (n ≤ 2 ^ 24 + 1) ×
        (S.left source.new ≡ Some (drop n bytes))) }
    ensures usage { result ≡ Status.Usage → ⊥ }
    ensures script { (e : Refusal) → result ≡ Status.Script e → ForSome (S.left source.old) (λ bytes.
        (length bytes ≤ 2 ^ 24) × (IsRefused question bytes e)) }
    ensures read_fault { result ≡ Status.ReadFault → Rose (S.faults source.old) (S.faults source.new) }
    ensures too_large { result ≡ Status.TooLarge → ForSome (S.left source.old) (λ bytes. 2 ^ 24 < length bytes) }
    ensures fits { ForSome (S.left source.old) (λ bytes. length bytes ≤ 2 ^ 24 → result ≡ Status.TooLarge → ⊥) }
    ensures write_fault { result ≡ Status.WriteFault → Rose (K.faults sink.old) (K.faults sink.new) }
    ensures front { result ≡ Status.WriteFault → ForSome (S.left source.old) (λ bytes. (length bytes ≤ 2 ^ 24)
        × (text : List ℕ) × IsAnswer question bytes text
        × ForSome (K.taken sink.old) (λ old. (n : ℕ) × (n < length text) ×
        (K.taken sink.new ≡ Some (old ++ take n text)))) }
    ensures nothing { (result ≡ Status.Done → ⊥) → (result ≡ Status.WriteFault → ⊥) → K.taken sink.new ≡
        K.taken sink.old }
    ensures complete { ForSome (S.left source.old) (λ bytes. IsSpelled question bytes → length bytes ≤ 2 ^ 24
        → (Rose (S.faults source.old) (S.faults source.new) → ⊥) → (Rose (K.faults sink.old) (K.faults sink.new) → ⊥)
        → IsDoneOrPoor result) }
    ensures ahead { ForSome (S.left source.old) (λ bytes. IsSpelled question bytes → length bytes ≤ 2 ^ 24
        → S.quiet source.old → IsRoomFor (K.sure sink.old) question bytes → IsDoneOrPoor result) }
    ensures quiet { S.quiet source.old → result ≡ Status.ReadFault → ⊥ }
    ensures sure { ForSome (S.left source.old) (λ bytes. IsRoomFor (K.sure sink.old) question bytes
        → result ≡ Status.WriteFault → ⊥) }
    ensures later { S.faults source.old ≤ S.faults source.new }
    ensures later_sink { K.faults sink.old ≤ K.faults sink.new }
{
    match read_all(rt.alloc(), source) {
        Err(ReadEnd::Fault) => Status::ReadFault,
        Err(ReadEnd::TooLarge) => Status::TooLarge,
        Err(ReadEnd::OutOfMemory) => Status::OutOfMemory,
        Ok(bytes) => answer(rt, &bytes, question, sink),
    }
}

// Writes the text that answers what is asked of bytes.
fn answer<R: AllocGlobal + Threads + Wait + Sync, K: Sink>(
    rt: &R,
    bytes: &[u8],
    question: Question,
    sink: &mut K,
) -> Status
    ensures done { result ≡ Status.Done → (text : List ℕ) × IsAnswer question bytes.now text
        × ForSome (K.taken sink.old) (λ old. K.taken sink.new ≡ Some (old ++ text)) }
    ensures usage { result ≡ Status.Usage → ⊥ }
    ensures script { (e : Refusal) → result ≡ Status.Script e → IsRefused question bytes.now e }
    ensures read_fault { result ≡ Status.ReadFault → ⊥ }
    ensures too_large { result ≡ Status.TooLarge → ⊥ }
    ensures write_fault { result ≡ Status.WriteFault → Rose (K.faults sink.old) (K.faults sink.new) }
    ensures front { result ≡ Status.WriteFault → (text : List ℕ) × IsAnswer question bytes.now text
        × ForSome (K.taken sink.old) (λ old. (n : ℕ) × (n < length text) ×
        (K.taken sink.new ≡ Some (old ++ take n text))) }
    ensures nothing { (result ≡ Status.Done → ⊥) → (result ≡ Status.WriteFault → ⊥) → K.taken sink.new ≡
        K.taken sink.old }
    ensures complete { IsSpelled question bytes.now → (Rose (K.faults sink.old) (K.faults sink.new) → ⊥) → IsDoneOrPoor result }
    ensures sure { IsRoomFor (K.sure sink.old) question bytes.now → result ≡ Status.WriteFault → ⊥ }
    ensures later { K.faults sink.old ≤ K.faults sink.new }
{
    match text_of(rt, bytes, question) {
        Err(ScriptFault::Script(error)) => Status::Script(error),
        Err(ScriptFault::OutOfMemory(_)) => Status::OutOfMemory,
        Ok(text) => match write_all(sink, &text) {
            Ok(()) => Status::Done,
            Err(_) => Status::WriteFault,
        },
    }
}

// The text that answers what is asked of bytes.
fn text_of<R: AllocGlobal + Threads + Wait + Sync>(
    rt: &R,
    bytes: &[u8],
    question: Question,
) -> Result<Vec<u8>, ScriptFault>
    ensures text { IfOk result (λ v. IsAnswer question bytes.now v.items) }
    ensures script { (e : Refusal) → result ≡ Err (ScriptFault.Script e) → IsRefused question bytes.now e }
{
    match question {
        Question::Run(units) => script_text(rt.alloc(), bytes, units),
        Question::Share(units) => sessions_text(rt, bytes, units),
        Question::Check(pace) => check_text(rt, bytes, pace),
    }
}
