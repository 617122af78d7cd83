//! The one top call: words, a source and a sink.

ghost use Rattle.serve.specs.Below.{[], ℕ, List, length, take, drop, map, string_bytes, Some, None, Ok, ForSome, Rose, job_in, Generation, Question, ScriptError as Refusal};
ghost use Rattle.std.specs.Prelude.{◌≡◌, ◌<◌, ◌≤◌, ◌+◌, ◌^◌, ◌++◌};
ghost use Rattle.serve.specs.Headline.{IsAnswer, IsRefused, IsRoomFor, IsSpelled, generation_text};
ghost use Rattle.serve.specs.Status.{HasReadAll, IsDoneOrPoor, IsWriteEnd};

use crate::answer::answer_source;
use crate::generation::generate;
use crate::status::Status;
use outside::words::{Job, job_of};
use outside::{Sink, Source};
use std::sync::Wait;
use std::thread::Threads;

/// With the words `run N`, reads a script to the source's end, runs each command of it with N units, and writes the
/// replies and the classes that it made to the sink. With `share N`, reads an opening and sessions, runs the opening and
/// then all sessions at once on one machine, each of their commands with N units, and writes the journal; it alone waits,
/// where a session waits for its turn. With `check`, reads a hierarchy, and writes the report of its classes' orders; with
/// `check par` as many threads as there are processors find the orders, and what is written is the same. With
/// `gen SEED COUNT`, runs the commands that the seed generates, and writes what their replies add up to. Nothing is
/// written before all was read and run.
pub fn serve<R: AllocGlobal + Threads + Wait + Sync, S: Source, K: Sink>(
    rt: &R,
    words: &[String],
    source: &mut S,
    sink: &mut K,
) -> Status
    // What is written answers the text that was read, and nothing else is: with `run N` it is the text of the plain
    // machine's run, with `share N` the text of a legal journal that is a mix of the sessions, with `check` and `check par`
    // the report of the hierarchy.
    ensures done { (q : Question) → job_in (map string_bytes words.now) ≡ Some (Job.Answer q) → result ≡ Status.Done
        → ForSome (S.left source.old) (λ bytes. (length bytes ≤ 2 ^ 24) × (text : List ℕ) × IsAnswer q bytes text
        × ForSome (K.taken sink.old) (λ old. K.taken sink.new ≡ Some (old ++ text))) }
    // What has a script's answer, or failed in writing it, has read all; whatever comes, at most one byte
    // past the limit is read, and for words that are none nothing.
    ensures read { (q : Question) → job_in (map string_bytes words.now) ≡ Some (Job.Answer q) → HasReadAll result
        → ForSome (S.left source.old) (λ _. S.left source.new ≡ Some []) }
    ensures at_most { ForSome (S.left source.old) (λ bytes. (n : ℕ) × (n ≤ 2 ^ 24 + 1) ×
        (S.left source.new ≡ Some (drop n bytes))) }
    ensures unread { result ≡ Status.Usage → source.new ≡ source.old }
    // Usage comes exactly where the words are none that the program knows.
    ensures usage { result ≡ Status.Usage → job_in (map string_bytes words.now) ≡ None }
    ensures only_usage { job_in (map string_bytes words.now) ≡ None → result ≡ Status.Usage }
    // A word of a script comes only of a job whose bytes, which are few enough, give it.
    ensures script { (e : Refusal) → result ≡ Status.Script e → (q : Question) × (job_in (map string_bytes words.now)
        ≡ Some (Job.Answer q)) × ForSome (S.left source.old) (λ bytes. (length bytes ≤ 2 ^ 24) × IsRefused q bytes e) }
    ensures read_fault { result ≡ Status.ReadFault → Rose (S.faults source.old) (S.faults source.new) }
    ensures too_large { result ≡ Status.TooLarge → ForSome (S.left source.old) (λ bytes. 2 ^ 24 < length bytes) }
    ensures fits { ForSome (S.left source.old) (λ bytes. length bytes ≤ 2 ^ 24 → result ≡ Status.TooLarge → ⊥) }
    ensures write_fault { result ≡ Status.WriteFault → Rose (K.faults sink.old) (K.faults sink.new) }
    // What was taken before a fault is a front of the text.
    ensures front { (q : Question) → job_in (map string_bytes words.now) ≡ Some (Job.Answer q) → result ≡ Status.WriteFault
        → ForSome (S.left source.old) (λ bytes. (length bytes ≤ 2 ^ 24) × (text : List ℕ) × IsAnswer q bytes text
        × ForSome (K.taken sink.old) (λ old. (n : ℕ) × (n < length text) ×
        (K.taken sink.new ≡ Some (old ++ take n text)))) }
    // With any other end nothing is written.
    ensures nothing { (result ≡ Status.Done → ⊥) → (result ≡ Status.WriteFault → ⊥) → K.taken sink.new ≡
        K.taken sink.old }
    // Bytes that spell what is asked of and are few enough, and no failure: then all is written, or memory could not
    // be had.
    ensures complete { (q : Question) → job_in (map string_bytes words.now) ≡ Some (Job.Answer q)
        → ForSome (S.left source.old) (λ bytes. IsSpelled q bytes → length bytes ≤ 2 ^ 24
        → (Rose (S.faults source.old) (S.faults source.new) → ⊥) → (Rose (K.faults sink.old) (K.faults sink.new) → ⊥)
        → IsDoneOrPoor result) }
    // The same known before the call: a source that never fails, and a sink that is sure of each text that answers.
    ensures ahead { (q : Question) → job_in (map string_bytes words.now) ≡ Some (Job.Answer q)
        → ForSome (S.left source.old) (λ bytes. IsSpelled q bytes → length bytes ≤ 2 ^ 24
        → S.quiet source.old → IsRoomFor (K.sure sink.old) q bytes → IsDoneOrPoor result) }
    // A source that never fails, a text that the sink is sure of, and counts that never fall.
    ensures quiet { S.quiet source.old → result ≡ Status.ReadFault → ⊥ }
    ensures sure { (q : Question) → job_in (map string_bytes words.now) ≡ Some (Job.Answer q)
        → ForSome (S.left source.old) (λ bytes. IsRoomFor (K.sure sink.old) q bytes → result ≡ Status.WriteFault → ⊥) }
    ensures later { S.faults source.old ≤ S.faults source.new }
    ensures later_sink { K.faults sink.old ≤ K.faults sink.new }
    // With `gen SEED COUNT`, the source is left alone, and what is written is what the replies of the plain machine to
    // the generated commands add up to; it ends so, or the sink failed, or memory could not be had.
    ensures gen_unread { (g : Generation) → job_in (map string_bytes words.now) ≡ Some (Job.Generate g)
        → source.new ≡ source.old }
    ensures gen_ends { (g : Generation) → job_in (map string_bytes words.now) ≡ Some (Job.Generate g) → IsWriteEnd result }
    ensures gen_done { (g : Generation) → job_in (map string_bytes words.now) ≡ Some (Job.Generate g) → result ≡ Status.Done
        → ForSome (K.taken sink.old) (λ old. K.taken sink.new ≡ Some (old ++ generation_text g.seed g.count)) }
    ensures gen_front { (g : Generation) → job_in (map string_bytes words.now) ≡ Some (Job.Generate g)
        → result ≡ Status.WriteFault → ForSome (K.taken sink.old) (λ old. (n : ℕ)
        × (n < length (generation_text g.seed g.count))
        × (K.taken sink.new ≡ Some (old ++ take n (generation_text g.seed g.count)))) }
    ensures gen_complete { (g : Generation) → job_in (map string_bytes words.now) ≡ Some (Job.Generate g)
        → (Rose (K.faults sink.old) (K.faults sink.new) → ⊥) → IsDoneOrPoor result }
    ensures gen_ahead { (g : Generation) → job_in (map string_bytes words.now) ≡ Some (Job.Generate g)
        → length (generation_text g.seed g.count) ≤ K.sure sink.old → IsDoneOrPoor result }
{
    match job_of(words) {
        Some(Job::Answer(question)) => answer_source(rt, question, source, sink),
        Some(Job::Generate(generation)) => generate(rt.alloc(), generation, sink),
        None => Status::Usage,
    }
}
