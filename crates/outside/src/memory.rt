//! Sources and sinks in memory, for tests: the first two fail at the calls that they are told, and move at
//! most a chunk of bytes in a call; the other two never fail.

ghost use Rattle.outside.specs.Below.{min, [], length, take, drop, Some, vec_len, vec_capacity, is_err, IsOk, IsErr, IfOk, OnErr, IsTrue, OnTrue};
ghost use Rattle.std.specs.Prelude.{◌≡◌, ◌+◌, ◌-◌, ◌<◌, ◌≤◌, ◌⊎◌, ◌++◌};
ghost use Rattle.outside.specs.Count.{Rose};
ghost use Rattle.outside.specs.Plan.{is_due, GoesOn};
ghost use Rattle.outside.specs.Source.{Moves};

use crate::faults::{Plan, one_more};
use crate::sink::Sink;
use crate::source::{Failed, Source};
use std::alloc::{AllocError, Global};

#[derive(Drop)]
pub struct MemorySource {
    bytes: Vec<u8>,
    place: usize,
    chunk: usize,
    plan: Plan,
    ghost within: { place ≤ vec_len bytes },
    ghost moves: { 0 < chunk },
}

impl MemorySource {
    ghost use Rattle.outside.specs.Memory.{source_left, source_plan, source_chunk};

    /// Gives these bytes, at most a chunk in a call, and fails at the calls of these numbers.
    pub fn new(bytes: Vec<u8>, chunk: usize, failing: Vec<u64>) -> Self
        requires { 0 < chunk }
        ensures left { source_left result ≡ bytes.items }
        ensures failing { (source_plan result).failing.items ≡ failing.items }
        ensures chunk { source_chunk result ≡ chunk }
        ensures calls { (source_plan result).calls ≡ 0 }
        ensures faults { ⟦<MemorySource as Source>⟧.faults result ≡ 0 }
    {
        MemorySource {
            bytes,
            place: 0,
            chunk,
            plan: Plan::new(failing),
        }
    }
}

impl Source for MemorySource {
    ghost use Rattle.outside.specs.Memory.{source_left, source_plan, source_chunk};

    ghost left = { λ s. Some (drop s.place s.bytes.items) };

    ghost faults = { λ s. s.plan.faults };

    ghost quiet = { λ s. s.plan.failing.items ≡ [] };

    // Fails exactly at the calls of its plan, and moves at most its chunk.
    fn read(&mut self, buf: &mut [u8]) -> Result<usize, Failed>
        ensures planned { is_err result ≡ is_due (source_plan self.old) }
        ensures chunk { IfOk result (λ n. n ≤ source_chunk self.old) }
        ensures calls { GoesOn (source_plan self.old) (source_plan self.new) }
        ensures same { source_chunk self.new ≡ source_chunk self.old }

        // What the trait says of each source.
        ensures room { IfOk result (λ n. n ≤ length buf.old) }
        ensures moved { IfOk result (λ n.
            Moves (source_left self.old) (Some (source_left self.new)) buf.old buf.new n) }
        ensures end { IfOk result (λ n. n ≡ 0 → 0 < length buf.old → source_left self.old ≡ []) }
        ensures kept { OnErr result (source_left self.new ≡ source_left self.old) }
        ensures failed { OnErr result (Rose (source_plan self.old).faults (source_plan self.new).faults) }
        ensures later { (source_plan self.old).faults ≤ (source_plan self.new).faults }
        ensures quiet { (source_plan self.old).failing.items ≡ [] → IsOk result }
    {
        if self.plan.fails() {
            return Err(Failed);
        }
        let count = move_front(&self.bytes[self.place..], self.chunk, buf);
        self.place += count;
        Ok(count)
    }
}

#[derive(Drop)]
pub struct QuietSource {
    bytes: Vec<u8>,
    place: usize,
    ghost within: { place ≤ vec_len bytes },
}

impl QuietSource {
    ghost use Rattle.outside.specs.Memory.{quiet_left};

    /// Gives these bytes, and never fails.
    pub fn new(bytes: Vec<u8>) -> Self
        ensures { quiet_left result ≡ bytes.items }
    {
        QuietSource { bytes, place: 0 }
    }
}

impl Source for QuietSource {
    ghost left = { λ s. Some (drop s.place s.bytes.items) };

    ghost faults = { λ _. 0 };

    ghost quiet = { λ _. Unit {0} };

    fn read(&mut self, buf: &mut [u8]) -> Result<usize, Failed> {
        let count = move_front(&self.bytes[self.place..], usize::MAX, buf);
        self.place += count;
        Ok(count)
    }
}

// Copies as many bytes as there are, fit and are allowed, and says how many.
fn move_front(bytes: &[u8], most: usize, buf: &mut [u8]) -> usize
    ensures within { result ≤ length buf.old }
    ensures most { result ≤ most }
    ensures moved { Moves bytes.now (Some (drop result bytes.now)) buf.old buf.new result }
    ensures some { 0 < most → 0 < length buf.old → result ≡ 0 → bytes.now ≡ [] }
{
    let count = bytes.len().min(buf.len()).min(most);
    let (front, _) = buf.split_at_mut(count);
    front.copy_from_slice(&bytes[..count]);
    count
}

#[derive(Drop)]
pub struct MemorySink {
    bytes: Vec<u8>,
    chunk: usize,
    plan: Plan,
    ghost moves: { 0 < chunk },
}

impl MemorySink {
    ghost use Rattle.outside.specs.Memory.{sink_bytes, sink_plan, sink_chunk};

    /// Takes at most a chunk of bytes in a call, and fails at the calls of these numbers, and where memory
    /// runs out.
    pub fn new(alloc: Global, chunk: usize, failing: Vec<u64>) -> Self
        requires { 0 < chunk }
        ensures bytes { sink_bytes result ≡ [] }
        ensures failing { (sink_plan result).failing.items ≡ failing.items }
        ensures chunk { sink_chunk result ≡ chunk }
        ensures calls { (sink_plan result).calls ≡ 0 }
        ensures faults { ⟦<MemorySink as Sink>⟧.faults result ≡ 0 }
    {
        MemorySink {
            bytes: Vec::new(alloc),
            chunk,
            plan: Plan::new(failing),
        }
    }

    pub fn bytes(&self) -> &[u8]
        ensures { result.now ≡ sink_bytes self.now }
    {
        &self.bytes
    }
}

impl Sink for MemorySink {
    ghost use Rattle.outside.specs.Memory.{sink_bytes, sink_plan, sink_chunk, sink_room};

    ghost taken = { λ s. Some s.bytes.items };

    ghost faults = { λ s. s.plan.faults };

    // Fails exactly at the calls of its plan, and where the piece wants more memory; takes at most its chunk.
    fn write(&mut self, piece: &[u8]) -> Result<usize, Failed>
        ensures planned { OnTrue (is_due (sink_plan self.old)) (IsErr result) }
        ensures only_planned { OnErr result (IsTrue (is_due (sink_plan self.old))
            ⊎ (sink_room self.old < min (length piece.now) (sink_chunk self.old))) }
        ensures chunk { IfOk result (λ n. n ≤ sink_chunk self.old) }
        ensures calls { GoesOn (sink_plan self.old) (sink_plan self.new) }
        ensures same { sink_chunk self.new ≡ sink_chunk self.old }

        // What the trait says of each sink.
        ensures part { IfOk result (λ n. n ≤ length piece.now) }
        ensures some { IfOk result (λ n. 0 < length piece.now → 0 < n) }
        ensures taken { IfOk result (λ n. sink_bytes self.new ≡ sink_bytes self.old ++ take n piece.now) }
        ensures kept { OnErr result (sink_bytes self.new ≡ sink_bytes self.old) }
        ensures failed { OnErr result (Rose (sink_plan self.old).faults (sink_plan self.new).faults) }
        ensures later { (sink_plan self.old).faults ≤ (sink_plan self.new).faults }
    {
        if self.plan.fails() {
            return Err(Failed);
        }
        let count = piece.len().min(self.chunk);
        if self.bytes.extend_from_slice(&piece[..count]).is_err() {
            self.plan.faults = one_more(self.plan.faults);
            return Err(Failed);
        }
        Ok(count)
    }
}

#[derive(Drop)]
pub struct QuietSink {
    bytes: Vec<u8>,
    faults: u64,
}

impl QuietSink {
    ghost use Rattle.outside.specs.Memory.{quiet_bytes, quiet_room};

    /// A sink that never fails while it takes no more than so many bytes. It fails then only where memory
    /// runs out.
    pub fn with_room(alloc: Global, room: usize) -> Result<Self, AllocError>
        ensures bytes { IfOk result (λ sink. quiet_bytes sink ≡ []) }
        ensures room { IfOk result (λ sink. room ≤ quiet_room sink) }
        ensures faults { IfOk result (λ sink. ⟦<QuietSink as Sink>⟧.faults sink ≡ 0) }
    {
        Ok(QuietSink {
            bytes: Vec::with_capacity(alloc, room)?,
            faults: 0,
        })
    }

    pub fn bytes(&self) -> &[u8]
        ensures { result.now ≡ quiet_bytes self.now }
    {
        &self.bytes
    }
}

impl Sink for QuietSink {
    ghost taken = { λ s. Some s.bytes.items };

    ghost faults = { λ s. s.faults };

    ghost sure = { λ s. vec_capacity s.bytes - vec_len s.bytes };

    fn write(&mut self, piece: &[u8]) -> Result<usize, Failed> {
        if self.bytes.extend_from_slice(piece).is_err() {
            self.faults = one_more(self.faults);
            return Err(Failed);
        }
        Ok(piece.len())
    }
}
