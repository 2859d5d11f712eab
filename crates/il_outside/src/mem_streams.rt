ghost use Rattle.std.specs.Prelude.{◌≡◌, ◌==◌, if◌then◌else◌, ◌+◌, ◌-◌, ◌<◌, ◌≤◌, ◌↔◌, ◌++◌, [], length, take, drop, min, MatchResult, IfOk, OnOk, OnErr, IsErr, IsErrOf, Ok, IsTrue, Contains};
ghost use Rattle.std.specs.Io.KnownBytes.{Consumes, Keeps, IsAtEnd, WriteAppends};
ghost use Rattle.il_outside.specs.Faults.{Rose, raised};
ghost use Rattle.il_outside.specs.Streams.{SinkFaults};
ghost use Rattle.il_outside.specs.Memory.{mem_source_state, mem_sink_state};

use crate::sink::{Sink, SinkError};
use crate::source::{Failed, Source};
use il_base::{Seq, Text};

/// A source in memory, which tells what it has left.
#[derive(Drop)]
pub struct MemSource {
    bytes: Text,
    at: usize,
    fails: Seq<u32>,
    calls: u64,
    faults: u64,
}

impl MemSource {
    /// A source of these bytes. The calls of these numbers fail, counted from 0 without those on an empty buffer.
    pub fn new(bytes: Text, fails: Seq<u32>) -> MemSource
        ensures { result ≡ record { bytes = bytes; at = 0; fails = fails; calls = 0; faults = 0 } }
    {
        MemSource {
            bytes,
            at: 0,
            fails,
            calls: 0,
            faults: 0,
        }
    }
}

impl Source for MemSource {
    ghost state = { mem_source_state };

    fn read(&mut self, buf: &mut [u8]) -> Result<usize, Failed>
        ensures bound { IfOk result (λ n. n ≤ length buf.new) }
        ensures left { MatchResult result (λ n. Consumes (mem_source_state self.old).left (mem_source_state self.new).left (take n buf.new)) (λ _. Keeps (mem_source_state self.old).left (mem_source_state self.new).left) }
        ensures end { IfOk result (λ n. n ≡ 0 → 0 < length buf.new → IsAtEnd (mem_source_state self.new).left) }
        ensures empty { length buf.new ≡ 0 → result ≡ Ok 0 }
        ensures failed { OnErr result (Rose (mem_source_state self.old).faults (mem_source_state self.new).faults) }
        ensures faults { OnOk result ((mem_source_state self.new).faults ≡ (mem_source_state self.old).faults) }
        ensures listed { IsErr result ↔ ((0 < length buf.old) × Contains self.old.fails self.old.calls) }
        ensures taken { IfOk result (λ n. n ≡ min (length buf.old) (length self.old.bytes - self.old.at)) }
        ensures calls { self.new.calls ≡ (if length buf.old == 0 then self.old.calls else raised self.old.calls) }
        ensures fails { self.new.fails ≡ self.old.fails }
    {
        if buf.is_empty() {
            return Ok(0);
        }
        let call = self.calls;
        self.calls = call.saturating_add(1);
        if is_listed(self.fails.as_slice(), call) {
            self.faults = self.faults.saturating_add(1);
            return Err(Failed);
        }
        let n = copy_front(self.bytes.as_slice(), self.at, buf);
        self.at += n;
        Ok(n)
    }
}

/// A sink in memory, which tells what it took.
#[derive(Drop)]
pub struct MemSink {
    held: Vec<u8>,
    fails: Vec<u32>,
    calls: u64,
    faults: u64,
}

impl MemSink {
    /// A sink that holds nothing. The calls of these numbers fail, counted from 0 without those on an empty piece.
    pub fn new(fails: Seq<u32>) -> MemSink
        ensures held { result.held.items ≡ [] }
        ensures fails { result.fails.items ≡ fails }
        ensures calls { result.calls ≡ 0 }
        ensures faults { result.faults ≡ 0 }
    {
        let fails = fails.into_vec();
        MemSink {
            held: Vec::new(*fails.allocator()),
            fails,
            calls: 0,
            faults: 0,
        }
    }

    /// The bytes that it took.
    pub fn held(&self) -> &[u8]
        ensures { result.now ≡ self.now.held.items }
    {
        self.held.as_slice()
    }
}

impl Sink for MemSink {
    ghost state = { mem_sink_state };

    fn write(&mut self, bytes: &[u8]) -> Result<usize, SinkError>
        ensures bound { IfOk result (λ n. n ≤ length bytes.now) }
        ensures some { IfOk result (λ n. 0 < length bytes.now → 0 < n) }
        ensures held { WriteAppends (mem_sink_state self.old).held (mem_sink_state self.new).held result bytes.now }
        ensures empty { length bytes.now ≡ 0 → result ≡ Ok 0 }
        ensures faults { SinkFaults (mem_sink_state self.old) (mem_sink_state self.new) result }
        ensures listed { IsErrOf result SinkError.Failed ↔ ((0 < length bytes.now) × Contains self.old.fails.items self.old.calls) }
        ensures whole { IfOk result (λ n. n ≡ length bytes.now) }
        ensures calls { self.new.calls ≡ (if length bytes.now == 0 then self.old.calls else raised self.old.calls) }
        ensures fails { self.new.fails.items ≡ self.old.fails.items }
    {
        if bytes.is_empty() {
            return Ok(0);
        }
        let call = self.calls;
        self.calls = call.saturating_add(1);
        if is_listed(self.fails.as_slice(), call) {
            self.faults = self.faults.saturating_add(1);
            return Err(SinkError::Failed);
        }
        match self.held.extend_from_slice(bytes) {
            Ok(()) => Ok(bytes.len()),
            Err(_) => Err(SinkError::NoMemory),
        }
    }
}

fn is_listed(fails: &[u32], call: u64) -> bool
    ensures { IsTrue result ↔ Contains fails.now call }
{
    match u32::try_from(call) {
        Ok(call) => fails.contains(&call),
        Err(_) => false,
    }
}

// Copies bytes from `at` on to the front of the buffer, as many as there are and fit, and gives their number.
fn copy_front(bytes: &[u8], at: usize, buf: &mut [u8]) -> usize
    ensures count { result ≡ min (length buf.old) (length bytes.now - at) }
    ensures front { take result buf.new ≡ take result (drop at bytes.now) }
{
    if bytes.len() <= at {
        return 0;
    }
    let n = buf.len().min(bytes.len() - at);
    buf[..n].copy_from_slice(&bytes[at..at + n]);
    n
}
