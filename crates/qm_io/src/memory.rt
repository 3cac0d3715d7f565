ghost use Rattle.std.specs.Prelude.{◌≡◌, ◌↔◌, ◌<◌, [], length, min, Contains, IsErr, IfOk, Some};
ghost use Rattle.std.specs.Io.{ReadsAtMost, WritesAtMost};
ghost use Rattle.std.specs.Io.KnownBytes.{ReadConsumes, WriteAppends};
ghost use Rattle.qm_io.specs.Causes.{HasCause};
ghost use Rattle.qm_io.specs.Bytes.{EndsExactly, TakesSome};
ghost use Rattle.qm_io.specs.Memory.{calls_after};

use crate::calls::Calls;
use crate::{Failed, List, Sink, Source};
use std::alloc::Global;
use std::marker::Model;

/// A source in memory, which tells its bytes and fails at the calls that it is told to fail at.
#[derive(Debug, Drop)]
pub struct MemorySource {
    bytes: List<u8>,
    at: usize,
    piece: usize,
    calls: Calls,
}

impl Model for MemorySource {
    ghost use Rattle.std.specs.Prelude.{◌<◌, ◌≤◌, length, drop};
    ghost use Rattle.qm_io.specs.Memory.{MemoryInput};

    ghost Value = { MemoryInput };

    ghost view = { λ s. record { rest = drop s.at s.bytes; piece = s.piece; calls = s.calls } };

    ghost invariant = { λ s. (0 < s.piece) × (s.at ≤ length s.bytes) };
}

impl MemorySource {
    /// Gives these bytes, at most `piece` a call, and fails at the calls with these numbers, from 1.
    pub fn new(bytes: List<u8>, piece: usize, failing: List<u64>) -> Self
        requires { 0 < piece }
        ensures bytes { (result.rest ≡ bytes) × (result.piece ≡ piece) }
        ensures calls { result.calls ≡ record { failing = failing; made = 0; failed = 0 } }
    {
        MemorySource {
            bytes,
            at: 0,
            piece,
            calls: Calls::new(failing),
        }
    }
}

impl Source for MemorySource {
    ghost rest = { λ s. Some s.rest };

    ghost faults = { λ s. s.calls.failed };

    fn read(&mut self, buf: &mut [u8]) -> Result<usize, Failed>
        // what every source says
        ensures bound { ReadsAtMost result buf.new }
        ensures bytes { ReadConsumes (Some self.old.rest) (Some self.new.rest) result buf.new }
        ensures end { EndsExactly (Some self.old.rest) result buf.new }
        ensures cause { HasCause self.old.calls.failed self.new.calls.failed result }

        // which calls fail, how much the others give, and what is counted
        ensures fails { IsErr result ↔ Contains self.old.calls.failing self.new.calls.made }
        ensures gives { IfOk result (λ n. n ≡ min (min (length self.old.rest) self.old.piece) (length buf.new)) }
        ensures piece { self.new.piece ≡ self.old.piece }
        ensures calls { self.new.calls ≡ calls_after self.old.calls result }
    {
        if self.calls.next_fails() {
            self.calls.fail();
            return Err(Failed);
        }
        let bytes = self.bytes.as_slice();
        let n = (bytes.len() - self.at).min(self.piece).min(buf.len());
        let next = self.at + n;
        buf[..n].copy_from_slice(&bytes[self.at..next]);
        self.at = next;
        Ok(n)
    }
}

/// A sink in memory, which tells its bytes and fails at the calls that it is told to fail at.
#[derive(Debug, Drop)]
pub struct MemorySink {
    bytes: List<u8>,
    piece: usize,
    calls: Calls,
}

impl Model for MemorySink {
    ghost use Rattle.std.specs.Prelude.{◌<◌};
    ghost use Rattle.qm_io.specs.Memory.{MemoryOutput};

    ghost Value = { MemoryOutput };

    ghost view = { λ s. record { taken = s.bytes; piece = s.piece; calls = s.calls } };

    ghost invariant = { λ s. 0 < s.piece };
}

impl MemorySink {
    /// Takes at most `piece` bytes a call, and fails at the calls with these numbers, from 1.
    pub fn new(alloc: Global, piece: usize, failing: List<u64>) -> Self
        requires { 0 < piece }
        ensures bytes { (result.taken ≡ []) × (result.piece ≡ piece) }
        ensures calls { result.calls ≡ record { failing = failing; made = 0; failed = 0 } }
    {
        MemorySink {
            bytes: List::new(alloc),
            piece,
            calls: Calls::new(failing),
        }
    }

    /// The bytes taken so far, lent.
    pub fn bytes(&self) -> &[u8]
        ensures { result.now ≡ self.now.taken }
    {
        self.bytes.as_slice()
    }
}

impl Sink for MemorySink {
    ghost taken = { λ s. Some s.taken };

    ghost faults = { λ s. s.calls.failed };

    fn write(&mut self, buf: &[u8]) -> Result<usize, Failed>
        // what every sink says
        ensures bound { WritesAtMost result buf.now }
        ensures some { TakesSome result buf.now }
        ensures bytes { WriteAppends (Some self.old.taken) (Some self.new.taken) result buf.now }
        ensures cause { HasCause self.old.calls.failed self.new.calls.failed result }

        // which calls fail besides those without memory, how much the others take, and what is counted
        ensures fails { Contains self.old.calls.failing self.new.calls.made → IsErr result }
        ensures takes { IfOk result (λ n. n ≡ min (length buf.now) self.old.piece) }
        ensures piece { self.new.piece ≡ self.old.piece }
        ensures calls { self.new.calls ≡ calls_after self.old.calls result }
    {
        let fails = self.calls.next_fails();
        let n = buf.len().min(self.piece);
        if fails || self.bytes.append(&buf[..n]).is_err() {
            self.calls.fail();
            return Err(Failed);
        }
        Ok(n)
    }
}
