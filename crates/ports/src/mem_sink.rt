ghost use Rattle.std.specs.Prelude.{◌≡◌, ◌≢◌, ◌+◌, ◌-◌, ◌^◌, ◌<◌, ◌≤◌, ◌↔◌, ◌⊎◌, length, take, min, [], ◌++◌, Contains, IfOk, OnErr, IsErr, Some};
ghost use Rattle.ports.specs.Causes.{HasCause, one_more};
ghost use Rattle.ports.specs.Streams.{Takes};

use crate::copies::append_front;
use crate::faults::OutOfMemory;
use crate::sink::Sink;
use crate::source::Failed;
use std::alloc::Global;
use std::marker::Model;

/// A sink in memory, which fails exactly at the calls whose numbers it is given and where it is full. Calls count from 0, and
/// their count stays at 2^64 - 1 once it is there.
#[derive(Drop)]
pub struct MemSink {
    taken: Vec<u8>,
    room: usize,
    fails: Vec<u64>,
    calls: u64,
    faults: u64,
}

impl Model for MemSink {
    ghost use Rattle.std.specs.Prelude.{◌≤◌, vec_len, vec_capacity};
    ghost use Rattle.ports.specs.InMemory.{MemSinkState};

    ghost Value = { MemSinkState };

    ghost view = { λ s. record { held = s.taken.items; room = s.room; fails = s.fails.items; calls = s.calls; faults = s.faults } };

    ghost invariant = { λ s. (vec_len s.taken ≤ s.room) × (s.room ≤ vec_capacity s.taken) };
}

impl MemSink {
    /// An empty sink with room for `room` bytes, which it reserves now, that fails at the calls that `fails` lists.
    pub fn new(alloc: Global, fails: Vec<u64>, room: u64) -> Result<MemSink, OutOfMemory>
        ensures held { IfOk result (λ sink. sink.held ≡ []) }
        ensures room { IfOk result (λ sink. sink.room ≡ room) }
        ensures fails { IfOk result (λ sink. sink.fails ≡ fails.items) }
        ensures calls { IfOk result (λ sink. sink.calls ≡ 0) }
        ensures faults { IfOk result (λ sink. sink.faults ≡ 0) }
    {
        let room = room as usize;
        Ok(MemSink {
            taken: Vec::with_capacity(alloc, room)?,
            room,
            fails,
            calls: 0,
            faults: 0,
        })
    }

    /// The bytes taken so far.
    pub fn as_slice(&self) -> &[u8]
        ensures { result.now ≡ self.now.held }
    {
        &self.taken
    }
}

impl Sink for MemSink {
    ghost held = { λ s. Some s.held };

    ghost faults = { λ s. s.faults };

    fn write(&mut self, buf: &[u8]) -> Result<usize, Failed>
        requires { 0 < length buf.now }

        ensures some { IfOk result (λ n. 0 < n) }
        ensures bound { IfOk result (λ n. n ≤ length buf.now) }
        ensures bytes { IfOk result (λ n. Takes (Some self.old.held) (Some self.new.held) (take n buf.now)) }
        ensures stays { OnErr result (Some self.new.held ≡ Some self.old.held) }
        ensures cause { HasCause self.old.faults self.new.faults result }
        ensures counted { self.new.faults < 2 ^ 64 }

        // It fails exactly at the listed calls and where it is full, and else takes all that fits.
        ensures fails { IsErr result ↔ (Contains self.old.fails self.old.calls ⊎ self.old.room ≤ length self.old.held) }
        ensures all_that_fits { IfOk result (λ n. n ≡ min (length buf.now) (self.old.room - length self.old.held)) }
        ensures calls { self.new.calls ≡ one_more self.old.calls }
        ensures listed { self.new.fails ≡ self.old.fails }
        ensures room { self.new.room ≡ self.old.room }
        ensures counts { OnErr result (self.new.faults ≡ one_more self.old.faults) }
    {
        let call = self.calls;
        self.calls = call.saturating_add(1);
        let free = self.room - self.taken.len();
        if free == 0 || self.fails.contains(&call) {
            self.faults = self.faults.saturating_add(1);
            return Err(Failed);
        }
        let count = buf.len().min(free);
        append_front(&mut self.taken, buf, count);
        Ok(count)
    }
}
