ghost use Rattle.std.specs.Prelude.{◌≡◌, ◌+◌, ◌^◌, ◌<◌, ◌≤◌, length, take, min, drop, [], vec_len, IfOk, OnErr, IsOk, Some};
ghost use Rattle.std.specs.Option.{option_copied};
ghost use Rattle.std.specs.Io.KnownBytes.{IsAtEnd};
ghost use Rattle.ports.specs.Causes.{HasCause};
ghost use Rattle.ports.specs.InMemory.{held_after};
ghost use Rattle.ports.specs.Streams.{Gives, Takes};

use crate::copies::{copy_behind, overwrite};
use crate::sink::Sink;
use crate::source::{Failed, Source};
use std::marker::Model;

/// A source over bytes in memory that never fails. Contracts see it as the bytes still to come.
#[derive(Drop)]
pub struct SureSource {
    bytes: Vec<u8>,
    at: usize,
}

impl Model for SureSource {
    ghost use Rattle.std.specs.Prelude.{ℕ, ◌≤◌, List, drop, vec_len};

    ghost Value = { List ℕ };

    ghost view = { λ s. drop s.at s.bytes.items };

    ghost invariant = { λ s. s.at ≤ vec_len s.bytes };
}

impl SureSource {
    /// A source that gives `bytes`.
    pub fn new(bytes: Vec<u8>) -> SureSource
        ensures { result ≡ bytes.items }
    {
        SureSource { bytes, at: 0 }
    }
}

impl Source for SureSource {
    ghost left = { λ s. Some s };

    ghost faults = { λ _. 0 };

    fn read(&mut self, buf: &mut [u8]) -> Result<usize, Failed>
        requires { 0 < length buf.old }

        ensures bound { IfOk result (λ n. n ≤ length buf.new) }
        ensures bytes { IfOk result (λ n. Gives (Some self.old) (Some self.new) (take n buf.new)) }
        ensures end { IfOk result (λ n. n ≡ 0 → IsAtEnd (Some self.old)) }
        ensures stays { OnErr result (Some self.new ≡ Some self.old) }
        ensures cause { HasCause 0 0 result }
        ensures counted { 0 < 2 ^ 64 }

        // It never fails, and gives all that is left and fits.
        ensures sure { IsOk result }
        ensures all_that_fits { IfOk result (λ n. n ≡ min (length buf.new) (length self.old)) }
    {
        let count = copy_behind(&self.bytes, self.at, buf);
        self.at += count;
        Ok(count)
    }
}

/// A sink over a fixed room that never fails and takes no memory: it takes all it is given, and keeps what fits as long as
/// nothing was too much.
#[derive(Drop)]
pub struct SureSink {
    room: Vec<u8>,
    taken: usize,
    overflowed: bool,
}

impl Model for SureSink {
    ghost use Rattle.std.specs.Prelude.{◌≤◌, vec_len, take, Some, None, if◌then◌else◌};
    ghost use Rattle.ports.specs.InMemory.{SureSinkState};

    ghost Value = { SureSinkState };

    ghost view = { λ s. record {
      room = vec_len s.room;
      held = if s.overflowed then None else Some (take s.taken s.room.items);
    } };

    ghost invariant = { λ s. s.taken ≤ vec_len s.room };
}

impl SureSink {
    /// An empty sink that puts what it takes into the places of `room`, from the first one on.
    pub fn new(room: Vec<u8>) -> SureSink
        ensures room { result.room ≡ vec_len room }
        ensures held { result.held ≡ Some [] }
    {
        SureSink {
            room,
            taken: 0,
            overflowed: false,
        }
    }

    /// The bytes taken, or `None` where they were more than there is room for.
    pub fn held(&self) -> Option<&[u8]>
        ensures { option_copied result ≡ self.now.held }
    {
        if self.overflowed {
            None
        } else {
            Some(&self.room[..self.taken])
        }
    }
}

impl Sink for SureSink {
    ghost held = { λ s. s.held };

    ghost faults = { λ _. 0 };

    fn write(&mut self, buf: &[u8]) -> Result<usize, Failed>
        requires { 0 < length buf.now }

        ensures some { IfOk result (λ n. 0 < n) }
        ensures bound { IfOk result (λ n. n ≤ length buf.now) }
        ensures bytes { IfOk result (λ n. Takes self.old.held self.new.held (take n buf.now)) }
        ensures stays { OnErr result (self.new.held ≡ self.old.held) }
        ensures cause { HasCause 0 0 result }
        ensures counted { 0 < 2 ^ 64 }

        // It never fails, and takes all it is given.
        ensures sure { IsOk result }
        ensures all { IfOk result (λ n. n ≡ length buf.now) }
        ensures holds { self.new.held ≡ held_after self.old.room self.old.held buf.now }
        ensures room { self.new.room ≡ self.old.room }
    {
        if self.overflowed {
            return Ok(buf.len());
        }
        if buf.len() > self.room.len() - self.taken {
            self.overflowed = true;
            return Ok(buf.len());
        }
        overwrite(&mut self.room, self.taken, buf);
        self.taken += buf.len();
        Ok(buf.len())
    }
}
