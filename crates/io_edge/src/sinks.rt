// Sinks in memory, and over any writer.
ghost use Rattle.std.specs.Prelude.{◌≡◌, ℕ, ◌+◌, ◌-◌, ◌^◌, ◌<◌, ◌≤◌, ◌⊎◌, ◌↔◌, ◌++◌, [], min, None, Some, length, Contains, IsErr, IsOk, IfOk, OnErr};
ghost use Rattle.std.specs.Io.{WritesAtMost};
ghost use Rattle.std.specs.Io.KnownBytes.{WriteAppends};
ghost use Rattle.io_edge.specs.Faults.{HasCause};
ghost use Rattle.io_edge.specs.Memory.{Store, next_count};

use crate::{Failed, Sink, Tape};
use memory::NoMemory;
use std::alloc::Global;
use std::io::Write;
use std::marker::Model;

/// Keeps what it takes, as far as it has room. It fails at the calls of a list, counted from 0, and where there is
/// something to take and no room is left, and from then on.
#[derive(Drop)]
pub struct MemSink {
    bytes: Vec<u8>,
    room: u64,
    fail_at: Vec<u64>,
    calls: u64,
    faults: u64,
}

impl Model for MemSink {
    ghost use Rattle.std.specs.Prelude.{ℕ, ◌≤◌, List, length, vec_capacity};
    ghost use Rattle.io_edge.specs.Memory.{Store};

    ghost Value = { Store };

    ghost view = { λ s. record {
      kept = s.bytes.items;
      room = s.room;
      fail_at = s.fail_at.items;
      calls = s.calls;
      faults = s.faults;
    } };

    ghost invariant = { λ s. (length s.bytes.items ≤ s.room) × (s.room ≤ vec_capacity s.bytes) };
}

impl MemSink {
    /// An empty sink. It takes memory for its whole room at once.
    pub fn new(alloc: Global, room: u64, fail_at: Vec<u64>) -> Result<Self, NoMemory>
        ensures { IfOk result (λ sink. sink
            ≡ record { kept = []; room = room; fail_at = fail_at.items; calls = 0; faults = 0 }) }
    {
        let bytes = Vec::with_capacity(alloc, room as usize)?;
        Ok(MemSink {
            bytes,
            room,
            fail_at,
            calls: 0,
            faults: 0,
        })
    }

    /// The bytes that it has taken.
    pub fn bytes(&self) -> &[u8]
        ensures { result.now ≡ self.now.kept }
    {
        &self.bytes
    }
}

impl Sink for MemSink {
    ghost taken = { λ s. Some s.kept };

    ghost faults = { λ s. s.faults };

    fn write(&mut self, piece: &[u8]) -> Result<usize, Failed>
        ensures bound { WritesAtMost result piece.now }
        ensures some { 0 < length piece.now → IfOk result (λ count. 0 < count) }
        ensures bytes { WriteAppends (Some self.old.kept) (Some self.new.kept) result piece.now }
        ensures cause { HasCause self.old.faults self.new.faults result }
        ensures broken { 0 < self.old.faults → IsErr result }

        // It fails at the listed calls, at a full room and after a fault alone, and takes as much as it may.
        ensures fails { IsErr result ↔ ((0 < self.old.faults) ⊎ (Contains self.old.fail_at self.old.calls
            ⊎ ((0 < length piece.now) × (length self.old.kept ≡ self.old.room)))) }
        ensures count { IfOk result
            (λ count. count ≡ min (length piece.now) (self.old.room - length self.old.kept)) }
        ensures calls { self.new.calls ≡ next_count self.old.calls }
        ensures faults { OnErr result (self.new.faults ≡ next_count self.old.faults) }
    {
        let call = self.calls;
        self.calls = call.saturating_add(1);
        let left = self.room as usize - self.bytes.len();
        if self.faults > 0 || self.fail_at.contains(&call) || (left == 0 && !piece.is_empty()) {
            self.faults = self.faults.saturating_add(1);
            return Err(Failed);
        }
        let count = piece.len().min(left);
        self.bytes.extend_from_slice(&piece[..count]).unwrap();
        Ok(count)
    }
}

/// Counts what it takes and keeps nothing. It never fails.
#[derive(Clone, Copy, Debug, Default, PartialEq, Eq)]
pub struct CountSink {
    /// How many bytes it has taken.
    pub count: u64,
}

impl CountSink {
    pub fn new() -> Self
        ensures { result.count ≡ 0 }
    {
        CountSink { count: 0 }
    }
}

impl Sink for CountSink {
    ghost taken = { λ _. None };

    ghost faults = { λ _. 0 };

    fn write(&mut self, piece: &[u8]) -> Result<usize, Failed>
        ensures bound { WritesAtMost result piece.now }
        ensures some { 0 < length piece.now → IfOk result (λ count. 0 < count) }
        ensures bytes { WriteAppends None None result piece.now }
        ensures cause { HasCause 0 0 result }
        ensures broken { 0 < 0 → IsErr result }

        // It takes the whole piece. The count stays at its last value.
        ensures all { IfOk result (λ count. count ≡ length piece.now) }
        ensures count { self.new.count ≡ min (self.old.count + length piece.now) (2 ^ 64 - 1) }
    {
        self.count = self.count.saturating_add(piece.len() as u64);
        Ok(piece.len())
    }
}

/// A writer of std as a sink. Each error counts as a fault, and so does a piece of which it takes nothing. A writer that
/// has failed is not asked again.
#[derive(Drop)]
pub struct WriteSink<W> {
    /// The writer.
    pub inner: W,
    /// How often it has failed. The count stays at its last value.
    pub faults: u64,
    /// The bytes that it has taken.
    pub tape: Tape,
}

impl<W: Write> WriteSink<W> {
    pub fn new(inner: W) -> Self
        ensures inner { result.inner ≡ inner }
        ensures faults { result.faults ≡ 0 }
        ensures tape { result.tape.bytes ≡ [] }
    {
        WriteSink {
            inner,
            faults: 0,
            tape: Tape::new(),
        }
    }
}

impl<W: Write> Sink for WriteSink<W> {
    ghost taken = { λ s. Some s.tape.bytes };

    ghost faults = { λ s. s.faults };

    fn write(&mut self, piece: &[u8]) -> Result<usize, Failed> {
        if self.faults > 0 {
            self.faults = self.faults.saturating_add(1);
            return Err(Failed);
        }
        match self.inner.write(piece) {
            Ok(count) if count > 0 || piece.is_empty() => {
                self.tape.note(&piece[..count]);
                Ok(count)
            }
            _ => {
                self.faults = self.faults.saturating_add(1);
                Err(Failed)
            }
        }
    }
}
