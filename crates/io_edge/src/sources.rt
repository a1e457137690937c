// Sources in memory, and over any reader.
ghost use Rattle.std.specs.Prelude.{◌≡◌, ◌<◌, ◌⊎◌, ◌↔◌, [], min, true, false, Ok, Some, length, take, drop, vec_len, Contains, IsErr, IfOk, OnErr};
ghost use Rattle.std.specs.Io.{ReadsAtMost};
ghost use Rattle.io_edge.specs.Faults.{HasCause};
ghost use Rattle.io_edge.specs.Memory.{Supply, next_count, told_of};
ghost use Rattle.io_edge.specs.Told.{ReadGives, Told};

use crate::{Failed, Source, Tape};
use std::io::Read;
use std::marker::Model;

// Puts as many of the bytes into the buffer as fit, at most `limit`, and answers how many.
fn fill(bytes: &[u8], limit: usize, buf: &mut [u8]) -> usize
    ensures count { result ≡ min limit (min (length buf.old) (length bytes.now)) }
    ensures front { take result buf.new ≡ take result bytes.now }
{
    let count = limit.min(buf.len().min(bytes.len()));
    buf[..count].copy_from_slice(&bytes[..count]);
    count
}

/// Bytes in memory, given in steps. It fails at the calls of a list, counted from 0, and from then on.
#[derive(Drop)]
pub struct MemSource {
    bytes: Vec<u8>,
    at: usize,
    ended: bool,
    step: u64,
    fail_at: Vec<u64>,
    calls: u64,
    faults: u64,
}

impl Model for MemSource {
    ghost use Rattle.std.specs.Prelude.{◌≡◌, ℕ, ◌<◌, ◌≤◌, true, List, take, drop, length};
    ghost use Rattle.io_edge.specs.Memory.{Supply};

    ghost Value = { Supply };

    ghost view = { λ s. record {
      given = take s.at s.bytes.items;
      left = drop s.at s.bytes.items;
      ended = s.ended;
      step = s.step;
      fail_at = s.fail_at.items;
      calls = s.calls;
      faults = s.faults;
    } };

    ghost invariant = { λ s. (s.at ≤ length s.bytes.items) × (0 < s.step)
        × (s.ended ≡ true → s.at ≡ length s.bytes.items) };
}

impl MemSource {
    /// A source of these bytes that gives at most `step` of them in one call.
    pub fn new(bytes: Vec<u8>, step: u64, fail_at: Vec<u64>) -> Self
        requires { 0 < step }
        ensures { result ≡ record {
          given = [];
          left = bytes.items;
          ended = false;
          step = step;
          fail_at = fail_at.items;
          calls = 0;
          faults = 0;
        } }
    {
        MemSource {
            bytes,
            at: 0,
            ended: false,
            step,
            fail_at,
            calls: 0,
            faults: 0,
        }
    }
}

impl Source for MemSource {
    ghost told = { told_of };

    ghost faults = { λ s. s.faults };

    fn read(&mut self, buf: &mut [u8]) -> Result<usize, Failed>
        ensures bound { ReadsAtMost result buf.new }
        ensures bytes { ReadGives (told_of self.old) (told_of self.new) result buf.new }
        ensures end { result ≡ Ok 0 → 0 < length buf.new → self.new.ended ≡ true }
        ensures cause { HasCause self.old.faults self.new.faults result }
        ensures broken { 0 < self.old.faults → IsErr result }

        // It fails at the listed calls and after a fault alone, and gives as much as it may.
        ensures fails { IsErr result
            ↔ ((0 < self.old.faults) ⊎ Contains self.old.fail_at self.old.calls) }
        ensures count { IfOk result
            (λ count. count ≡ min self.old.step (min (length buf.old) (length self.old.left))) }
        ensures calls { self.new.calls ≡ next_count self.old.calls }
        ensures faults { OnErr result (self.new.faults ≡ next_count self.old.faults) }
    {
        let call = self.calls;
        self.calls = call.saturating_add(1);
        if self.faults > 0 || self.fail_at.contains(&call) {
            self.faults = self.faults.saturating_add(1);
            return Err(Failed);
        }
        let count = fill(&self.bytes[self.at..], self.step as usize, buf);
        self.at += count;
        self.ended = self.ended || (count == 0 && !buf.is_empty());
        Ok(count)
    }
}

/// Bytes in memory, given as fast as they are asked for. It never fails.
#[derive(Drop)]
pub struct QuietSource {
    bytes: Vec<u8>,
    at: usize,
    ended: bool,
}

impl Model for QuietSource {
    ghost use Rattle.std.specs.Prelude.{◌≡◌, ◌≤◌, true, Some, take, drop, length};
    ghost use Rattle.io_edge.specs.Told.{Told};

    ghost Value = { Told };

    ghost view = { λ s. record {
      given = take s.at s.bytes.items;
      left = Some (drop s.at s.bytes.items);
      ended = s.ended;
    } };

    ghost invariant = { λ s. (s.at ≤ length s.bytes.items)
        × (s.ended ≡ true → s.at ≡ length s.bytes.items) };
}

impl QuietSource {
    pub fn new(bytes: Vec<u8>) -> Self
        ensures { result ≡ record { given = []; left = Some bytes.items; ended = false } }
    {
        QuietSource {
            bytes,
            at: 0,
            ended: false,
        }
    }
}

impl Source for QuietSource {
    ghost told = { λ s. s };

    ghost faults = { λ _. 0 };

    fn read(&mut self, buf: &mut [u8]) -> Result<usize, Failed> {
        let count = fill(&self.bytes[self.at..], buf.len(), buf);
        self.at += count;
        self.ended = self.ended || (count == 0 && !buf.is_empty());
        Ok(count)
    }
}

/// A reader of std as a source. Each error counts as a fault. A reader that gave none, or that has failed, is not asked
/// again.
#[derive(Drop)]
pub struct ReadSource<R> {
    /// The reader.
    pub inner: R,
    /// How often it has failed. The count stays at its last value.
    pub faults: u64,
    /// Whether it has ended.
    pub ended: bool,
    /// The bytes that it has given.
    pub tape: Tape,
}

impl<R: Read> ReadSource<R> {
    pub fn new(inner: R) -> Self
        ensures inner { result.inner ≡ inner }
        ensures faults { result.faults ≡ 0 }
        ensures ended { result.ended ≡ false }
        ensures tape { result.tape.bytes ≡ [] }
    {
        ReadSource {
            inner,
            faults: 0,
            ended: false,
            tape: Tape::new(),
        }
    }
}

impl<R: Read> Source for ReadSource<R> {
    ghost told = { λ s. record { given = s.tape.bytes; left = R.remaining s.inner; ended = s.ended } };

    ghost faults = { λ s. s.faults };

    fn read(&mut self, buf: &mut [u8]) -> Result<usize, Failed> {
        if self.faults > 0 {
            self.faults = self.faults.saturating_add(1);
            return Err(Failed);
        }
        if self.ended {
            return Ok(0);
        }
        match self.inner.read(buf) {
            Ok(count) => {
                self.ended = count == 0 && !buf.is_empty();
                self.tape.note(&buf[..count]);
                Ok(count)
            }
            Err(_) => {
                self.faults = self.faults.saturating_add(1);
                Err(Failed)
            }
        }
    }
}
