// A queue of stores that wait.

ghost use Rattle.std.specs.Prelude.{◌≡◌, ℕ, ◌+◌, ◌^◌, ◌<◌, ◌≤◌, [], ◌∷◌, ◌++◌, length, replicate, slice_index, IfOk};
ghost use Rattle.icode.specs.Buffers.{is_waiting, overlaid};
ghost use Rattle.icode.specs.Machine.{with_words, words_at};
ghost use Rattle.buffer_machine.specs.Fresh.{empty_queue};
ghost use Rattle.buffer_machine.specs.Waits.{OldestFits, IsDrained};

use icode::effect::copy_lanes;
use memory::NoMemory;
use std::alloc::Global;
use std::marker::Model;

// The number for `count` words from the address on.
#[inline]
fn mark(newest: &mut [u64], address: u64, number: u64, count: u64)
    requires { address + count ≤ length newest.old }
    ensures { newest.new ≡ with_words newest.old address (replicate count number) }
{
    for word in 0..count {
        newest[(address + word) as usize] = number;
    }
}

/// Stores that wait, the oldest first. It has room for a fixed number of them until it is cleared, and takes no more
/// memory.
#[derive(Drop)]
pub(crate) struct Queue {
    lanes: u64,
    addresses: Vec<u64>,
    words: Vec<u64>,
    /// For each word of memory the number of the newest store that is for it, counted from 1, or 0.
    newest: Vec<u64>,
    /// The number of stores that have come, and how many of them are written.
    tail: u64,
    head: u64,
}

impl Model for Queue {
    ghost use Rattle.buffer_machine.specs.Backlog.{Backlog};

    ghost Value = { Backlog };

    ghost use Rattle.buffer_machine.specs.Sound.{backlog_of, IsQueue};

    ghost view = { backlog_of };

    ghost invariant = { IsQueue };
}

impl Queue {
    /// With room for `most` stores of `lanes` words each, into a memory of `span` words.
    pub(crate) fn new(alloc: Global, most: u64, lanes: u64, span: u64) -> Result<Self, NoMemory>
        requires most { most < 2 ^ 59 }
        requires lanes { lanes ≤ 16 }
        ensures { IfOk result (λ q. q ≡ empty_queue lanes most span) }
    {
        let addresses = vec![in alloc; 0; most as usize]?;
        let words = vec![in alloc; 0; (most * lanes) as usize]?;
        let newest = vec![in alloc; 0; span as usize]?;
        Ok(Queue {
            lanes,
            addresses,
            words,
            newest,
            tail: 0,
            head: 0,
        })
    }

    /// No store waits, and there is room as at first.
    pub(crate) fn clear(&mut self)
        ensures { self.new ≡ empty_queue self.old.lanes self.old.most self.old.span }
    {
        self.newest.fill(0);
        self.tail = 0;
        self.head = 0;
    }

    pub(crate) fn is_waiting(&self) -> bool
        ensures { result ≡ is_waiting self.now.waiting }
    {
        self.head < self.tail
    }

    /// The words of each lane, from the place on, wait for the address.
    pub(crate) fn push(&mut self, address: u64, words: &[u64], place: u64)
        requires room { 0 < self.old.room }
        requires inside { address + self.old.lanes ≤ self.old.span }
        requires from { place + self.old.lanes ≤ length words.now }
        ensures waiting { self.new.waiting ≡ self.old.waiting
            ++ record { address = address; words = words_at self.old.lanes words.now place } ∷ [] }
        ensures room { self.new.room + 1 ≡ self.old.room }
        ensures most { self.new.most ≡ self.old.most }
        ensures lanes { self.new.lanes ≡ self.old.lanes }
        ensures span { self.new.span ≡ self.old.span }
    {
        let at = self.tail;
        self.addresses[at as usize] = address;
        copy_lanes(words, place, &mut self.words, at * self.lanes, self.lanes);
        mark(&mut self.newest, address, at + 1, self.lanes);
        self.tail = at + 1;
    }

    /// Writes the oldest store to memory. The result is its address.
    pub(crate) fn write_oldest(&mut self, memory: &mut [u64]) -> u64
        requires { OldestFits self.old.lanes (length memory.old) self.old.waiting }
        ensures { IsDrained self.old self.new memory.old memory.new result }
    {
        let at = self.head;
        let address = self.addresses[at as usize];
        copy_lanes(&self.words, at * self.lanes, memory, address, self.lanes);
        self.head = at + 1;
        address
    }

    /// The word at a place of memory overlaid by the stores.
    pub(crate) fn seen(&self, memory: &[u64], place: u64) -> u64
        requires place { place < length memory.now }
        requires span { self.now.span ≡ length memory.now }
        ensures { result ≡ slice_index (overlaid memory.now self.now.waiting) place }
    {
        let newest = self.newest[place as usize];
        if newest <= self.head {
            return memory[place as usize];
        }
        let at = newest - 1;
        let lane = place - self.addresses[at as usize];
        self.words[(at * self.lanes + lane) as usize]
    }

    /// Copies the words of each lane, as they are seen from the address on, to a place of registers.
    pub(crate) fn load(&self, memory: &[u64], address: u64, registers: &mut [u64], place: u64)
        requires lanes { self.now.lanes ≤ 16 }
        requires inside { address + self.now.lanes ≤ length memory.now }
        requires span { self.now.span ≡ length memory.now }
        requires to { place + self.now.lanes ≤ length registers.old }
        ensures { registers.new ≡ with_words registers.old place
            (words_at self.now.lanes (overlaid memory.now self.now.waiting) address) }
    {
        for lane in 0..self.lanes {
            registers[(place + lane) as usize] = self.seen(memory, address + lane);
        }
    }
}
