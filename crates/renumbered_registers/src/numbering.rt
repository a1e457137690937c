// The numbers that a run gives its registers. Each put counts as a new register, whatever stands in the old one, so a
// register gets a new number each time that the run puts it.

ghost use Rattle.std.specs.Prelude.{◌≡◌, ◌+◌, ◌^◌, ◌<◌, ◌≤◌, IfOk, OnOk};
ghost use Rattle.renumbered_registers.specs.Renumbered.{no_numbers, put, put_all, are_consecutive};
ghost use Rattle.renumbered_registers.specs.Views.{plain_numbering};

use memory::NoMemory;
use std::alloc::Global;
use std::collections::BTreeMap;

/// How many registers a run has put so far, and the number of each.
#[derive(Drop)]
pub(crate) struct Numbering {
    pub(crate) next: u64,
    pub(crate) numbers: BTreeMap<u128, u64>,
}

impl Numbering {
    pub(crate) fn new(alloc: Global) -> Numbering
        ensures { plain_numbering result ≡ no_numbers }
    {
        Numbering {
            next: 0,
            numbers: BTreeMap::new(alloc),
        }
    }

    pub(crate) fn number(&self, register: u128) -> Option<u64>
        ensures { result ≡ (plain_numbering self.now).numbers register }
    {
        self.numbers.get(&register).copied()
    }

    /// The register is put, and gets the next number.
    pub(crate) fn put(&mut self, register: u128) -> Result<(), NoMemory>
        requires { self.old.next < 2 ^ 32 }
        ensures { OnOk result (plain_numbering self.new ≡ put register (plain_numbering self.old)) }
    {
        self.numbers.insert(register, self.next)?;
        self.next += 1;
        Ok(())
    }

    /// `count` registers from this one on are put, and each gets the next number.
    #[tactic(auto, using(crate::proofs::Steps::one_more_put, crate::proofs::Steps::all_are_put))]
    pub(crate) fn put_all(&mut self, count: u64, register: u64) -> Result<(), NoMemory>
        requires { self.old.next + count < 2 ^ 32 }
        ensures { OnOk result (plain_numbering self.new ≡ put_all count register (plain_numbering self.old)) }
    {
        for lane in 0..count {
            self.put(register as u128 + lane as u128)?;
        }
        Ok(())
    }

    /// Whether `count` registers, from this one on, have the numbers from this one on.
    #[tactic(auto, using(crate::proofs::Steps::one_more_follows, crate::proofs::Steps::all_follow, crate::proofs::Steps::one_has_none, crate::proofs::Steps::one_has_another))]
    pub(crate) fn are_consecutive(&self, count: u64, register: u64, number: u64) -> bool
        ensures { result ≡ are_consecutive count register number (plain_numbering self.now) }
    {
        for lane in 0..count {
            let Some(other) = self.number(register as u128 + lane as u128) else {
                return false;
            };
            if other as u128 != number as u128 + lane as u128 {
                return false;
            }
        }
        true
    }
}
