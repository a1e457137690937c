// Where the words of one memory stand in another.

ghost use Rattle.std.specs.Prelude.{◌≡◌, ◌+◌, ◌<◌, ◌≤◌, length, IfOk};
ghost use Rattle.std.specs.List.{range_with_len};
ghost use Rattle.word_code.specs.InPlace.Homes.{own_homes, is_home, are_home, housed};
ghost use Rattle.word_code.specs.InPlace.Views.{homes_of, IsTable};

use memory::NoMemory;
use std::alloc::Global;

/// Where words stand, for the addresses of both memories.
#[derive(Drop)]
pub(crate) struct HomeTable {
    /// Of each address of the one, the address of the other where its word was put last.
    pub(crate) homes: Vec<u64>,
    /// Of each address of the other, the address of the one whose word was put there last.
    pub(crate) guests: Vec<u64>,
}

fn addresses(alloc: Global, words: u64) -> Result<Vec<u64>, NoMemory>
    ensures { IfOk result (λ made. made.items ≡ range_with_len 0 words) }
{
    let mut made = Vec::new(alloc);
    for address in 0..words {
        made.push(address)?;
    }
    Ok(made)
}

impl HomeTable {
    /// Each of the words at its own address.
    pub(crate) fn own(alloc: Global, words: u64) -> Result<HomeTable, NoMemory>
        ensures homes { IfOk result (λ table. homes_of table ≡ own_homes words) }
        ensures table { IfOk result (IsTable words) }
    {
        let homes = addresses(alloc, words)?;
        let guests = addresses(alloc, words)?;
        Ok(HomeTable { homes, guests })
    }

    /// Whether the word at an address of the one stands at an address of the other.
    fn is_home(&self, at: u64, to: u64) -> bool
        requires at { at < length self.now.homes.items }
        requires to { to < length self.now.guests.items }
        ensures { result ≡ is_home (homes_of self.now) at to }
    {
        self.homes[at as usize] == to && self.guests[to as usize] == at
    }

    /// Whether `count` words from there on do.
    pub(crate) fn are_home(&self, count: u64, at: u64, to: u64) -> bool
        requires at { at + count ≤ length self.now.homes.items }
        requires to { to + count ≤ length self.now.guests.items }
        ensures { result ≡ are_home (homes_of self.now) count at to }
    {
        for word in 0..count {
            if !self.is_home(at + word, to + word) {
                return false;
            }
        }
        true
    }

    /// Puts `count` words there.
    pub(crate) fn house(&mut self, count: u64, at: u64, to: u64)
        requires at { at + count ≤ length self.old.homes.items }
        requires to { to + count ≤ length self.old.guests.items }
        ensures housed { homes_of self.new ≡ housed count at to (homes_of self.old) }
        ensures homes { length self.new.homes.items ≡ length self.old.homes.items }
        ensures guests { length self.new.guests.items ≡ length self.old.guests.items }
    {
        if count == 0 {
            return;
        }
        self.homes[at as usize] = to;
        self.guests[to as usize] = at;
        self.house(count - 1, at + 1, to + 1);
    }
}
