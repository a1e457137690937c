// Tables in two factors: the first entries of all blocks, and the first blocks of all rows. Whether each entry is the product of
// an entry of each.

ghost use Rattle.std.specs.Prelude.{◌≡◌, ◌<◌, length, slice_index, All, IfOk};
ghost use Rattle.std.specs.List.{list_all, range_with_len};
ghost use Rattle.two_tables.specs.Factors.{first_factor, second_factor, is_product_at, is_table, are_factors};
ghost use Rattle.two_tables.specs.Views.{plain_cut};

use memory::NoMemory;
use ring_mod::QuickModulus;
use std::alloc::Global;

/// A table in blocks of `width` entries, of which `across` are a row.
#[derive(Clone, Copy, Drop)]
pub(crate) struct Cut {
    pub width: u64,
    pub across: u64,
}

fn entry_at(entries: &[u64], at: u64) -> u64
    requires { at < length entries.now }
    ensures { result ≡ slice_index entries.now at }
{
    entries[at as usize]
}

/// The first entry of each block.
pub(crate) fn first_factor(alloc: Global, cut: Cut, entries: &[u64]) -> Result<Vec<u64>, NoMemory>
    requires wide { 0 < cut.width }
    ensures { IfOk result (λ made. made.items ≡ first_factor (plain_cut cut) entries.now) }
{
    let mut made = Vec::new(alloc);
    for block in 0..entries.len() as u64 / cut.width {
        made.push(entry_at(entries, block * cut.width))?;
    }
    Ok(made)
}

/// The first block of each row.
pub(crate) fn second_factor(alloc: Global, cut: Cut, entries: &[u64]) -> Result<Vec<u64>, NoMemory>
    requires wide { 0 < cut.width }
    requires across { 0 < cut.across }
    ensures { IfOk result (λ made. made.items ≡ second_factor (plain_cut cut) entries.now) }
{
    let mut made = Vec::new(alloc);
    for place in 0..entries.len() as u64 / cut.width / cut.across * cut.width {
        let at = place / cut.width * cut.across * cut.width + place % cut.width;
        made.push(entry_at(entries, at))?;
    }
    Ok(made)
}

// Whether the entry is the product of entries of the factors.
fn is_product_at(
    modulus: &QuickModulus,
    cut: Cut,
    first: &[u64],
    second: &[u64],
    entries: &[u64],
    at: u64,
) -> bool
    requires wide { 0 < cut.width }
    requires across { 0 < cut.across }
    requires inside { at < length entries.now }
    requires first { All (λ c. c < modulus.now) first.now }
    requires second { All (λ c. c < modulus.now) second.now }
    ensures { result
        ≡ is_product_at modulus.now (plain_cut cut) first.now second.now entries.now at }
{
    let block = at / cut.width;
    let place = block / cut.across * cut.width + at % cut.width;
    block < first.len() as u64
        && (place < second.len() as u64
            && modulus.mul(first[block as usize], second[place as usize]) == entries[at as usize])
}

fn are_residues(modulus: u64, entries: &[u64]) -> bool
    ensures { result ≡ is_table modulus entries.now }
{
    for entry in entries {
        if *entry >= modulus {
            return false;
        }
    }
    !entries.is_empty()
}

fn are_products(
    modulus: &QuickModulus,
    cut: Cut,
    first: &[u64],
    second: &[u64],
    entries: &[u64],
) -> bool
    requires wide { 0 < cut.width }
    requires across { 0 < cut.across }
    requires first { All (λ c. c < modulus.now) first.now }
    requires second { All (λ c. c < modulus.now) second.now }
    ensures { result
        ≡ list_all (is_product_at modulus.now (plain_cut cut) first.now second.now entries.now)
        (range_with_len 0 (length entries.now)) }
{
    for at in 0..entries.len() as u64 {
        if !is_product_at(modulus, cut, first, second, entries, at) {
            return false;
        }
    }
    true
}

/// Whether each entry is the product of entries of the factors.
pub(crate) fn are_factors(
    modulus: &QuickModulus,
    cut: Cut,
    first: &[u64],
    second: &[u64],
    entries: &[u64],
) -> bool
    requires wide { 0 < cut.width }
    requires across { 0 < cut.across }
    ensures { result
        ≡ are_factors modulus.now (plain_cut cut) first.now second.now entries.now }
{
    let limit = modulus.modulus().get();
    are_residues(limit, first)
        && (are_residues(limit, second) && are_products(modulus, cut, first, second, entries))
}
