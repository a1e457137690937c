// Tables of factors.
ghost use Rattle.std.specs.Prelude.{◌≡◌, ◌^◌, ◌<◌, IfOk, OnOk};
ghost use Rattle.std.specs.Option.{option_map};
ghost use Rattle.icode.specs.Plain.{plain_tables};
ghost use Rattle.code_gen.specs.PassCode.Statements.{diagonal_number, diagonal_of, multiplier_number};
ghost use Rattle.code_gen.specs.PassCode.Statements.{one_factor, powers_number, powers_of};
ghost use Rattle.code_gen.specs.PassCode.Statements.{table_number};
ghost use Rattle.sigma_spl.specs.Views.{plain_factors, plain_multiplier, plain_work};
ghost use Rattle.code_gen.specs.Additions.{AddsDiagonal, AddsMultiplier, AddsPowers, AddsTable};
ghost use Rattle.code_gen.specs.Conditions.{CanList, HasFactors};
ghost use Rattle.code_gen.specs.Views.{tables_in};

use crate::factors::{diagonal, one_factor};
use memory::NoMemory;
use ring_mod::Modulus;
use sigma_spl::{Factors, Multiplier, Work};
use std::alloc::Global;

// The first `count` powers of the root, from the power 0 on.
fn powers(alloc: Global, modulus: &Modulus, root: u64, count: u64) -> Result<Vec<u64>, NoMemory>
    ensures { IfOk result (λ y. y.items ≡ powers_of modulus.now root count) }
{
    let base = modulus.reduce(root);
    let mut items = Vec::new(alloc);
    let mut power = modulus.reduce(1);
    for _ in 0..count {
        items.push(power)?;
        power = modulus.mul(power, base);
    }
    Ok(items)
}

// Where a table stands among others, or how many there are where it is new.
fn find_table(tables: &[Vec<u64>], entries: &[u64]) -> u64
    ensures { result ≡ table_number (plain_tables tables.now) entries.now }
{
    for k in 0..tables.len() {
        if tables[k].as_slice() == entries {
            return k as u64;
        }
    }
    tables.len() as u64
}

// The number of a table, which is added where it is new.
fn share_table(tables: &mut Vec<Vec<u64>>, entries: Vec<u64>) -> Result<u64, NoMemory>
    ensures number { IfOk result (λ n. n ≡ table_number (tables_in tables.old) entries.items) }
    ensures tables { OnOk result (AddsTable entries.items tables.old tables.new) }
{
    let number = find_table(tables, &entries);
    if number == tables.len() as u64 {
        tables.push(entries)?;
    }
    Ok(number)
}

/// The number of the table of the powers that work by rows uses, and 0 for other work.
pub(crate) fn number_powers(
    alloc: Global,
    modulus: &Modulus,
    work: &Work,
    tables: &mut Vec<Vec<u64>>,
) -> Result<u64, NoMemory>
    ensures number { IfOk result (λ n. let w = plain_work work.now in
        n ≡ powers_number modulus.now w (tables_in tables.old)) }
    ensures tables { OnOk result (AddsPowers modulus.now work.now tables.old tables.new) }
{
    match work {
        Work::Dense { root, size } | Work::Horner { root, size } => {
            let entries = powers(alloc, modulus, *root, *size)?;
            let number = share_table(tables, entries)?;
            Ok(number)
        }
        _ => Ok(0),
    }
}

// The number of the table of a diagonal, and 0 where it repeats one factor.
fn number_diagonal(
    alloc: Global,
    modulus: &Modulus,
    factors: &Factors,
    tables: &mut Vec<Vec<u64>>,
) -> Result<u64, NoMemory>
    requires { CanList (plain_factors factors.now) }
    ensures number { IfOk result (λ n. let d = plain_factors factors.now in
        n ≡ diagonal_number (one_factor d) (tables_in tables.old) (diagonal_of modulus.now d)) }
    ensures tables { OnOk result (AddsDiagonal modulus.now factors.now tables.old tables.new) }
{
    match one_factor(factors) {
        Some(_) => Ok(0),
        None => {
            let entries = diagonal(alloc, modulus, factors)?;
            let number = share_table(tables, entries)?;
            Ok(number)
        }
    }
}

/// The number of the table of a multiplier's diagonal, and 0 where there is no multiplier or no table.
pub(crate) fn number_multiplier(
    alloc: Global,
    modulus: &Modulus,
    multiplier: &Option<Multiplier>,
    tables: &mut Vec<Vec<u64>>,
) -> Result<u64, NoMemory>
    requires { HasFactors (option_map plain_multiplier multiplier.now) }
    ensures number { IfOk result (λ n. let d = option_map plain_multiplier multiplier.now in
        n ≡ multiplier_number modulus.now d (tables_in tables.old)) }
    ensures tables { OnOk result (AddsMultiplier modulus.now multiplier.now tables.old tables.new) }
{
    match multiplier {
        None => Ok(0),
        Some(multiplier) => {
            let number = number_diagonal(alloc, modulus, &multiplier.factors, tables)?;
            Ok(number)
        }
    }
}
