// Factors of products. A residue c stands for itself and for c - m; the factor is the smaller of the two, whatever
// its sign, so that a product of a number below 2^52 has a quotient below 2^51.

ghost use Rattle.std.specs.Prelude.{◌≡◌, ◌^◌, ◌<◌, map, All, IfOk, IsTrue};
ghost use Rattle.icode.specs.Limits.{are_tables_within};
ghost use Rattle.icode.specs.Plain.{plain_tables};
ghost use Rattle.double_code.specs.Doubled.{factors_of};
ghost use Rattle.double_code.specs.Factors.{centred};
ghost use Rattle.double_code.specs.Views.{plain_factors};

use memory::NoMemory;
use std::alloc::Global;

/// The factor that stands for a residue.
pub fn centred(modulus: u64, residue: u64) -> i64
    requires modulus { modulus < 2 ^ 50 }
    requires residue { residue < modulus }
    ensures { result ≡ centred modulus residue }
{
    if 2 * residue <= modulus {
        residue as i64
    } else {
        residue as i64 - modulus as i64
    }
}

fn factors(alloc: Global, modulus: u64, entries: &[u64]) -> Result<Vec<i64>, NoMemory>
    requires modulus { modulus < 2 ^ 50 }
    requires below { All (λ c. c < modulus) entries.now }
    ensures { IfOk result (λ made. made.items ≡ map (centred modulus) entries.now) }
{
    let mut made = Vec::new(alloc);
    for entry in entries {
        made.push(centred(modulus, *entry))?;
    }
    Ok(made)
}

/// The factors of all tables.
pub fn factor_tables(
    alloc: Global,
    modulus: u64,
    tables: &[Vec<u64>],
) -> Result<Vec<Vec<i64>>, NoMemory>
    requires modulus { modulus < 2 ^ 50 }
    requires below { IsTrue (are_tables_within modulus (plain_tables tables.now)) }
    ensures { IfOk result
        (λ made. plain_factors made.items ≡ factors_of modulus (plain_tables tables.now)) }
{
    let mut made = Vec::new(alloc);
    for entries in tables {
        let entries = factors(alloc, modulus, entries)?;
        made.push(entries)?;
    }
    Ok(made)
}
