// Programs whose large tables are in two factors.

ghost use Rattle.std.specs.Prelude.{◌≡◌, ◌<◌, ℕ, length, true, IfOk};
ghost use Rattle.icode.specs.Machine.{IsApart};
ghost use Rattle.icode.specs.Program.{plain_program, code_of, table_of, Fits};
ghost use Rattle.two_tables.specs.Factors.{first_factor, second_factor};
ghost use Rattle.two_tables.specs.Factored.{in_factors, may_be_split, can_split, factored_at, factored};
ghost use Rattle.two_tables.specs.Views.{plain_cut};
ghost use Rattle.two_tables.specs.Laws.{FactoredLeavesTheSame};

use crate::cuts::{cut_of, is_cut};
use crate::even::are_phases_even;
use crate::factors::{Cut, are_factors, first_factor, second_factor};
use crate::room::has_room;
use crate::split::{Split, split_phases};
use icode::header::shape_of;
use icode::program::Program;
use memory::NoMemory;
use std::alloc::Global;

/// The least number of entries of a large table.
pub const LARGE_TABLE: u64 = 131_072;

// The program with the table in these factors.
fn in_factors(
    alloc: Global,
    program: Program,
    table: u64,
    cut: Cut,
    factors: (Vec<u64>, Vec<u64>),
) -> Result<Program, NoMemory>
    requires table { table < length program.tables.items }
    requires can { can_split (plain_program program) table (plain_cut cut) ≡ true }
    requires first { factors.0.items ≡ first_factor (plain_cut cut) (table_of program table) }
    requires second { factors.1.items ≡ second_factor (plain_cut cut) (table_of program table) }
    ensures { IfOk result
        (λ made. plain_program made ≡ in_factors (plain_program program) table (plain_cut cut)) }
{
    let split = Split {
        cut,
        table,
        second: program.tables.len() as u64,
        register: program.regs,
    };
    let phases = split_phases(alloc, split, &program.phases)?;
    let (first, second) = factors;
    let mut tables = program.tables;
    tables[table as usize] = first;
    tables.push(second)?;
    Ok(Program {
        size: program.size,
        modulus: program.modulus,
        procs: program.procs,
        line: program.line,
        lanes: program.lanes,
        regs: program.regs + 1,
        tables,
        phases,
    })
}

fn table_at(program: &Program, table: u64) -> &[u64]
    requires { table < length program.now.tables.items }
    ensures { result.now ≡ table_of program.now table }
{
    &program.tables[table as usize]
}

// Whether the table has at least `least` entries, and may be split if it is the product of its factors.
fn may_be_split(least: u64, program: &Program, table: u64, cut: Cut) -> bool
    requires fits { Fits program.now }
    requires table { table < length program.now.tables.items }
    ensures { result ≡ may_be_split least (plain_program program.now) table (plain_cut cut) }
{
    least <= table_at(program, table).len() as u64
        && (has_room(program)
            && (is_cut(program.lanes, cut)
                && are_phases_even(program.lanes, table, &program.phases)))
}

// The program with this table in two factors, if it has at least `least` entries and may be split.
fn factor_table(
    alloc: Global,
    least: u64,
    program: Program,
    table: u64,
) -> Result<Program, NoMemory>
    requires fits { Fits program }
    requires table { table < length program.tables.items }
    ensures { IfOk result
        (λ made. plain_program made ≡ factored_at least (plain_program program) table) }
{
    let entries = table_at(&program, table);
    let cut = cut_of(entries);
    if !may_be_split(least, &program, table, cut) {
        return Ok(program);
    }
    let first = first_factor(alloc, cut, entries)?;
    let second = second_factor(alloc, cut, entries)?;
    let shape = shape_of(&program);
    if !are_factors(&shape.modulus, cut, &first, &second, entries) {
        return Ok(program);
    }
    let made = in_factors(alloc, program, table, cut, (first, second))?;
    Ok(made)
}

/// The program with each table of at least `least` entries in two factors, where it is the product of two small tables and
/// its entries are used in groups of lanes: a product by an entry is one by an entry of each.
pub fn factor_tables(alloc: Global, least: u64, program: Program) -> Result<Program, NoMemory>
    requires fits { Fits program }
    requires apart { (phase : ℕ) → IsApart (code_of program) phase }
    ensures { IfOk result (λ made. plain_program made ≡ factored least (plain_program program)) }
{
    let count = program.tables.len() as u64;
    let mut made = program;
    for table in 0..count {
        made = factor_table(alloc, least, made, table)?;
    }
    Ok(made)
}

/// Where a program fits and no processor touches a line that another writes in the same phase, the program with its large tables in two
/// factors fits, its processors share no line either, and it leaves what the program leaves, whatever the orders of turns.
pub fn factored_leaves_the_same()
    ensures { FactoredLeavesTheSame }
{}
