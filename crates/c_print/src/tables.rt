//! The lines of tables in C.

ghost use Rattle.std.specs.Prelude.{◌≡◌, ◌<◌, ℕ, List, length, IfOk, IsOkUnless};
ghost use Rattle.grammar.specs.Cursor.{Tells, TellsAll};
ghost use Rattle.grammar.specs.Reading.{whole};
ghost use Rattle.c_print.specs.CText.{c_table_text};
ghost use Rattle.c_print.specs.CTables.{same_length, c_table_at, IsTableOf};

use grammar::{Cursor, ReadError, Stuck};
use std::alloc::Global;

fn table_of(alloc: Global, cursor: &mut Cursor, most: u64) -> Result<(u64, Vec<u64>), ReadError>
    ensures { Tells
        (λ table. (table.0, table.1.items)) result cursor.new (c_table_at most cursor.old) }
{
    let number = cursor.named_number(b"static const uint64_t t", u64::MAX)?;
    let count = cursor.named_number(b"[", u64::MAX)?;
    cursor.word(b"] = {")?;
    let entries = cursor.numbers(alloc, b",", u64::MAX, most)?;
    cursor.word(b"};\n")?;
    if entries.len() as u64 == count {
        return Ok((number, entries));
    }
    Err(ReadError::Stuck(Stuck {
        left: cursor.left(),
    }))
}

fn whole_table(alloc: Global, line: &[u8]) -> Result<(u64, Vec<u64>), ReadError>
    ensures { TellsAll
        (λ table. (table.0, table.1.items)) result (whole (c_table_at (length line.now)) line.now) }
{
    let mut cursor = Cursor::new(line);
    let table = table_of(alloc, &mut cursor, line.len() as u64)?;
    cursor.end()?;
    Ok(table)
}

/// The number and the entries of the table whose line in C this is, with its end: a part of a reader of
/// whole C texts. `Stuck` says how many bytes are left where reading stops.
pub fn read_c_table(alloc: Global, line: &[u8]) -> Result<(u64, Vec<u64>), ReadError>
    ensures read { TellsAll
        (λ table. (table.0, table.1.items)) result (whole (c_table_at (length line.now)) line.now) }
    ensures text { IfOk result (λ table. (0 < length table.1.items)
        × (line.now ≡ c_table_text table.0 table.1.items)) }
    ensures only { (number : ℕ) (entries : List ℕ) → IsTableOf line.now number entries
        → IsOkUnless result ReadError.NoMemory
        × IfOk result (λ table. (table.0 ≡ number) × (table.1.items ≡ entries)) }
{
    match whole_table(alloc, line) {
        Ok(table) => Ok(table),
        Err(error) => Err(error),
    }
}
