// What arrays have to hold where a run begins.

ghost use Rattle.std.specs.Prelude.{◌≡◌, ◌++◌, OnOk};
ghost use Rattle.fast_text.specs.FirstValues.{asked_first_text, first_values_text, own_arrays_text, callers_arrays_text};

use listing_text::put_word;
use std::alloc::AllocError;

fn put_asked_first(out: &mut Vec<u8>, fresh: bool) -> Result<(), AllocError>
    ensures { OnOk result (out.new.items ≡ out.old.items ++ asked_first_text fresh) }
{
    if fresh {
        put_word(out, b": any words before the first phase. */\n")
    } else {
        put_word(
            out,
            b": 0 before the first phase, as each register is before each phase. */\n",
        )
    }
}

fn put_first_values(out: &mut Vec<u8>, arrays: &[u8], fresh: bool) -> Result<(), AllocError>
    ensures { OnOk result (out.new.items ≡ out.old.items ++ first_values_text arrays.now fresh) }
{
    put_word(out, b"/* ")?;
    put_word(out, arrays)?;
    put_asked_first(out, fresh)
}

/// Writes it for the arrays of a text.
pub(crate) fn put_own_first_values(out: &mut Vec<u8>, fresh: bool) -> Result<(), AllocError>
    ensures { OnOk result (out.new.items ≡ out.old.items
        ++ first_values_text own_arrays_text fresh) }
{
    put_first_values(out, b"Y, A, B and the rest of X", fresh)
}

/// Writes it for the arrays of a function's caller.
pub(crate) fn put_callers_first_values(out: &mut Vec<u8>, fresh: bool) -> Result<(), AllocError>
    ensures { OnOk result (out.new.items ≡ out.old.items
        ++ first_values_text (callers_arrays_text fresh) fresh) }
{
    if fresh {
        put_first_values(out, b"out, work", true)
    } else {
        put_first_values(out, b"out, work and the rest of in", false)
    }
}
