// Places of a C text on words.

ghost use Rattle.std.specs.Prelude.{◌≡◌, ◌++◌, OnOk};
ghost use Rattle.icode.specs.Plain.{plain_expr};
ghost use Rattle.fast_text.specs.WordText.{index_text};

use icode::program::Expr;
use listing_text::put_sum;
use std::alloc::AllocError;

/// Writes a place.
pub(crate) fn put_index(out: &mut Vec<u8>, place: &Expr) -> Result<(), AllocError>
    ensures { OnOk result (out.new.items ≡ out.old.items ++ index_text (plain_expr place.now)) }
{
    put_sum(out, place, b"ULL")
}
