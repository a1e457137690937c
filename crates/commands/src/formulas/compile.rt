// The command that prints the code of a formula.
ghost use Rattle.std.specs.Prelude.{◌≡◌, ◌≤◌, Ok, Err, IfOk, IfErr, length};
ghost use Rattle.io_edge.specs.Feed.{to_come};
ghost use Rattle.spl_ast.specs.Formula.{parts_of};
ghost use Rattle.commands.specs.Equations.Compile.{compile_outcomes};
ghost use Rattle.commands.specs.Equations.Formulas.{written};
ghost use Rattle.commands.specs.Formulas.Compiled.{IsCompiledText};
ghost use Rattle.commands.specs.Input.Ends.{EndsCleanly};
ghost use Rattle.commands.specs.Input.Outcomes.{SourceMeets};
ghost use Rattle.commands.specs.Input.Stage.{status_of};
ghost use Rattle.spiral_words.specs.Statuses.Status.{IsDefined};
ghost use Rattle.commands.specs.Input.Refusals.{IsRefusal};

use crate::formulas::line::formula_line;
use generate::formula_program;
use io_edge::{Feed, Sink, Source, write_all};
use listing_text::print_listing;
use ring_mod::Modulus;
use spiral_words::Status;
use spl_ast::Spl;
use spl_text::read_spl;
use std::alloc::Global;

/// The formula that the text spells.
pub(crate) fn written_formula(alloc: Global, text: &[u8]) -> Result<Spl, Status>
    ensures formula { IfOk result (λ formula. written text.now (Ok formula)) }
    ensures parts { IfOk result (λ formula. parts_of formula ≤ length text.now) }
    ensures refused { IfErr result (λ status. IsDefined status → written text.now (Err status)) }
    ensures refusal { IfErr result IsRefusal }
{
    let formula = read_spl(alloc, text)?;
    Ok(formula)
}

// The listing of a program for the formula that the text spells.
fn formula_listing(alloc: Global, modulus: &Modulus, text: &[u8]) -> Result<Vec<u8>, Status>
    requires short { length text.now ≤ 65536 }
    ensures text { IfOk result (λ listing. IsCompiledText modulus.now text.now listing.items) }
    ensures refused { IfErr result (λ status. IsDefined status → written text.now (Err status)) }
    ensures refusal { IfErr result IsRefusal }
{
    let formula = written_formula(alloc, text)?;
    let program = formula_program(alloc, modulus, formula)?;
    let listing = print_listing(alloc, &program)?;
    Ok(listing)
}

/// Writes the listing of a program for the formula that the first line spells, and reads nothing after that line.
pub(crate) fn compile<I: Source, O: Sink>(
    alloc: Global,
    modulus: &Modulus,
    feed: &mut Feed,
    input: &mut I,
    output: &mut O,
) -> Result<(), Status>
    requires fresh { feed.old.taken ≡ 0 }
    ensures told { SourceMeets (compile_outcomes modulus.now)
        (to_come feed.old (I.told input.old)) (to_come feed.new (I.told input.new))
        (O.taken output.old) (O.taken output.new) (status_of result) }
    ensures ends { EndsCleanly (status_of result) feed.new.held
        (I.faults input.old) (I.faults input.new) (O.faults output.old) (O.faults output.new)
        (O.taken output.old) (O.taken output.new) }
{
    let text = formula_line(alloc, feed, input)?;
    let listing = formula_listing(alloc, modulus, &text)?;
    write_all(output, &listing)?;
    Ok(())
}
