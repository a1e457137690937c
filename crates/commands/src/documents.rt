// The texts that are written for a request alone.
ghost use Rattle.std.specs.Prelude.{Err, IfOk, IfErr};
ghost use Rattle.icode.specs.Program.{Fits};
ghost use Rattle.matrix_meaning.specs.Valid.{IsInRange};
ghost use Rattle.commands.specs.Input.Commands.{NamesNoStranger};
ghost use Rattle.spiral_words.specs.Statuses.Status.{IsDefined};
ghost use Rattle.commands.specs.Input.Refusals.{IsRefusal};
ghost use Rattle.commands.specs.Equations.Orders.{chosen};
ghost use Rattle.commands.specs.Equations.Requests.{IsDocument};
ghost use Rattle.commands.specs.Programs.{IsProgramFor};

use crate::plans::{certificate, formula, plan_lines};
use crate::sample::sample;
use c_print::print_c;
use generate::generate;
use icode::program::Program;
use listing_text::print_listing;
use matrix_meaning::Request;
use spiral_words::{Document, RequestCommand, Status};
use std::alloc::Global;

/// A good program for the request.
pub(crate) fn good_program(alloc: Global, request: &Request) -> Result<Program, Status>
    requires in_range { IsInRange request.now }
    ensures program { IfOk result (IsProgramFor request.now) }
    ensures fits { IfOk result Fits }
    ensures refused { IfErr result (λ status. IsDefined status → chosen request.now (Err status)) }
    ensures refusal { IfErr result IsRefusal }
{
    let product = generate(alloc, request)?;
    Ok(product.program)
}

// The listing of a good program for the request.
fn listing(alloc: Global, request: &Request) -> Result<Vec<u8>, Status>
    requires in_range { IsInRange request.now }
    ensures text { IfOk result (λ text. IsDocument Document.Code request.now text.items) }
    ensures refused { IfErr result (λ status. IsDefined status → chosen request.now (Err status)) }
    ensures refusal { IfErr result IsRefusal }
{
    let program = good_program(alloc, request)?;
    let text = print_listing(alloc, &program)?;
    Ok(text)
}

// The C text of a good program for the request.
fn c_text(alloc: Global, request: &Request) -> Result<Vec<u8>, Status>
    requires in_range { IsInRange request.now }
    ensures text { IfOk result (λ text. IsDocument Document.C request.now text.items) }
    ensures refused { IfErr result (λ status. IsDefined status → chosen request.now (Err status)) }
    ensures refusal { IfErr result IsRefusal }
{
    let program = good_program(alloc, request)?;
    let text = print_c(alloc, &program)?;
    Ok(text)
}

/// The text of a document.
pub(crate) fn text_of(
    alloc: Global,
    document: &Document,
    request: &Request,
) -> Result<Vec<u8>, Status>
    requires in_range { IsInRange request.now }
    requires turns { NamesNoStranger (RequestCommand.Writes document.now) request.now.procs }
    ensures text { IfOk result (λ text. IsDocument document.now request.now text.items) }
    ensures refused { IfErr result (λ status. IsDefined status → chosen request.now (Err status)) }
    ensures refusal { IfErr result IsRefusal }
{
    match document {
        Document::Plan => plan_lines(alloc, request),
        Document::Formula => formula(alloc, request),
        Document::Code => listing(alloc, request),
        Document::C => c_text(alloc, request),
        Document::Cert => certificate(alloc, request),
        Document::Sample { seed, schedule } => sample(alloc, request, *seed, schedule),
    }
}
