//! From a request or a formula to a good program: one that computes what is asked for under every order of its
//! processors' turns, shares no line, and executes exactly the operations of the cheapest tree; and from a request
//! for convolutions to its program.
#![tactic(auto)]

mod conv_plan;
mod conv_program;
mod emissions;
mod formula_code;
mod formula_passes;
mod good_programs;
mod planning;
mod program;
mod tree_passes;

ghost use Rattle.std.specs.Prelude.{◌≡◌, ◌≢◌, Ok, Err, Result, IfOk, IfErr};
ghost use Rattle.generate.specs.ConvPlanned.{IsConvPlanned};
ghost use Rattle.generate.specs.Good.{IsGood};
ghost use Rattle.generate.specs.Lean.{IsLean};
ghost use Rattle.generate.specs.Emission.Whole.{emission};
ghost use Rattle.generate.specs.Planned.{IsPlanned};
ghost use Rattle.icode.specs.Limits.{IsWithinLimits};
ghost use Rattle.icode.specs.Program.{plain_program};
ghost use Rattle.matrix_meaning.specs.Convolving.{IsConvRequest};
ghost use Rattle.matrix_meaning.specs.Valid.{IsInRange};
ghost use Rattle.matrix_meaning.specs.declared.Request.{Request as SpecRequest};
ghost use Rattle.generate_faults.specs.declared.conv_fault.ConvFault.{ConvFault as SpecConvFault};
ghost use Rattle.generate_faults.specs.declared.generate_fault.GenerateFault.{GenerateFault as SpecFault};
ghost use Rattle.generate_faults.specs.declared.generate_fault.GenerateFault.TheVariants as fault;
ghost use Rattle.tree_model.specs.Breakdown.{Breakdown, breakdown_of};
ghost use Rattle.tree_model.specs.Chosen.{whole_cost};

pub use conv_plan::plan_conv;
pub use conv_program::generate_conv;
pub use emissions::{conv_programs_are_emissions, programs_are_emissions, worked_emissions};
pub use formula_code::formula_program;
pub use formula_passes::{formulas_are_ready, formulas_compute};
use generate_faults::GenerateFault;
pub use good_programs::{conv_programs_convolve, formula_programs_are_code, programs_are_good};
use icode::program::Program;
use matrix_meaning::Request;
use plan_search::Plan;
pub use planning::{admit, plan};
use program::program_of_tree;
use std::alloc::Global;
use tree_model::Ctx;
pub use tree_passes::merge_tree;

/// The cheapest tree with its cost, and its program.
#[derive(Drop)]
pub struct Product {
    pub plan: Plan,
    pub program: Program,
}

/// A good program for the request, or the first cause to refuse it.
pub fn generate(alloc: Global, request: &Request) -> Result<Product, GenerateFault>
    requires { IsInRange request.now }
    ensures planned { IfOk result (λ product.
        IsPlanned request.now (Ok (breakdown_of product.plan.tree))) }
    ensures cost { IfOk result (λ product.
        product.plan.cost ≡ whole_cost request.now (breakdown_of product.plan.tree)) }
    ensures good { IfOk result (λ product.
        IsGood request.now (whole_cost request.now (breakdown_of product.plan.tree))
        (plain_program product.program)) }
    ensures lean { IfOk result (λ product.
        IsLean request.now (breakdown_of product.plan.tree)
        (plain_program product.program)) }
    ensures limits { IfOk result (λ product. IsWithinLimits (plain_program product.program)) }
    ensures letters { IfOk result (λ product.
        plain_program product.program
        ≡ emission request.now (breakdown_of product.plan.tree)) }
    ensures refused { IfErr result (λ cause.
        cause ≢ fault.NoMemory → IsPlanned request.now (Err cause)) }
{
    let plan = plan(alloc, request)?;
    let context = Ctx::new(request);
    let program = program_of_tree(alloc, &context, &plan.tree)?;
    Ok(Product { plan, program })
}

/// A request in range has a tree, or a first cause to be refused.
pub fn plans_exist()
    ensures { (r : SpecRequest) → IsInRange r
        → (answer : Result Breakdown SpecFault) × IsPlanned r answer }
{}

/// A request for convolutions has a tree, or a first cause to be refused.
pub fn conv_plans_exist()
    ensures { (r : SpecRequest) → IsConvRequest r
        → (answer : Result Breakdown SpecConvFault) × IsConvPlanned r answer }
{}
