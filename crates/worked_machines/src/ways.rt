// One request by each of the ways that lead to its transform.

ghost use Rattle.std.specs.Prelude.{◌≡◌, ◌<◌, All, IfOk, length};
ghost use Rattle.matrix_meaning.specs.Valid.{IsInRange};
ghost use Rattle.spl_ast.specs.Nesting.{IsPrintable};

use crate::same::{same, same_in};
use breakdown::expand;
use generate::{generate, plan};
use icode::action::Counts;
use matrix_meaning::Request;
use par_machine::{Machine, Turned};
use request_text::read_request;
use ring_mod::Modulus;
use spl_ast::Spl;
use spl_text::{print_spl, read_spl};
use std::alloc::Global;
use std::test::Fail;
use tree_model::Ctx;
use worked_rows::{check, joined};

/// The request of the line.
pub(crate) fn request_of(line: &[u8]) -> Result<Request, Fail>
    ensures in_range { IfOk result IsInRange }
{
    match read_request(line) {
        Ok(request) => Ok(request),
        Err(_) => Err("a request")?,
    }
}

// The formula of the chosen tree.
#[tactic(auto, using(crate::proofs::Plans::planned_stands))]
fn formula(alloc: Global, request: &Request) -> Result<Spl, Fail>
    requires { IsInRange request.now }
    ensures { IfOk result IsPrintable }
{
    let chosen = plan(alloc, request).map_err(|_| "a plan")?;
    let context = Ctx::new(request);
    let formula = expand(alloc, &context, &chosen.tree)?;
    Ok(formula)
}

// The formula on the vector.
fn applied(alloc: Global, modulus: u64, formula: &Spl, x: &[u64]) -> Result<Vec<u64>, Fail> {
    let m = Modulus::new(modulus).ok_or("a modulus")?;
    if formula.cols() != x.len() as u64 || !x.iter().all(|v| *v < m.get()) {
        Err("a vector of the formula")?
    }
    Ok(Spl::apply_plain(alloc, &m, formula, x)?)
}

fn by_formula(alloc: Global, request: &Request, x: &[u64]) -> Result<Vec<u64>, Fail>
    requires { IsInRange request.now }
{
    let formula = formula(alloc, request)?;
    applied(alloc, request.modulus, &formula, x)
}

// The formula is read from its text.
fn by_text(alloc: Global, request: &Request, x: &[u64]) -> Result<Vec<u64>, Fail>
    requires { IsInRange request.now }
{
    let text = print_spl(alloc, &formula(alloc, request)?)?;
    let formula = read_spl(alloc, &text).map_err(|_| "a formula")?;
    applied(alloc, request.modulus, &formula, x)
}

// What a run of the generated program leaves.
fn by_machine(alloc: Global, request: &Request, x: &[u64]) -> Result<Vec<u64>, Fail>
    requires in_range { IsInRange request.now }
    requires size { length x.now ≡ request.now.size }
    requires residues { All (λ v. v < request.now.modulus) x.now }
{
    let product = generate(alloc, request).map_err(|_| "a program")?;
    let mut machine = Machine::new(alloc, &product.program)?;
    machine.put(x);
    machine.finish();
    results(alloc, &machine)
}

// The words of the second array.
fn results(alloc: Global, machine: &Machine) -> Result<Vec<u64>, Fail> {
    let first = machine.span() / 4;
    let mut results = Vec::new(alloc);
    for place in first..2 * first {
        results.push(machine.word(place))?;
    }
    Ok(results)
}

// A request of size 4 modulo 17, and its transform of 1 2 3 4. Those of the inverse and of two
// dimensions are by the reference in checks/reference/.
const WAYS: &str = "\
dft 4 mod 17 root 4|10 7 15 6
dft 4 mod 17 root 4 procs 2 line 1|10 7 15 6
dft 4 mod 17 root 4 lanes 2|10 7 15 6
dft 4 mod 17 root 4 procs 2 unroll 4 budget 12|10 7 15 6
idft 4 mod 17 root 4|11 10 8 6
idft 4 mod 17 root 4 procs 2 unroll 2|11 10 8 6
dft 2x2 mod 17 root 16x16|10 15 13 0
dft 2x2 mod 17 root 16x16 procs 2 line 1|10 15 13 0
";

// The transform by its formula, where that by the text of its formula and that on the machine are the same.
fn by_all(alloc: Global, request: &Request, x: &[u64]) -> Result<String, Fail>
    requires in_range { IsInRange request.now }
    requires size { length x.now ≡ request.now.size }
    requires residues { All (λ v. v < request.now.modulus) x.now }
{
    let first = by_formula(alloc, request, x)?;
    if by_text(alloc, request, x)?.as_slice() != first.as_slice() {
        return Ok("another by the text".to_string(alloc)?);
    }
    if by_machine(alloc, request, x)?.as_slice() != first.as_slice() {
        return Ok("another on the machine".to_string(alloc)?);
    }
    joined(alloc, &first)
}

fn ways_answer(alloc: Global, line: &str) -> Result<String, Fail> {
    let request = request_of(line.as_bytes())?;
    if request.size != 4 || request.modulus != 17 {
        Err("the size 4 and the modulus 17")?
    }
    by_all(alloc, &request, &[1, 2, 3, 4])
}

#[test]
fn ways_agree(rt: HostRuntime) -> Result<(), Fail> {
    check(rt.alloc(), WAYS, ways_answer)
}

// The product of (DFT(2,16) tensor I_2) and L(4,2) is read and applied.
#[test]
fn formula_of_a_text(rt: HostRuntime) -> Result<(), Fail> {
    let alloc = rt.alloc();
    let text = b"TIMES(LEFT(DFT(2,16),2),L(4,2))";
    let formula = read_spl(alloc, text).map_err(|_| "a formula")?;
    let y = applied(alloc, 17, &formula, &[1, 2, 3, 4])?;
    same(&rt, y.as_slice(), [3, 7, 16, 16].as_slice());
    Ok(())
}

// A turn of the first processor.
fn turn(machine: &mut Machine) -> Turned
    ensures { machine.new.code ≡ machine.old.code }
{
    let _procs = machine.procs();
    machine.turn(0)
}

fn word(machine: &Machine, place: u64) -> Option<u64> {
    if place < machine.span() {
        Some(machine.word(place))
    } else {
        None
    }
}

// The generated program for the root 4 of 1 modulo 15, turn by turn.
#[test]
fn turns_of_a_program(rt: HostRuntime) -> Result<(), Fail> {
    let alloc = rt.alloc();
    let request = request_of(b"dft 2 mod 15 root 4")?;
    let product = generate(alloc, &request).map_err(|_| "a program")?;
    let mut machine = Machine::new(alloc, &product.program)?;
    if request.size != 2 || request.modulus != 15 {
        Err("the size 2 and the modulus 15")?
    }
    machine.put(&[1, 1]);
    for at in 0..7 {
        same_in(&rt, matches!(turn(&mut machine), Turned::Did(_)), true, at);
    }
    same(&rt, turn(&mut machine), Turned::Done);
    same(&rt, word(&machine, 2), Some(2));
    same(&rt, word(&machine, 3), Some(5));
    let counts = Counts {
        operations: 3,
        muls: 1,
        loads: 2,
        stores: 2,
    };
    let _procs = machine.procs();
    same(&rt, machine.counts(0), counts);
    Ok(())
}

// A request, and the tree, its cost, and the tables and registers of its program, or the refusal. By hand, from the rules'
// costs.
const PRODUCTS: &str = "\
dft 4 mod 17 root 4 budget 9|ct(leaf(2),leaf(2)) 9 0 13
dft 4 mod 17 root 4 budget 8|the least cost 9 is over the budget 8
dft 11 mod 23 root 2 budget 242|leaf(11) 242 1 3
dft 11 mod 23 root 2 budget 241|the least cost 242 is over the budget 241
dft 4 mod 17 root 3 budget 1|the root to the power of the size is 13, not 1
idft 4 mod 17 root 4|ct(leaf(2),leaf(2)) 13 0 17
idft 4 mod 17 root 4 budget 12|the least cost 13 is over the budget 12
dft 2x2 mod 17 root 16x16|dim(leaf(2),leaf(2)) 8 0 12
dft 2x2 mod 17 root 16x16 budget 7|the least cost 8 is over the budget 7
dft 2x2 mod 17 root 16x4 budget 1|the root to the power of the size is 16, not 1
dft 2x3 mod 7 root 6x2 procs 2|no tree fits the processors, line and lanes
";

fn described(alloc: Global, request: &Request) -> Result<String, Fail>
    requires in_range { IsInRange request.now }
{
    match generate(alloc, request) {
        Ok(product) => {
            let tree = &product.plan.tree;
            let cost = product.plan.cost;
            let tables = product.program.tables.len();
            let registers = product.program.regs;
            Ok(format!(in alloc; "{tree} {cost} {tables} {registers}")?)
        }
        Err(fault) => Ok(format!(in alloc; "{fault}")?),
    }
}

fn answer(alloc: Global, line: &str) -> Result<String, Fail> {
    described(alloc, &request_of(line.as_bytes())?)
}

#[test]
fn plans_and_refusals(rt: HostRuntime) -> Result<(), Fail> {
    check(rt.alloc(), PRODUCTS, answer)
}
