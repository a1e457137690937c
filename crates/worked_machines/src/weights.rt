// Requests with a weight: each processor executes its share of the least cost.

use crate::ways::request_of;
use generate::generate;
use par_machine::Machine;
use std::alloc::{AllocError, Global};
use std::fmt::Write;
use std::test::Fail;
use worked_rows::check;

// A request; its least cost, and the operations of each processor, where a multiplication counts as the request's
// weight. The numbers are those of an independent generator.
const SHARES: &str = "\
dft 4 mod 17 root 4|9 9
dft 4 mod 17 root 4 weight 5|13 13
dft 6 mod 7 root 3 weight 5|58 58
dft 4 mod 10 root 9 weight 5|9 9
wht 8 mod 5 weight 5|24 24
dft 11 mod 23 root 2 weight 5|726 726
dft 4 mod 17 root 4 procs 2 line 1 weight 5|28 14 14
dft 16 mod 17 root 3 procs 2 line 2 lanes 2 unroll 2 weight 5|304 152 152
idft 4 mod 17 root 4 weight 5|33 33
idft 16 mod 17 root 3 procs 2 line 2 lanes 2 weight 5|264 132 132
dft 2x3 mod 7 root 6x2 weight 5|58 58
dft 4x2x2 mod 17 root 4x16x1 procs 2 weight 5|84 42 42
dft 4x4 mod 17 root 4x13 procs 2 line 2 lanes 2 unroll 2 weight 5|224 112 112
";

// The operations of each processor, where a multiplication counts for `extra` more.
fn write_shares(text: &mut String, machine: &Machine, extra: u64) -> Result<(), AllocError> {
    for proc in 0..machine.procs() {
        let counts = machine.counts(proc);
        let more = extra.saturating_mul(counts.muls);
        let share = counts.operations.saturating_add(more);
        write!(text, " {share}")?;
    }
    Ok(())
}

fn shares(alloc: Global, line: &str) -> Result<String, Fail> {
    let request = request_of(line.as_bytes())?;
    let product = generate(alloc, &request).map_err(|_| "a program")?;
    let mut machine = Machine::new(alloc, &product.program)?;
    machine.finish();
    let mut text = format!(in alloc; "{}", product.plan.cost)?;
    write_shares(&mut text, &machine, request.weight - 1)?;
    Ok(text)
}

#[test]
fn shares_of_the_least_cost(rt: HostRuntime) -> Result<(), Fail> {
    check(rt.alloc(), SHARES, shares)
}
