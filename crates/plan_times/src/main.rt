//! Prints how long the planner takes: reads a request line from standard input, and writes the plan, the time of its search, and
//! the time in which its certificate is checked. With no request it writes nothing. bench/plans.sh runs it.
#![tactic(auto)]

use plan_cert::{Verdict, certify, check_cert};
use plan_search::best;
use request_text::read_request;
use std::io::BufRead;
use std::time::Instant;
use tree_model::{Ctx, divides};

const ANY_BUDGET: u64 = 1_000_000_000_000;

/// The request of the line, if it is one and each root to the power of its size is 1.
fn valid_request(line: &str) -> Option<Ctx> {
    let request = read_request(line.as_bytes()).ok()?;
    match request.bad_power() {
        None => Some(Ctx::new(&request)),
        Some(_) => None,
    }
}

fn main(rt: HostRuntime) -> anyhow::Result<()> {
    let alloc = rt.alloc();
    let mut line = String::new(alloc);
    rt.reader().read_line(&mut line)?;
    let Some(c) = valid_request(line.as_str().trim_end()) else {
        return Ok(());
    };
    if !divides(&c) {
        return Ok(());
    }
    let begun = Instant::now(&rt)?;
    let plan = best(alloc, &c, ANY_BUDGET)?;
    let searched = begun.elapsed(&rt)?;
    println!(rt; "cost {} tree {}", plan.cost, plan.tree)?;
    println!(rt; "best {} microseconds", searched.as_micros())?;
    let Ok(text) = certify(alloc, &c) else {
        anyhow::bail!("out of memory");
    };
    let begun = Instant::now(&rt)?;
    let verdict = check_cert(alloc, &c, &text);
    let checked = begun.elapsed(&rt)?;
    if let Ok(Verdict::Least(cost)) = verdict {
        println!(rt; "least {cost}")?;
    }
    println!(rt; "check {} microseconds", checked.as_micros())?;
    Ok(())
}
