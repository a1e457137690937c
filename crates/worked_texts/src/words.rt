// Command lines.

use icode::event::Event;
use schedules::{Mix, Schedule};
use spiral_words::{Command, Document, FormulaCommand, Order, Refusal, RequestCommand, command_of};
use std::alloc::Global;
use std::test::Fail;
use worked_rows::check;

// The words, and the command: its seed, and its schedule by the turns or events that it has on two processors
// and the last of them.
const ROWS: &str = "\
spiral plan|plan
spiral formula|formula
spiral code|code
spiral c|c
spiral cert|cert
spiral check --|check
spiral run|run 0
spiral run --schedule seq|run 0
spiral run --schedule=rr:3|run 6 1
spiral trace --schedule turns:0,1,1,0,7|trace 5 7
spiral trace --schedule seed:0:1000|trace 1000 0
spiral sample|sample 0 0
spiral sample --schedule turns:1 --seed 18446744073709551615|sample 18446744073709551615 1 1
spiral|usage
spiral jump|usage
spiral help|usage
spiral --help|usage
spiral run -h|usage
spiral plan -V|usage
spiral plan --schedule seq|usage
spiral run --seed 1|usage
spiral --schedule seq run|usage
spiral run --schedule seq --schedule seq|usage
spiral run --sched seq|usage
spiral run --schedule|usage
spiral run --schedule turns:|usage
spiral run --schedule seq1|usage
spiral run --schedule rr:01|usage
spiral run --schedule seed:1|usage
spiral run --schedule turns:1,,2|usage
spiral run --schedule turns:4294967296|usage
spiral trace --schedule rr:1000001|usage
spiral sample --seed 01|usage
spiral sample --seed +1|usage
spiral sample --seed 18446744073709551616|usage
spiral check -- more|usage
spiral exec|exec 0
spiral exec --schedule turns:1,1,1,0|exec 4 0
spiral compile --mod 2|compile
spiral compile --mod=4611686018427387903|compile
spiral apply --mod 17|apply 0
spiral apply --schedule rr:3 --mod 7|apply 6 1
spiral run --buffers|run buffered 0
spiral trace --buffers --schedule mix:d0,t0|trace mixed 2 t0
spiral run --schedule mix:t1,d0,t0,d1 --buffers|run mixed 4 d1
spiral run --buffers --schedule=turns:0,1|run buffered 2 1
spiral run --schedule mix:t0|usage
spiral run --buffers --schedule mix:|usage
spiral run --buffers --schedule mix:t|usage
spiral run --buffers --schedule mix:t01|usage
spiral run --buffers --schedule mix:t4294967296|usage
spiral run --buffers --buffers|usage
spiral run --buffers=true|usage
spiral run --buffers seq|usage
spiral run --buffer|usage
spiral sample --buffers|usage
spiral apply --mod 17 --buffers|usage
spiral exec --schedule mix:t0|usage
spiral compile|usage
spiral apply --schedule seq|usage
spiral compile --mod|usage
spiral compile --mod=|usage
spiral compile --mod 0|usage
spiral compile --mod 1|usage
spiral compile --mod 017|usage
spiral compile --mod +17|usage
spiral compile --mod -17|usage
spiral compile --mod 4611686018427387904|usage
spiral compile --mod 18446744073709551618|usage
spiral compile --mod 17 --mod 17|usage
spiral compile --mod 17 --schedule seq|usage
spiral exec --mod 17|usage
spiral convolve|convolve 0
spiral convolve --|convolve 0
spiral convolve --code|convolve code 0
spiral convolve --schedule turns:1,1,0|convolve 3 0
spiral convolve --code --schedule=rr:3|convolve code 6 1
spiral convolve --schedule seed:0:1000 --code|convolve code 1000 0
spiral convolve --code --code|usage
spiral convolve --code=true|usage
spiral convolve --code seq|usage
spiral convolve --cod|usage
spiral convolve --schedule seq1|usage
spiral convolve --code --schedule seq1|usage
spiral convolve --schedule turns: --code|usage
spiral convolve --code --schedule mix:t0|usage
spiral convolve --code --schedule|usage
spiral convolve --buffers|usage
spiral convolve --mod 17|usage
spiral convolve --seed 1|usage
spiral convolve more|usage
spiral --code convolve|usage
spiral run --code|usage
spiral exec --code|usage
spiral code --code|usage
spiral --mod 17 compile|usage
";

fn shown(alloc: Global, name: &str, schedule: &Schedule) -> Result<String, Fail> {
    let len = schedule.len(2);
    if len == 0 {
        return Ok(format!(in alloc; "{name} 0")?);
    }
    let last = schedule.turn_at(len - 1, 2);
    Ok(format!(in alloc; "{name} {len} {last}")?)
}

// The event by its letter and processor.
fn event_parts(event: Event) -> (&'static str, u64) {
    match event {
        Event::Turn(q) => ("t", q),
        Event::Drain(q) => ("d", q),
    }
}

fn mixed(alloc: Global, name: &str, mix: &Mix) -> Result<String, Fail> {
    let len = mix.len();
    if len == 0 {
        return Err(Fail::from("an event"));
    }
    let (letter, proc) = event_parts(mix.event_at(len - 1));
    Ok(format!(in alloc; "{name} mixed {len} {letter}{proc}")?)
}

fn ordered(alloc: Global, name: &str, order: &Order) -> Result<String, Fail> {
    match order {
        Order::Turns(schedule) => shown(alloc, name, schedule),
        Order::Buffered(schedule) => {
            let name = format!(in alloc; "{name} buffered")?;
            shown(alloc, &name, schedule)
        }
        Order::Mixed(mix) => mixed(alloc, name, mix),
    }
}

fn sampled(alloc: Global, seed: u64, schedule: &Schedule) -> Result<String, Fail> {
    let name = format!(in alloc; "sample {seed}")?;
    shown(alloc, &name, schedule)
}

fn told_document(alloc: Global, document: &Document) -> Result<String, Fail> {
    let name = match document {
        Document::Plan => "plan",
        Document::Formula => "formula",
        Document::Code => "code",
        Document::C => "c",
        Document::Cert => "cert",
        Document::Sample { seed, schedule } => return sampled(alloc, *seed, schedule),
    };
    Ok(name.to_string(alloc)?)
}

fn told_request(alloc: Global, command: &RequestCommand) -> Result<String, Fail> {
    match command {
        RequestCommand::Writes(document) => told_document(alloc, document),
        RequestCommand::Runs(order) => ordered(alloc, "run", order),
        RequestCommand::Traces(order) => ordered(alloc, "trace", order),
        RequestCommand::Judges => Ok("check".to_string(alloc)?),
    }
}

fn told_formula(alloc: Global, command: &FormulaCommand) -> Result<String, Fail> {
    match command {
        FormulaCommand::Compile => Ok("compile".to_string(alloc)?),
        FormulaCommand::Apply(schedule) => shown(alloc, "apply", schedule),
    }
}

fn told(alloc: Global, command: &Command) -> Result<String, Fail> {
    match command {
        Command::ByRequest(command) => told_request(alloc, command),
        Command::ByFormula { command, .. } => told_formula(alloc, command),
        Command::ByListing(schedule) => shown(alloc, "exec", schedule),
        Command::ByList { schedule, code } => {
            let name = if *code { "convolve code" } else { "convolve" };
            shown(alloc, name, schedule)
        }
    }
}

fn words_of(alloc: Global, line: &str) -> Result<Vec<String>, Fail> {
    let mut words = Vec::new(alloc);
    for word in line.split(' ') {
        words.push(String::from_str(alloc, word)?)?;
    }
    Ok(words)
}

fn told_of(alloc: Global, words: &Vec<String>) -> Result<String, Fail> {
    match command_of(alloc, words) {
        Ok(command) => told(alloc, &command),
        Err(Refusal::Usage) => Ok("usage".to_string(alloc)?),
        Err(Refusal::NoMemory) => Ok("no memory".to_string(alloc)?),
    }
}

fn answer(alloc: Global, line: &str) -> Result<String, Fail> {
    told_of(alloc, &words_of(alloc, line)?)
}

#[test]
fn command_lines(rt: HostRuntime) -> Result<(), Fail> {
    check(rt.alloc(), ROWS, answer)
}
