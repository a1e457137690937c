// The line of a turn or a drain.

ghost use Rattle.std.specs.Prelude.{◌≡◌, ◌+◌, ◌*◌, ◌<◌, ◌≤◌, ◌++◌, length, codes, decimal, flat_map};
ghost use Rattle.std.specs.List.{join_by};
ghost use Rattle.arrayvec.specs.ArrayString.{array_string_len};
ghost use Rattle.runs.specs.Trace.{action_text, answer_text, drain_line, drained_text, turn_line};

use arrayvec::ArrayString;
use icode::action::Action;
use icode::event::Drained;
use itoa::Buffer;
use par_machine::Turned;

/// No line has more bytes: its numbers have up to 20 digits, and there are up to 20 of them.
const ROOM: usize = 512;

pub type Line = ArrayString<ROOM>;

/// Appends a word and a number after it.
fn put(line: &mut Line, word: &str, number: u64)
    requires room { array_string_len line.old + length word.now + 20 ≤ 512 }
    ensures text { line.new.bytes ≡ line.old.bytes ++ word.now ++ decimal number }
    ensures len { array_string_len line.new ≤ array_string_len line.old + length word.now + 20 }
{
    let mut buffer = Buffer::new();
    line.push_str(word);
    line.push_str(buffer.format(number));
}

/// Appends the numbers, each after a comma.
fn put_more(line: &mut Line, factors: &[u64])
    requires room { array_string_len line.old + 21 * length factors.now ≤ 512 }
    ensures text { line.new.bytes
        ≡ line.old.bytes ++ flat_map (λ factor. codes "," ++ decimal factor) factors.now }
    ensures len { array_string_len line.new ≤ array_string_len line.old + 21 * length factors.now }
{
    for factor in factors {
        put(line, ",", *factor);
    }
}

/// Appends the numbers, with commas between them.
fn put_factors(line: &mut Line, factors: &[u64])
    requires room { array_string_len line.old + 21 * length factors.now ≤ 512 }
    ensures text { line.new.bytes ≡ line.old.bytes ++ join_by decimal (codes ",") factors.now }
    ensures len { array_string_len line.new ≤ array_string_len line.old + 21 * length factors.now }
{
    if let [first, rest @ ..] = factors {
        put(line, "", *first);
        put_more(line, rest);
    }
}

/// Appends two numbers, each after a word.
fn put_two(line: &mut Line, word: &str, number: u64, then: &str, other: u64)
    requires room { array_string_len line.old + length word.now + length then.now + 40 ≤ 512 }
    ensures text { line.new.bytes
        ≡ line.old.bytes ++ word.now ++ decimal number ++ then.now ++ decimal other }
    ensures len { array_string_len line.new
        ≤ array_string_len line.old + length word.now + length then.now + 40 }
{
    put(line, word, number);
    put(line, then, other);
}

/// Appends an operation on two registers.
fn put_binary(line: &mut Line, word: &str, register: u64, left: u64, right: u64)
    requires room { array_string_len line.old + length word.now + 64 ≤ 512 }
    ensures text { line.new.bytes ≡ line.old.bytes ++ word.now ++ decimal register ++ codes " r"
        ++ decimal left ++ codes " r" ++ decimal right }
    ensures len { array_string_len line.new ≤ array_string_len line.old + length word.now + 64 }
{
    put(line, word, register);
    put_two(line, " r", left, " r", right);
}

/// Appends a product by the factor of each lane.
fn put_product(line: &mut Line, register: u64, source: u64, factors: &[u64])
    requires factors { length factors.now ≤ 16 }
    requires room { array_string_len line.old ≤ 42 }
    ensures text { line.new.bytes ≡ line.old.bytes ++ codes "mul r" ++ decimal register
        ++ codes " r" ++ decimal source ++ codes " " ++ join_by decimal (codes ",") factors.now }
    ensures len { array_string_len line.new ≤ 500 }
{
    put_two(line, "mul r", register, " r", source);
    line.push_str(" ");
    put_factors(line, factors);
}

/// Appends the text of an action on `lanes` lanes.
fn put_action(line: &mut Line, lanes: u64, action: &Action)
    requires lanes { lanes ≤ 16 }
    requires room { array_string_len line.old ≤ 42 }
    ensures text { line.new.bytes ≡ line.old.bytes ++ action_text lanes action.now }
    ensures len { array_string_len line.new ≤ 500 }
{
    match action {
        Action::Load { register, address } => put_two(line, "ld r", *register, " ", *address),
        Action::Store { address, register } => put_two(line, "st ", *address, " r", *register),
        Action::Zero { register } => put(line, "zero r", *register),
        Action::Add {
            register,
            left,
            right,
        } => put_binary(line, "add r", *register, *left, *right),
        Action::Sub {
            register,
            left,
            right,
        } => put_binary(line, "sub r", *register, *left, *right),
        Action::Neg { register, source } => put_two(line, "neg r", *register, " r", *source),
        Action::Mul {
            register,
            source,
            factors,
        } => put_product(line, *register, *source, &factors[..lanes as usize]),
        Action::Tile { register, source } => put_two(line, "tile r", *register, " r", *source),
    }
}

/// Appends the text of what a turn did.
fn put_answer(line: &mut Line, lanes: u64, turned: &Turned)
    requires lanes { lanes ≤ 16 }
    requires room { array_string_len line.old ≤ 42 }
    ensures text { line.new.bytes ≡ line.old.bytes ++ answer_text lanes turned.now }
    ensures len { array_string_len line.new ≤ 500 }
{
    match turned {
        Turned::Did(action) => put_action(line, lanes, action),
        Turned::Waits => line.push_str("waits"),
        Turned::Done => line.push_str("done"),
    }
}

/// The line of a turn of a machine with `lanes` lanes.
pub(crate) fn line_of(number: u64, proc: u64, lanes: u64, turned: &Turned) -> Line
    requires lanes { lanes ≤ 16 }
    ensures { result.bytes ≡ turn_line lanes number proc turned.now }
{
    let mut line = Line::new();
    put(&mut line, "", number);
    put(&mut line, " ", proc);
    line.push_str(" ");
    put_answer(&mut line, lanes, turned);
    line.push_str("\n");
    line
}

/// Appends the text of what a drain did.
fn put_drained(line: &mut Line, drained: &Drained)
    requires room { array_string_len line.old ≤ 42 }
    ensures text { line.new.bytes ≡ line.old.bytes ++ drained_text drained.now }
    ensures len { array_string_len line.new ≤ 500 }
{
    match drained {
        Drained::Wrote(address) => put(line, "drain ", *address),
        Drained::Empty => line.push_str("empty"),
    }
}

/// The line of a drain.
pub(crate) fn drain_line(number: u64, proc: u64, drained: &Drained) -> Line
    ensures { result.bytes ≡ drain_line number proc drained.now }
{
    let mut line = Line::new();
    put(&mut line, "", number);
    put(&mut line, " ", proc);
    line.push_str(" ");
    put_drained(&mut line, drained);
    line.push_str("\n");
    line
}
