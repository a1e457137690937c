// Which processors use a line in a phase.

ghost use Rattle.std.specs.Prelude.{◌≡◌, ◌+◌, ◌*◌, ◌<◌, ◌≤◌, length, drop};
ghost use Rattle.std.specs.List.{range_with_len};
ghost use Rattle.icode.specs.Machine.{lines_of};
ghost use Rattle.icode.specs.Program.{array_size, plain_program};
ghost use Rattle.code_check.specs.Uses.{earliest, second_with, touched_by, touched_all, line_count, sharing_of, sooner, first_sharing};

use icode::program::Program;

/// The first processor that writes a line, and the first two that touch it. Processors come in rising order.
#[derive(Clone, Copy, PartialEq, Eq, Debug)]
pub(crate) struct LineUse {
    pub(crate) writer: Option<u8>,
    pub(crate) first: Option<u8>,
    pub(crate) second: Option<u8>,
}

fn earliest(known: Option<u8>, proc: u8) -> Option<u8>
    ensures { result ≡ earliest known proc }
{
    match known {
        None => Some(proc),
        Some(before) => Some(before),
    }
}

fn second_with(first: Option<u8>, second: Option<u8>, proc: u8) -> Option<u8>
    ensures { result ≡ second_with first second proc }
{
    match first {
        None => second,
        Some(before) => {
            if before == proc {
                second
            } else {
                earliest(second, proc)
            }
        }
    }
}

impl LineUse {
    /// Of a line that nobody has touched.
    pub(crate) const NONE: LineUse = LineUse {
        writer: None,
        first: None,
        second: None,
    };

    /// After the processor has touched the line.
    fn touched(self, proc: u8, writes: bool) -> LineUse
        ensures { result ≡ touched_by proc writes self }
    {
        let writer = if writes {
            earliest(self.writer, proc)
        } else {
            self.writer
        };
        LineUse {
            writer,
            first: earliest(self.first, proc),
            second: second_with(self.first, self.second, proc),
        }
    }
}

/// Notes that the processor touches the words of all lanes from the address on.
pub(crate) fn touch(program: &Program, address: u64, proc: u8, writes: bool, lines: &mut [LineUse])
    requires lines { length lines.old ≡ line_count (plain_program program.now) }
    requires address { address + program.now.lanes ≤ 4 * array_size program.now }
    ensures { lines.new ≡ touched_all proc writes
        (lines_of program.now.line (range_with_len address program.now.lanes)) lines.old }
{
    for lane in 0..program.lanes {
        let line = ((address + lane) / program.line) as usize;
        let before = lines[line];
        lines[line] = before.touched(proc, writes);
    }
}

/// A line that processor a writes and processor b touches in the phase.
#[derive(Clone, Copy, PartialEq, Eq, Debug)]
pub(crate) struct Sharing {
    pub(crate) phase: u64,
    pub(crate) line: u64,
    pub(crate) a: u64,
    pub(crate) b: u64,
}

// The line's first writer and the first other that touches it.
fn sharing_of(phase: u64, line: u64, entry: &LineUse) -> Option<Sharing>
    ensures { result ≡ sharing_of phase line entry.now }
{
    let Some(writer) = entry.writer else {
        return None;
    };
    let Some(first) = entry.first else {
        return None;
    };
    let Some(second) = entry.second else {
        return None;
    };
    let other = if first == writer { second } else { first };
    Some(Sharing {
        phase,
        line,
        a: u64::from(writer),
        b: u64::from(other),
    })
}

/// The first line of the table that processors share in the phase.
pub(crate) fn first_sharing(phase: u64, lines: &[LineUse]) -> Option<Sharing>
    ensures { result ≡ first_sharing phase 0 lines.now }
{
    for line in 0..lines.len() {
        let found = sharing_of(phase, line as u64, &lines[line]);
        if found.is_some() {
            return found;
        }
    }
    None
}

/// The one that is known, or else the one that was found.
pub(crate) fn sooner(known: Option<Sharing>, found: Option<Sharing>) -> Option<Sharing>
    ensures { result ≡ sooner known found }
{
    match known {
        None => found,
        Some(sharing) => Some(sharing),
    }
}
