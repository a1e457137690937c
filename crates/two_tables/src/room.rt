// Whether a program has room for a table in two factors.

ghost use Rattle.std.specs.Prelude.{◌≡◌, ◌<◌, length, slice_index_or};
ghost use Rattle.std.specs.List.{list_all};
ghost use Rattle.icode.specs.Plain.{NoStmts, plain_phases};
ghost use Rattle.icode.specs.Program.{plain_program, Fits};
ghost use Rattle.two_tables.specs.Factored.{is_short, has_room};

use icode::program::Program;

// Whether the phase with twice as many actions is short.
fn is_short(program: &Program, phase: u64) -> bool
    requires phase { phase < length program.now.phases.items }
    requires fits { Fits program.now }
    ensures { result ≡ is_short (slice_index_or (plain_phases program.now.phases.items) phase NoStmts) }
{
    program.len(phase, 0) < 1 << 47
}

// Whether each phase is.
fn are_short(program: &Program) -> bool
    requires { Fits program.now }
    ensures { result ≡ list_all is_short (plain_phases program.now.phases.items) }
{
    for phase in 0..program.phases.len() as u64 {
        if !is_short(program, phase) {
            return false;
        }
    }
    true
}

/// Whether there are lanes, and room for a register, a table and twice as many actions.
pub(crate) fn has_room(program: &Program) -> bool
    requires { Fits program.now }
    ensures { result ≡ has_room (plain_program program.now) }
{
    1 < program.lanes
        && (program.regs + 1 < 1 << 20
            && ((program.tables.len() as u64) < 1 << 32
                && (program.procs <= 16
                    && (program.phases.len() as u64 <= 64 && are_short(program)))))
}
