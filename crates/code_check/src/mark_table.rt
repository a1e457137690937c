// Which words and registers are known.

ghost use Rattle.std.specs.Prelude.{◌≡◌, ◌+◌, ◌≤◌, false, length, replicate, IfOk};
ghost use Rattle.icode.specs.Program.{plain_program};
ghost use Rattle.code_check.specs.Marks.{are_marked, with_marks, input_marks, marks_at};
ghost use Rattle.code_check.specs.MarkTables.{marks_of, IsMarkTable};

use icode::program::Program;
use memory::NoMemory;
use std::alloc::Global;

/// The words that are known, and the registers that a processor has put in its phase.
#[derive(Drop)]
pub(crate) struct MarkTable {
    pub(crate) words: Vec<bool>,
    pub(crate) registers: Vec<bool>,
}

/// Whether `count` marks from this one on are set.
pub(crate) fn are_marked(marks: &[bool], count: u64, from: u64) -> bool
    requires { from + count ≤ length marks.now }
    ensures { result ≡ are_marked count marks.now from }
{
    for place in 0..count {
        if !marks[(from + place) as usize] {
            return false;
        }
    }
    true
}

/// Sets `count` marks from this one on.
pub(crate) fn mark(marks: &mut [bool], count: u64, from: u64)
    requires { from + count ≤ length marks.old }
    ensures { marks.new ≡ with_marks count marks.old from }
{
    if count == 0 {
        return;
    }
    marks[from as usize] = true;
    mark(marks, count - 1, from + 1);
}

fn clear(marks: &mut [bool])
    ensures { marks.new ≡ replicate (length marks.old) false }
{
    for entry in marks.iter_mut() {
        *entry = false;
    }
}

fn unmarked(alloc: Global, count: u64) -> Result<Vec<bool>, NoMemory>
    ensures { IfOk result (λ made. made.items ≡ replicate count false) }
{
    let made = vec![in alloc; false; count as usize]?;
    Ok(made)
}

impl MarkTable {
    /// The words of the input are known.
    pub(crate) fn of_input(alloc: Global, program: &Program) -> Result<MarkTable, NoMemory>
        ensures marks { let p = plain_program program.now in
            IfOk result (λ table. marks_of table ≡ marks_at p (input_marks p)) }
        ensures table { IfOk result (IsMarkTable (plain_program program.now)) }
    {
        let mut words = unmarked(alloc, program.span())?;
        mark(&mut words, program.size, 0);
        let registers = unmarked(alloc, program.regs)?;
        Ok(MarkTable { words, registers })
    }

    /// A processor that begins a phase has put no register.
    pub(crate) fn begin_phase(&mut self)
        ensures words { self.new.words ≡ self.old.words }
        ensures registers { self.new.registers.items
            ≡ replicate (length self.old.registers.items) false }
    {
        clear(&mut self.registers);
    }
}
