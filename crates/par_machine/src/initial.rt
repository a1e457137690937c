// The parts of a new machine.

ghost use Rattle.std.specs.Prelude.{◌≡◌, ◌-◌, ◌≤◌, ◌++◌, length, replicate, IfOk};
ghost use Rattle.icode.specs.Actions.{PlainFits};
ghost use Rattle.icode.specs.Plain.{plain_phases};
ghost use Rattle.icode.specs.Program.{plain_program, Fits};
ghost use Rattle.par_machine.specs.Processors.{fresh};
ghost use Rattle.par_machine.specs.Translated.{AreTranslated};

use crate::compile::compile_phase;
use crate::phase::Routine;
use crate::processor::Processor;
use icode::program::Program;
use memory::NoMemory;
use std::alloc::Global;

/// What every processor does in each phase.
pub(crate) fn compile_phases(alloc: Global, program: &Program) -> Result<Vec<Routine>, NoMemory>
    requires { Fits program.now }
    ensures { IfOk result (λ routines. AreTranslated (plain_program program.now) routines.items
        (plain_phases program.now.phases.items)) }
{
    let mut routines = Vec::new(alloc);
    for phase in 0..program.phases.len() {
        let code = compile_phase(alloc, program.modulus, &program.phases[phase])?;
        let len = program.len(phase as u64, 0);
        routines.push(Routine { code, len })?;
    }
    Ok(routines)
}

/// The processors, with `words` words of registers each.
pub(crate) fn make_processors(
    alloc: Global,
    procs: u64,
    words: u64,
) -> Result<Vec<Processor>, NoMemory>
    ensures { IfOk result (λ processors. processors.items ≡ replicate procs (fresh words)) }
{
    let mut processors = Vec::new(alloc);
    while (processors.len() as u64) < procs {
        let processor = Processor::new(alloc, words)?;
        processors.push(processor)?;
    }
    Ok(processors)
}

/// `count` zeros.
pub(crate) fn zeros(alloc: Global, count: u64) -> Result<Vec<u64>, NoMemory>
    ensures { IfOk result (λ zeros. zeros.items ≡ replicate count 0) }
{
    let zeros = vec![in alloc; 0; count as usize]?;
    Ok(zeros)
}

/// The input in the first words of memory, and 0 in the others.
pub(crate) fn put_input(memory: &mut [u64], input: &[u64])
    requires room { length input.now ≤ length memory.old }
    ensures { memory.new ≡ input.now ++ replicate (length memory.old - length input.now) 0 }
{
    let (front, back) = memory.split_at_mut(input.len());
    front.copy_from_slice(input);
    back.fill(0);
}
