// Registers that a machine without buffers works with for a while.

ghost use Rattle.std.specs.Prelude.{◌≡◌};
ghost use Rattle.par_machine.specs.Held.{AreFiles};
ghost use Rattle.buffer_machine.specs.Lent.{with_files};

use crate::registers::Registers;
use par_machine::Machine;

/// The machine has these registers.
pub(crate) fn lend_registers(files: &[Registers], machine: &mut Machine)
    requires here { AreFiles machine.old.code files.now }
    requires there { AreFiles machine.old.code machine.old.state.registers }
    ensures state { machine.new.state ≡ with_files files.now machine.old.state }
    ensures code { machine.new.code ≡ machine.old.code }
{
    for proc in 0..files.len() {
        machine.put_registers(proc as u64, files[proc].words());
    }
}

/// They are those of the machine.
pub(crate) fn take_registers(files: &mut [Registers], machine: &Machine)
    requires here { AreFiles machine.now.code files.old }
    requires there { AreFiles machine.now.code machine.now.state.registers }
    ensures { files.new ≡ machine.now.state.registers }
{
    for proc in 0..files.len() {
        files[proc].put(machine.registers(proc as u64));
    }
}
