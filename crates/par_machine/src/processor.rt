// A processor of the machine.

ghost use Rattle.std.specs.Prelude.{◌≡◌, map, length, IfOk, All, slice_get};
ghost use Rattle.par_machine.specs.Hand.{action_of_step, Runs};
ghost use Rattle.par_machine.specs.Header.{header_of};
ghost use Rattle.par_machine.specs.Instruction.{IsClosed, IsWithin};
ghost use Rattle.par_machine.specs.Played.{CanPlay, playing, played, step_here};
ghost use Rattle.par_machine.specs.Performed.{HasRoom};
ghost use Rattle.par_machine.specs.Processors.{fresh, as_new, rewound, with_registers, IsAct, passed_over};

use crate::cursor::{Instruction, OPEN_LOOPS, rest};
use crate::header::Header;
use crate::initial::zeros;
use crate::perform::{counted, perform};
use icode::action::{Action, Counts};
use memory::NoMemory;
use std::alloc::Global;
use std::marker::Model;

const NO_COUNTS: Counts = Counts {
    operations: 0,
    muls: 0,
    loads: 0,
    stores: 0,
};

/// A processor: its place in the code of the phase, its registers, and what it has executed.
#[derive(Drop)]
pub(crate) struct Processor {
    at: u64,
    /// The values of the open loops, the outermost first. Loops that are not open have the value 0.
    values: Vec<u64>,
    registers: Vec<u64>,
    counts: Counts,
}

impl Model for Processor {
    ghost use Rattle.std.specs.Prelude.{◌≡◌, length};
    ghost use Rattle.par_machine.specs.Context.{Context};

    ghost Value = { Context };

    ghost view = { λ p. record {
      place = record { at = p.at; values = p.values.items };
      registers = p.registers.items;
      counts = p.counts;
    } };

    ghost invariant = { λ p. length p.values.items ≡ 64 };
}

impl Processor {
    /// At the beginning, with `words` words of registers.
    pub(crate) fn new(alloc: Global, words: u64) -> Result<Self, NoMemory>
        ensures { IfOk result (λ processor. processor ≡ fresh words) }
    {
        let values = zeros(alloc, OPEN_LOOPS)?;
        let registers = zeros(alloc, words)?;
        Ok(Processor {
            at: 0,
            values,
            registers,
            counts: NO_COUNTS,
        })
    }

    /// As a new one.
    pub(crate) fn reset(&mut self)
        ensures { self.new ≡ as_new self.old }
    {
        self.at = 0;
        self.values.fill(0);
        self.registers.fill(0);
        self.counts = NO_COUNTS;
    }

    /// Goes back to the beginning of the code.
    pub(crate) fn rewind(&mut self)
        ensures { self.new ≡ rewound self.old }
    {
        self.at = 0;
        self.values.fill(0);
    }

    /// Its registers, register after register.
    pub(crate) fn registers(&self) -> &[u64]
        ensures { result.now ≡ self.now.registers }
    {
        &self.registers
    }

    /// Its registers become these words.
    pub(crate) fn put_registers(&mut self, words: &[u64])
        requires { length words.now ≡ length self.old.registers }
        ensures { self.new ≡ with_registers words.now self.old }
    {
        self.registers.copy_from_slice(words);
    }

    /// What it has executed.
    pub(crate) fn counts(&self) -> Counts
        ensures { result ≡ self.now.counts }
    {
        self.counts
    }

    /// The action at its place.
    pub(crate) fn action(&self, header: &Header, code: &[Instruction], proc: u64) -> Action
        requires closed { All IsClosed code.now }
        requires within { All (IsWithin header.now.shape.modulus) code.now }
        requires runs { Runs (header_of header.now) (step_here header.now code.now proc self.now) }
        ensures { result ≡ action_of_step (step_here header.now code.now proc self.now) }
    {
        match &code[self.at as usize] {
            Instruction::Act { op, depth } => {
                let values = &self.values[..*depth as usize];
                op.action(&header.shape, &header.tables, values, proc)
            }
            Instruction::Again { .. } => unreachable!(),
        }
    }

    /// Does `count` actions, from its place on.
    pub(crate) fn play(
        &mut self,
        header: &Header,
        code: &[Instruction],
        proc: u64,
        count: u64,
        memory: &mut [u64],
    )
        requires { CanPlay (header_of header.now) code.now proc count
            (playing memory.old self.old) }
        ensures { playing memory.new self.new
            ≡ played (header_of header.now) code.now proc count (playing memory.old self.old) }
    {
        let mut at = self.at;
        let mut counts = self.counts;
        let values: &mut [u64] = &mut self.values;
        let registers: &mut [u64] = &mut self.registers;
        let mut left = count;
        while left > 0 {
            match &code[at as usize] {
                Instruction::Act { op, depth } => {
                    perform(
                        header,
                        op,
                        &values[..*depth as usize],
                        proc,
                        memory,
                        registers,
                    );
                    counts = counted(op, header.shape.lanes, counts);
                }
                Instruction::Again { .. } => unreachable!(),
            }
            at = rest(code, at + 1, values);
            left -= 1;
        }
        self.at = at;
        self.counts = counts;
    }

    /// Passes over the action at its place: it is counted, and changes nothing.
    pub(crate) fn skip(&mut self, lanes: u64, code: &[Instruction])
        requires closed { All IsClosed code.now }
        requires act { IsAct (slice_get code.now self.old.place.at) }
        requires room { HasRoom lanes self.old.counts }
        ensures { self.new ≡ passed_over lanes code.now self.old }
    {
        match &code[self.at as usize] {
            Instruction::Act { op, .. } => self.counts = counted(op, lanes, self.counts),
            Instruction::Again { .. } => unreachable!(),
        }
        self.at = rest(code, self.at + 1, &mut self.values);
    }
}

/// All of them as new ones.
pub(crate) fn reset_all(processors: &mut [Processor])
    ensures { processors.new ≡ map as_new processors.old }
{
    for processor in processors.iter_mut() {
        processor.reset();
    }
}

/// All of them at the beginning of their code.
pub(crate) fn rewind_all(processors: &mut [Processor])
    ensures { processors.new ≡ map rewound processors.old }
{
    for processor in processors.iter_mut() {
        processor.rewind();
    }
}
