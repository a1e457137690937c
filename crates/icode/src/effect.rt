// What the operations do to registers and memory.

ghost use Rattle.std.specs.Prelude.{◌≡◌, ℕ, ◌+◌, ◌-◌, ◌*◌, ◌<◌, ◌≤◌, ◌⊎◌, All, length, map, replicate, slice_index};
ghost use Rattle.icode.specs.Machine.{register_of, transposed, with_words, words_at};
ghost use Rattle.icode.specs.Registers.{combined, scaled, with_register};
ghost use Rattle.ring_mod.specs.Residue.{negation_mod};

use crate::action::MAX_LANES;
use crate::arithmetic::{Operation, combine, operate};
use crate::lanes::{read_lanes, write_lanes};
use crate::shape::Shape;

/// Transposes as many registers as there are lanes.
pub fn transpose(registers: &mut [u64], register: u64, source: u64, lanes: u64)
    requires lanes { lanes ≤ 16 }
    requires register { (register + lanes) * lanes ≤ length registers.old }
    requires source { (source + lanes) * lanes ≤ length registers.old }
    requires apart { ((register + lanes) * lanes ≤ source * lanes)
        ⊎ ((source + lanes) * lanes ≤ register * lanes) }
    ensures { registers.new
        ≡ with_words registers.old (register * lanes) (transposed lanes registers.old source) }
{
    for row in 0..lanes {
        for lane in 0..lanes {
            registers[((register + row) * lanes + lane) as usize] = registers[((source + lane)
                * lanes
                + row) as usize];
        }
    }
}

/// Copies the words of each lane.
#[inline]
pub fn copy_lanes(from: &[u64], at: u64, to: &mut [u64], place: u64, lanes: u64)
    requires lanes { lanes ≤ 16 }
    requires from { at + lanes ≤ length from.now }
    requires to { place + lanes ≤ length to.old }
    ensures { to.new ≡ with_words to.old place (words_at lanes from.now at) }
{
    if lanes == 1 {
        to[place as usize] = from[at as usize];
        return;
    }
    let values = read_lanes(from, at, lanes);
    write_lanes(to, place, &values, lanes);
}

/// 0 on all lanes of a register.
pub fn clear_register(shape: &Shape, registers: &mut [u64], register: u64)
    requires named { register < shape.now.regs }
    requires file { length registers.old ≡ shape.now.regs * shape.now.lanes }
    ensures { registers.new
        ≡ with_register shape.now registers.old register (replicate shape.now.lanes 0) }
{
    write_lanes(
        registers,
        register * shape.lanes,
        &[0; MAX_LANES],
        shape.lanes,
    );
}

/// The operation on two registers.
#[inline]
pub fn combine_registers(
    operation: Operation,
    shape: &Shape,
    registers: &mut [u64],
    register: u64,
    left: u64,
    right: u64,
)
    requires named { (register < shape.now.regs)
        × (left < shape.now.regs) × (right < shape.now.regs) }
    requires file { length registers.old ≡ shape.now.regs * shape.now.lanes }
    requires residues { (k : ℕ) → slice_index registers.old k < shape.now.modulus }
    ensures { registers.new ≡ with_register shape.now registers.old register
        (combined operation shape.now registers.old left right) }
{
    let lanes = shape.lanes;
    let (to, left, right) = (register * lanes, left * lanes, right * lanes);
    if lanes == 1 {
        registers[to as usize] = operate(
            operation,
            &shape.modulus,
            registers[left as usize],
            registers[right as usize],
        );
        return;
    }
    let x = read_lanes(registers, left, lanes);
    let y = read_lanes(registers, right, lanes);
    let values = combine(operation, &shape.modulus, lanes, &x, &y);
    write_lanes(registers, to, &values, lanes);
}

/// Multiplies a register by the factors of the lanes.
pub fn scale_register(
    shape: &Shape,
    registers: &mut [u64],
    register: u64,
    source: u64,
    factors: &[u64; MAX_LANES],
)
    requires named { (register < shape.now.regs) × (source < shape.now.regs) }
    requires file { length registers.old ≡ shape.now.regs * shape.now.lanes }
    requires residues { (k : ℕ) → slice_index registers.old k < shape.now.modulus }
    requires factors { (k : ℕ) → slice_index factors.now k < shape.now.modulus }
    ensures { registers.new ≡ scaled shape.now registers.old register source factors.now }
{
    let lanes = shape.lanes;
    let (to, from) = (register * lanes, source * lanes);
    let x = read_lanes(registers, from, lanes);
    let values = combine(Operation::Product, &shape.modulus, lanes, &x, factors);
    write_lanes(registers, to, &values, lanes);
}

/// The negative of a register.
pub fn negate_register(shape: &Shape, registers: &mut [u64], register: u64, source: u64)
    requires named { (register < shape.now.regs) × (source < shape.now.regs) }
    requires file { length registers.old ≡ shape.now.regs * shape.now.lanes }
    requires residues { (k : ℕ) → slice_index registers.old k < shape.now.modulus }
    ensures { registers.new ≡ with_register shape.now registers.old register
        (map (negation_mod shape.now.modulus) (register_of shape.now.lanes registers.old source)) }
{
    let lanes = shape.lanes;
    let (to, from) = (register * lanes, source * lanes);
    let x = read_lanes(registers, from, lanes);
    let values = combine(
        Operation::Difference,
        &shape.modulus,
        lanes,
        &[0; MAX_LANES],
        &x,
    );
    write_lanes(registers, to, &values, lanes);
}
