// Code as it is written, operation by operation.
ghost use Rattle.std.specs.Prelude.{◌≡◌, ℕ, ◌+◌, ◌^◌, ◌<◌, ◌≤◌, ◌∷◌, [], length, vec_len, OnOk, IfOk};
ghost use Rattle.kernel_gen.specs.Making.{term_make, factor_make};
ghost use Rattle.kernel_gen.specs.Writing.{next_of, Appends};

use crate::straight::KernelOp;
use memory::NoMemory;
use ring_mod::Modulus;
use std::alloc::Global;

/// The code so far, on the registers of the inputs.
#[derive(Drop)]
pub(crate) struct Writer {
    pub(crate) inputs: u64,
    pub(crate) code: Vec<KernelOp>,
}

impl Writer {
    /// The register that the next operation makes.
    pub(crate) fn next(&self) -> u64
        requires { self.now.inputs < 2 ^ 32 }
        ensures { result ≡ next_of self.now }
    {
        self.inputs + self.code.len() as u64
    }

    /// Adds an input times a constant to a register.
    pub(crate) fn put_term(
        &mut self,
        m: &Modulus,
        factor: u64,
        acc: u64,
        input: u64,
    ) -> Result<u64, NoMemory>
        requires inputs { self.old.inputs < 2 ^ 32 }
        ensures code { let t = term_make m.now factor acc input (next_of self.old) in
            OnOk result (Appends self.old self.new t.code t.next) }
        ensures acc { let t = term_make m.now factor acc input (next_of self.old) in
            IfOk result (λ a. a ≡ t.acc) }
    {
        let next = self.next();
        if factor == 1 {
            self.code.push(KernelOp::Add {
                register: next,
                left: acc,
                right: input,
            })?;
            Ok(next)
        } else if factor == m.get() - 1 {
            self.code.push(KernelOp::Sub {
                register: next,
                left: acc,
                right: input,
            })?;
            Ok(next)
        } else {
            self.code.push(KernelOp::Mul {
                register: next,
                source: input,
                factor,
            })?;
            self.code.push(KernelOp::Add {
                register: next + 1,
                left: acc,
                right: next,
            })?;
            Ok(next + 1)
        }
    }

    /// An input times a constant.
    pub(crate) fn put_factor(
        &mut self,
        m: &Modulus,
        factor: u64,
        input: u64,
    ) -> Result<u64, NoMemory>
        requires inputs { self.old.inputs < 2 ^ 32 }
        ensures code { let made = factor_make m.now factor (input ∷ []) (next_of self.old) in
            OnOk result (Appends self.old self.new made.code made.next) }
        ensures product { let made = factor_make m.now factor (input ∷ []) (next_of self.old) in
            IfOk result (λ r. made.outs ≡ r ∷ []) }
    {
        let next = self.next();
        if factor == 1 {
            return Ok(input);
        }
        if factor == m.get() - 1 {
            self.code.push(KernelOp::Neg {
                register: next,
                source: input,
            })?;
        } else {
            self.code.push(KernelOp::Mul {
                register: next,
                source: input,
                factor,
            })?;
        }
        Ok(next)
    }
}
