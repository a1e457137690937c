// Code of whole matrices and of diagonals.
ghost use Rattle.std.specs.Prelude.{◌≡◌, ℕ, ◌+◌, ◌*◌, ◌^◌, ◌<◌, ◌≤◌, ◌∷◌, [], length, vec_len, OnOk, IfOk};
ghost use Rattle.tree_model.specs.Breakdown.{leaf};
ghost use Rattle.kernel_gen.specs.Writing.{make_of, next_of, row_of, twiddles_of, Appends, IsReduced};

use crate::transform::Transform;
use crate::writer::Writer;
use matrix_meaning::entry;
use memory::NoMemory;
use ring_mod::Modulus;
use std::alloc::Global;

impl Writer {
    /// Row k of a transform, times the inputs.
    fn put_row(&mut self, transform: &Transform, k: u64, ins: &[u64]) -> Result<u64, NoMemory>
        requires inputs { self.old.inputs < 2 ^ 32 }
        requires root { IsReduced transform.now }
        requires row { k < length ins.now }
        ensures code { let made = row_of transform.now k ins.now (next_of self.old) in
            OnOk result (Appends self.old self.new made.code made.next) }
        ensures sum { let made = row_of transform.now k ins.now (next_of self.old) in
            IfOk result (λ r. made.outs ≡ r ∷ []) }
    {
        let Transform {
            modulus,
            kind,
            root,
        } = *transform;
        let n = ins.len() as u64;
        let mut acc = ins[0];
        for l in 1..n {
            let factor = entry(kind, &[n], &[root], modulus.get(), k, l);
            acc = self.put_term(modulus, factor, acc, ins[l as usize])?;
        }
        Ok(acc)
    }

    /// A transform of the inputs, by its definition.
    pub(crate) fn put_matrix(
        &mut self,
        alloc: Global,
        transform: &Transform,
        ins: &[u64],
    ) -> Result<Vec<u64>, NoMemory>
        requires inputs { self.old.inputs < 2 ^ 32 }
        requires root { IsReduced transform.now }
        ensures code { let make = make_of transform.now (leaf (length ins.now)) in
            let made = make ins.now (next_of self.old) in
            OnOk result (Appends self.old self.new made.code made.next) }
        ensures outs { let make = make_of transform.now (leaf (length ins.now)) in
            IfOk result (λ y. y.items ≡ (make ins.now (next_of self.old)).outs) }
        ensures size { IfOk result (λ y. vec_len y ≡ length ins.now) }
    {
        let mut outs = Vec::with_capacity(alloc, ins.len())?;
        for k in 0..ins.len() as u64 {
            outs.push(self.put_row(transform, k, ins)?)?;
        }
        Ok(outs)
    }

    /// Each input times the twiddle factor of row i.
    pub(crate) fn put_twiddles(
        &mut self,
        alloc: Global,
        m: &Modulus,
        root: u64,
        i: u64,
        ins: &[u64],
    ) -> Result<Vec<u64>, NoMemory>
        requires inputs { self.old.inputs < 2 ^ 32 }
        requires root { root < m.now }
        requires room { i * length ins.now < 2 ^ 63 }
        ensures code { let made = twiddles_of m.now root i (length ins.now) ins.now
            (next_of self.old) in
            OnOk result (Appends self.old self.new made.code made.next) }
        ensures outs { let made = twiddles_of m.now root i (length ins.now) ins.now
            (next_of self.old) in
            IfOk result (λ y. y.items ≡ made.outs) }
        ensures size { IfOk result (λ y. vec_len y ≡ length ins.now) }
    {
        let mut outs = Vec::with_capacity(alloc, ins.len())?;
        for k in 0..ins.len() as u64 {
            let factor = m.pow(root, i * k);
            outs.push(self.put_factor(m, factor, ins[k as usize])?)?;
        }
        Ok(outs)
    }
}
