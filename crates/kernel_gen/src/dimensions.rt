// Code of a node of a request, of one size or of several dimensions.
ghost use Rattle.std.specs.Prelude.{◌≡◌, ◌*◌, ◌^◌, ◌<◌, ◌≤◌, length, vec_len, IfOk};
ghost use Rattle.kernel_gen.specs.Kernel.{trees_make};
ghost use Rattle.kernel_gen.specs.Making.{rows_make};
ghost use Rattle.kernel_gen.specs.Writing.{Wrote};
ghost use Rattle.tree_model.specs.Breakdown.{breakdown_of, size_of, HasWordSizes};
ghost use Rattle.tree_model.specs.Whole.{rooted_of, rooted_one, IsTreeOf};

use crate::transform::{Grid, Transform};
use crate::writer::Writer;
use matrix_meaning::Kind;
use memory::NoMemory;
use ring_mod::Modulus;
use std::alloc::Global;
use tree_model::{Ctx, Tree, node_root};

impl Writer {
    // The code of a node of one size, for its root.
    fn put_one(
        &mut self,
        alloc: Global,
        m: &Modulus,
        p: &Ctx,
        tree: &Tree,
        ins: &[u64],
    ) -> Result<Vec<u64>, NoMemory>
        requires inputs { self.old.inputs < 2 ^ 32 }
        requires words { HasWordSizes (breakdown_of tree.now) }
        requires some { 1 ≤ size_of (breakdown_of tree.now) }
        requires size { length ins.now ≡ size_of (breakdown_of tree.now) }
        ensures code { IfOk result (λ y. Wrote self.old self.new
            (trees_make m.now (rooted_one p.now (breakdown_of tree.now))) ins.now y.items) }
        ensures size { IfOk result (λ y. vec_len y ≡ size_of (breakdown_of tree.now)) }
    {
        let root = node_root(p, tree.size());
        let transform = Transform {
            modulus: m,
            kind: p.request().kind,
            root: m.reduce(root),
        };
        let outs = self.put_tree(alloc, &transform, tree, ins)?;
        Ok(outs)
    }

    /// The code of a node for each row of inputs.
    #[cycle(node)]
    fn put_node_in_rows(
        &mut self,
        alloc: Global,
        m: &Modulus,
        p: &Ctx,
        tree: &Tree,
        grid: Grid,
        ins: &[u64],
    ) -> Result<Vec<u64>, NoMemory>
        requires inputs { self.old.inputs < 2 ^ 32 }
        requires tree { IsTreeOf p.now (breakdown_of tree.now) }
        requires words { HasWordSizes (breakdown_of tree.now) }
        requires row { grid.columns ≡ size_of (breakdown_of tree.now) }
        requires size { length ins.now ≡ grid.rows * grid.columns }
        ensures code { IfOk result (λ y. Wrote self.old self.new
            (rows_make grid.rows grid.columns
            (λ _. trees_make m.now (rooted_of p.now (breakdown_of tree.now)))) ins.now y.items) }
        ensures size { IfOk result (λ y. vec_len y ≡ grid.rows * grid.columns) }
    {
        let mut outs = Vec::with_capacity(alloc, ins.len())?;
        for i in 0..grid.rows {
            let start = (i * grid.columns) as usize;
            let end = start + grid.columns as usize;
            let row = self.put_node(alloc, m, p, tree, &ins[start..end])?;
            outs.extend_from_slice(&row)?;
        }
        Ok(outs)
    }

    /// The code of a node: of several dimensions the others on each row, and then the first on each column.
    #[cycle(node)]
    pub(crate) fn put_node(
        &mut self,
        alloc: Global,
        m: &Modulus,
        p: &Ctx,
        tree: &Tree,
        ins: &[u64],
    ) -> Result<Vec<u64>, NoMemory>
        requires inputs { self.old.inputs < 2 ^ 32 }
        requires tree { IsTreeOf p.now (breakdown_of tree.now) }
        requires words { HasWordSizes (breakdown_of tree.now) }
        requires size { length ins.now ≡ size_of (breakdown_of tree.now) }
        ensures code { IfOk result (λ y. Wrote self.old self.new
            (trees_make m.now (rooted_of p.now (breakdown_of tree.now))) ins.now y.items) }
        ensures size { IfOk result (λ y. vec_len y ≡ size_of (breakdown_of tree.now)) }
    {
        match tree {
            Tree::Leaf(_) => Ok(self.put_one(alloc, m, p, tree, ins)?),
            Tree::Gt(_, _) => Ok(self.put_one(alloc, m, p, tree, ins)?),
            Tree::Ct(_, _) => Ok(self.put_one(alloc, m, p, tree, ins)?),
            Tree::Split(_, _) => Ok(self.put_one(alloc, m, p, tree, ins)?),
            Tree::Dim(a, b) => {
                let (first, others) = p.first_and_rest();
                let transform = Transform {
                    modulus: m,
                    kind: Kind::Dft,
                    root: m.reduce(first.request().root),
                };
                let grid = Grid::of_parts(a, b);
                let rows = self.put_node_in_rows(alloc, m, &others, b, grid, ins)?;
                let outs = self.put_columns(alloc, &transform, a, grid, &rows)?;
                Ok(outs)
            }
        }
    }
}
