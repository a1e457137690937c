// Code of the nodes of a tree.
ghost use Rattle.std.specs.Prelude.{◌≡◌, ℕ, ◌+◌, ◌*◌, ◌^◌, ◌<◌, ◌≤◌, length, vec_len, IfOk};
ghost use Rattle.tree_model.specs.Breakdown.{breakdown_of, size_of, HasWordSizes};
ghost use Rattle.kernel_gen.specs.Making.{rows_make};
ghost use Rattle.kernel_gen.specs.Kernel.{columns_make};
ghost use Rattle.kernel_gen.specs.Writing.{make_of, twiddled_of, IsReduced, Wrote};

use crate::places::{put_back, taken, turned};
use crate::transform::{Grid, Transform};
use crate::writer::Writer;
use memory::NoMemory;
use std::alloc::Global;
use tree_model::Tree;

impl Writer {
    /// The code of a tree for each row of inputs.
    #[cycle(tree)]
    fn put_rows(
        &mut self,
        alloc: Global,
        transform: &Transform,
        tree: &Tree,
        grid: Grid,
        ins: &[u64],
    ) -> Result<Vec<u64>, NoMemory>
        requires inputs { self.old.inputs < 2 ^ 32 }
        requires root { IsReduced transform.now }
        requires words { HasWordSizes (breakdown_of tree.now) }
        requires row { grid.columns ≡ size_of (breakdown_of tree.now) }
        requires size { length ins.now ≡ grid.rows * grid.columns }
        ensures code { IfOk result (λ y. Wrote self.old self.new
            (rows_make grid.rows grid.columns (λ _. make_of transform.now (breakdown_of tree.now)))
            ins.now y.items) }
        ensures size { IfOk result (λ y. vec_len y ≡ grid.rows * grid.columns) }
    {
        let mut outs = Vec::with_capacity(alloc, ins.len())?;
        for i in 0..grid.rows {
            let start = (i * grid.columns) as usize;
            let end = start + grid.columns as usize;
            let row = self.put_tree(alloc, transform, tree, &ins[start..end])?;
            outs.extend_from_slice(&row)?;
        }
        Ok(outs)
    }

    /// Puts the rows, with row i times its twiddle factors, the powers of a root.
    #[cycle(tree)]
    fn put_twiddled_rows(
        &mut self,
        alloc: Global,
        transform: &Transform,
        tree: &Tree,
        twiddle: u64,
        grid: Grid,
        ins: &[u64],
    ) -> Result<Vec<u64>, NoMemory>
        requires inputs { self.old.inputs < 2 ^ 32 }
        requires root { IsReduced transform.now }
        requires twiddle { twiddle < transform.now.modulus.now }
        requires words { HasWordSizes (breakdown_of tree.now) }
        requires row { grid.columns ≡ size_of (breakdown_of tree.now) }
        requires size { length ins.now ≡ grid.rows * grid.columns }
        ensures code { let row = twiddled_of transform.now grid.columns twiddle
            (breakdown_of tree.now) in
            IfOk result (λ y. Wrote self.old self.new
            (rows_make grid.rows grid.columns row) ins.now y.items) }
        ensures size { IfOk result (λ y. vec_len y ≡ grid.rows * grid.columns) }
    {
        let mut outs = Vec::with_capacity(alloc, ins.len())?;
        for i in 0..grid.rows {
            let start = (i * grid.columns) as usize;
            let end = start + grid.columns as usize;
            let row = self.put_tree(alloc, transform, tree, &ins[start..end])?;
            let row = self.put_twiddles(alloc, transform.modulus, twiddle, i, &row)?;
            outs.extend_from_slice(&row)?;
        }
        Ok(outs)
    }

    /// The code of a tree for each column of inputs.
    #[cycle(tree)]
    pub(crate) fn put_columns(
        &mut self,
        alloc: Global,
        transform: &Transform,
        tree: &Tree,
        grid: Grid,
        ins: &[u64],
    ) -> Result<Vec<u64>, NoMemory>
        requires inputs { self.old.inputs < 2 ^ 32 }
        requires root { IsReduced transform.now }
        requires words { HasWordSizes (breakdown_of tree.now) }
        requires column { grid.rows ≡ size_of (breakdown_of tree.now) }
        requires size { length ins.now ≡ grid.rows * grid.columns }
        ensures code { IfOk result (λ y. Wrote self.old self.new
            (columns_make grid.rows grid.columns (make_of transform.now (breakdown_of tree.now)))
            ins.now y.items) }
        ensures size { IfOk result (λ y. vec_len y ≡ grid.rows * grid.columns) }
    {
        let across = Grid {
            rows: grid.columns,
            columns: grid.rows,
        };
        let columns = turned(alloc, across, ins)?;
        let done = self.put_rows(alloc, transform, tree, across, &columns)?;
        let back = turned(alloc, grid, &done)?;
        Ok(back)
    }

    /// The code of a tree.
    #[cycle(tree)]
    pub(crate) fn put_tree(
        &mut self,
        alloc: Global,
        transform: &Transform,
        tree: &Tree,
        ins: &[u64],
    ) -> Result<Vec<u64>, NoMemory>
        requires inputs { self.old.inputs < 2 ^ 32 }
        requires root { IsReduced transform.now }
        requires words { HasWordSizes (breakdown_of tree.now) }
        requires size { length ins.now ≡ size_of (breakdown_of tree.now) }
        ensures code { IfOk result (λ y. Wrote self.old self.new
            (make_of transform.now (breakdown_of tree.now)) ins.now y.items) }
        ensures size { IfOk result (λ y. vec_len y ≡ size_of (breakdown_of tree.now)) }
    {
        match tree {
            Tree::Leaf(_) => self.put_matrix(alloc, transform, ins),
            Tree::Gt(a, b) => {
                let grid = Grid::of_parts(a, b);
                let left = transform.part(grid.columns);
                let right = transform.part(grid.rows);
                let rows = taken(alloc, grid, ins)?;
                let inner = self.put_rows(alloc, &right, b, grid, &rows)?;
                let outer = self.put_columns(alloc, &left, a, grid, &inner)?;
                let outs = put_back(alloc, grid, &outer)?;
                Ok(outs)
            }
            Tree::Ct(a, b) => {
                let grid = Grid::of_parts(a, b);
                let left = transform.part(grid.columns);
                let right = transform.part(grid.rows);
                let rows = turned(alloc, grid, ins)?;
                let inner = self.put_twiddled_rows(alloc, &right, b, transform.root, grid, &rows)?;
                let outs = self.put_columns(alloc, &left, a, grid, &inner)?;
                Ok(outs)
            }
            Tree::Split(a, b) => {
                let grid = Grid::of_parts(a, b);
                let left = transform.part(grid.columns);
                let right = transform.part(grid.rows);
                let inner = self.put_rows(alloc, &right, b, grid, ins)?;
                let outs = self.put_columns(alloc, &left, a, grid, &inner)?;
                Ok(outs)
            }
            Tree::Dim(a, b) => {
                let grid = Grid::of_parts(a, b);
                let left = transform.part(grid.columns);
                let right = transform.part(grid.rows);
                let inner = self.put_rows(alloc, &right, b, grid, ins)?;
                let outs = self.put_columns(alloc, &left, a, grid, &inner)?;
                Ok(outs)
            }
        }
    }
}
