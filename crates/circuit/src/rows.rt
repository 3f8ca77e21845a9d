// The rows' sums over columns that are not written out.
ghost use Rattle.std.specs.Prelude.{◌≡◌, ℕ, true, map, length, Decides};
ghost use Rattle.matrix.specs.Cells.{entry, row_sum};
ghost use Rattle.matrix.specs.Table.{matrix};
ghost use Rattle.circuit.specs.Bulletproofs.{hadamard};
ghost use Rattle.circuit.specs.Verdict.{filled};

use super::{Columns, Witness};
use matrix::SparseMatrix;
use ring::Ring;

impl<'a, E: Ring> Columns<'a, E> {
    // Column k of one, values, left, right, out, where out k is left k times right k; zero past them.
    fn entry(&self, k: u32) -> E
        ensures { E.means result ≡ entry E.algebra (filled E.algebra (map E.means self.now.values.now) (map E.means self.now.left.now) (map E.means self.now.right.now)) k }
    {
        let Columns {
            values,
            left,
            right,
        } = *self;
        if k == 0 {
            return E::one();
        }
        let k = k as usize - 1;
        if k < values.len() {
            return values[k];
        }
        let k = k - values.len();
        if k < left.len() {
            return left[k];
        }
        let k = k - left.len();
        if k < right.len() {
            return right[k];
        }
        let k = k - right.len();
        if k < left.len() && k < right.len() {
            return left[k].multiply(right[k]);
        }
        E::zero()
    }

    // Whether every row's sum is zero, in one pass over cells in order.
    pub(super) fn rows_vanish(&self, weights: &SparseMatrix<'_, E>) -> bool
        ensures { Decides result ((i : ℕ) → row_sum E.algebra (filled E.algebra (map E.means self.now.values.now) (map E.means self.now.left.now) (map E.means self.now.right.now)) i (matrix E.means weights.now).cells ≡ E.algebra.nought) }
    {
        let zero = E::zero();
        let mut sum = zero;
        let mut row = 0;
        for cell in weights.cells() {
            if cell.row != row {
                if !sum.equal(zero) {
                    return false;
                }
                sum = zero;
                row = cell.row;
            }
            let x = self.entry(cell.column);
            sum = sum.add(cell.weight.multiply(x));
        }
        sum.equal(zero)
    }
}

impl<'a, E: Ring> Witness<'a, E> {
    // Whether each out is its left times its right.
    pub(super) fn products_hold(&self) -> bool
        ensures { Decides result (hadamard E.algebra (map E.means self.now.columns.left.now) (map E.means self.now.columns.right.now) ≡ map E.means self.now.out.now) }
    {
        self.columns
            .left
            .iter()
            .zip(self.columns.right)
            .zip(self.out)
            .all(|((&left, &right), &out)| out.equal(left.multiply(right)))
    }
}
