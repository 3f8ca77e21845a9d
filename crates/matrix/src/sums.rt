// The sums of rows.
ghost use Rattle.std.specs.Prelude.{◌≡◌, map, length};
ghost use Rattle.matrix.specs.Cells.{product};
ghost use Rattle.matrix.specs.Table.{matrix};

use super::SparseMatrix;
use ring::Ring;

impl<'a, E: Ring> SparseMatrix<'a, E> {
    // Writes the sum of each row: weight times the list's entry at the column.
    #[tactic(auto, using(crate::proofs::RowSums::row_within))]
    pub(super) fn accumulate(&self, list: &[E], res: &mut [E])
        requires { length res.old ≡ self.now.height }
        ensures { map E.means res.new ≡ product E.algebra (map E.means list.now) self.now.height (matrix E.means self.now).cells }
    {
        let zero = E::zero();
        res.fill_with(|| zero);
        for cell in self.cells() {
            if let Some(&value) = list.get(cell.column as usize) {
                let sum = &mut res[cell.row as usize];
                *sum = sum.add(cell.weight.multiply(value));
            }
        }
    }
}
