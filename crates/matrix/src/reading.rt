// The calls that read a matrix.
ghost use Rattle.std.specs.Prelude.{◌≡◌, take};
ghost use Rattle.matrix.specs.Cells.{weight_at};
ghost use Rattle.matrix.specs.Places.{Place};
ghost use Rattle.matrix.specs.Table.{matrix};

use super::{Cell, SparseMatrix};
use ring::Ring;

impl<'a, E> SparseMatrix<'a, E> {
    pub fn width(&self) -> u32
        ensures { result ≡ self.now.width }
    {
        self.width
    }

    pub fn height(&self) -> u32
        ensures { result ≡ self.now.height }
    {
        self.height
    }

    // The cells, in rising row, then column.
    pub fn cells(&self) -> &[Cell<E>]
        ensures { result.now ≡ take self.now.count self.now.cells.now }
    {
        &self.cells[..self.count]
    }

    // Where the cell of a row and a column is, or would go.
    pub(super) fn find(&self, row: u32, column: u32) -> Result<usize, usize>
        ensures { Place (take self.now.count self.now.cells.now) row column result }
    {
        let cells = self.cells();
        let before = |cell: &Cell<E>| (cell.row, cell.column) < (row, column);
        let at = cells.partition_point(before);
        match cells.get(at) {
            Some(cell) if (cell.row, cell.column) == (row, column) => Ok(at),
            _ => Err(at),
        }
    }
}

impl<'a, E: Ring> SparseMatrix<'a, E> {
    // The weight at a row and a column, zero where there is no cell.
    #[tactic(auto, using(crate::proofs::Held::weight_found))]
    pub fn get(&self, row: u32, column: u32) -> E
        ensures { E.means result ≡ weight_at E.algebra row column (matrix E.means self.now).cells }
    {
        match self.find(row, column) {
            Ok(at) => self.cells[at].weight,
            Err(_) => E::zero(),
        }
    }
}
