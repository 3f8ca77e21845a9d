// The calls that make and change a matrix, and its product with a list.
ghost use Rattle.std.specs.Prelude.{◌≡◌, ◌<◌, map, length, take, drop, MatchResult, OnErr, OnOk, ◌≢◌};
ghost use Rattle.refusal.specs.Outcome.{outcome};
ghost use Rattle.refusal.specs.Number.{number_of};
ghost use Rattle.matrix.specs.Cells.{product};
ghost use Rattle.matrix.specs.Laws.{WeightThrough, SumsGrow};
ghost use Rattle.matrix.specs.Matrix.{empty, padded, added, assigned, limit};
ghost use Rattle.matrix.specs.Places.{Place};
ghost use Rattle.matrix.specs.Table.{matrix, room, Blank, Unchanged};

use super::table::write;
use super::{Cell, SparseMatrix};
use refusal::Refusal;
use ring::Ring;

// No row or column index reaches it, and no size is above it.
const LIMIT: u32 = 1_048_576;

// Each clause says one fact of a call, before and after it; a view as a definition (`impl Model`)
// would hide the table past the count and its memory.
impl<'a, E: Ring> SparseMatrix<'a, E> {
    // A matrix without cells, over a table that is made blank.
    pub fn new(cells: &'a mut [Cell<E>]) -> SparseMatrix<'a, E>
        ensures none { matrix E.means result ≡ empty }
        ensures blank { Blank E.algebra E.means result.cells.now }
        ensures room { room result ≡ length cells.old }
        ensures lent { result.cells.ghost_name ≡ cells.entry.ghost_name }
    {
        let blank = Cell {
            row: 0,
            column: 0,
            weight: E::zero(),
        };
        cells.fill_with(|| blank);
        SparseMatrix {
            cells,
            count: 0,
            height: 0,
            width: 0,
        }
    }

    // Raises width and height to these sizes, where they are lower.
    #[tactic(auto, using(crate::proofs::Order::covers_more))]
    pub fn pad(&mut self, width: u32, height: u32) -> Result<(), Refusal>
        ensures answer { outcome (λ _. matrix E.means self.new) result ≡ padded width height (matrix E.means self.old) }
        ensures refused { OnErr result (Unchanged self.old self.new) }
        ensures table { self.new.cells.now ≡ self.old.cells.now }
        ensures lent { self.new.cells.ghost_name ≡ self.old.cells.ghost_name }
    {
        if width > LIMIT || height > LIMIT {
            return Err(Refusal::Beyond);
        }
        self.width = self.width.max(width);
        self.height = self.height.max(height);
        Ok(())
    }

    // Adds to the weight at a row and a column; an absent cell is made from zero.
    pub fn add(&mut self, row: u32, column: u32, weight: E) -> Result<(), Refusal>
        ensures answer { outcome (λ _. matrix E.means self.new) result ≡ added E.algebra (room self.old) row column (E.means weight) (matrix E.means self.old) }
        ensures weights { OnOk result (WeightThrough E.algebra row column (λ u. E.algebra.plus u (E.means weight)) (matrix E.means self.old) (matrix E.means self.new)) }
        ensures sums { OnOk result (SumsGrow E.algebra row column (E.means weight) (matrix E.means self.old) (matrix E.means self.new)) }
        ensures refused { OnErr result (Unchanged self.old self.new) }
        ensures spare { drop self.new.count self.new.cells.now ≡ drop self.new.count self.old.cells.now }
        ensures lent { self.new.cells.ghost_name ≡ self.old.cells.ghost_name }
    {
        if row >= LIMIT || column >= LIMIT {
            return Err(Refusal::Beyond);
        }
        let place = self.find(row, column);
        let there = match place {
            Ok(at) => self.cells[at].weight,
            Err(_) => E::zero(),
        };
        let sum = there.add(weight);
        self.put(place, row, column, sum)
    }

    // Sets the weight at a row and a column; an absent cell is made.
    pub fn set(&mut self, row: u32, column: u32, weight: E) -> Result<(), Refusal>
        ensures answer { outcome (λ _. matrix E.means self.new) result ≡ assigned E.algebra (room self.old) row column (E.means weight) (matrix E.means self.old) }
        ensures weights { OnOk result (WeightThrough E.algebra row column (λ _. E.means weight) (matrix E.means self.old) (matrix E.means self.new)) }
        ensures refused { OnErr result (Unchanged self.old self.new) }
        ensures spare { drop self.new.count self.new.cells.now ≡ drop self.new.count self.old.cells.now }
        ensures lent { self.new.cells.ghost_name ≡ self.old.cells.ghost_name }
    {
        if row >= LIMIT || column >= LIMIT {
            return Err(Refusal::Beyond);
        }
        let place = self.find(row, column);
        self.put(place, row, column, weight)
    }

    // The sum of weight times the list's entry for each row; columns past the list's end are skipped.
    pub fn multiply(&self, list: &[E], res: &mut [E]) -> Result<(), Refusal>
        ensures { MatchResult result (λ _. (length res.old ≡ self.now.height) × (map E.means res.new ≡ product E.algebra (map E.means list.now) self.now.height (matrix E.means self.now).cells)) (λ e. (number_of e ≡ 18) × (length res.old ≢ self.now.height) × (res.new ≡ res.old)) }
    {
        if res.len() != self.height as usize {
            return Err(Refusal::Length);
        }
        self.accumulate(list, res);
        Ok(())
    }

    // Writes a weight at the place of a row and a column, and raises the sizes to cover it.
    fn put(
        &mut self,
        place: Result<usize, usize>,
        row: u32,
        column: u32,
        weight: E,
    ) -> Result<(), Refusal>
        requires place { Place (take self.old.count self.old.cells.now) row column place }
        requires low { row < limit }
        requires near { column < limit }
        ensures answer { outcome (λ _. matrix E.means self.new) result ≡ assigned E.algebra (room self.old) row column (E.means weight) (matrix E.means self.old) }
        ensures refused { OnErr result (Unchanged self.old self.new) }
        ensures spare { drop self.new.count self.new.cells.now ≡ drop self.new.count self.old.cells.now }
        ensures lent { self.new.cells.ghost_name ≡ self.old.cells.ghost_name }
    {
        let cell = Cell {
            row,
            column,
            weight,
        };
        self.count = write(&mut self.cells, self.count, place, cell)?;
        self.height = self.height.max(row + 1);
        self.width = self.width.max(column + 1);
        Ok(())
    }
}
