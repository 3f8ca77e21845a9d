// A sparse matrix over a lent table of cells.
#![tactic(auto)]

ghost use Rattle.std.specs.Prelude.{◌≡◌, ◌≤◌, true, length, take};
ghost use Rattle.matrix.specs.Cells.{in_order, covers};

mod calls;
mod reading;
mod sums;
mod table;

// A weight at a row and a column.
#[derive(Clone, Copy)]
pub struct Cell<E> {
    pub row: u32,
    pub column: u32,
    pub weight: E,
}

// The first `count` cells of the table are the matrix's, in rising row, then column, each at most once.
// The caller lends the table, so its count stands beside it: nothing here allocates.
#[derive(Drop)]
pub struct SparseMatrix<'a, E> {
    cells: &'a mut [Cell<E>],
    count: usize,
    height: u32,
    width: u32,
    ghost fits: { count ≤ length cells.now },
    ghost ordered: { in_order (take count cells.now) ≡ true },
    ghost covered: { covers height width (take count cells.now) ≡ true },
}
