// A write to the cells of a lent table, of which the first `count` are in order.
ghost use Rattle.std.specs.Prelude.{◌≡◌, ◌≤◌, true, ◌||◌, length, take, is_ok, MatchResult, nat_lt};
ghost use Rattle.matrix.specs.Cells.{in_order, meant, present};
ghost use Rattle.matrix.specs.Places.{Place, Written};

use super::Cell;
use refusal::Refusal;
use ring::Ring;

// Puts a cell at its place, and answers the new count. It takes a matrix's fields, which are no matrix's until
// the count and the sizes follow.
pub(super) fn write<E: Ring>(
    cells: &mut [Cell<E>],
    count: usize,
    place: Result<usize, usize>,
    cell: Cell<E>,
) -> Result<usize, Refusal>
    requires fits { count ≤ length cells.old }
    requires ordered { in_order (take count cells.old) ≡ true }
    requires place { Place (take count cells.old) cell.row cell.column place }
    ensures verdict { is_ok result ≡ (present cell.row cell.column (meant E.means (take count cells.old)) || nat_lt count (length cells.old)) }
    ensures done { MatchResult result (λ n. Written E.algebra E.means cells.old cells.new count n cell) (λ e. (e ≡ Refusal.CellsFull) × (cells.new ≡ cells.old)) }
{
    match place {
        Ok(at) => {
            cells[at] = cell;
            Ok(count)
        }
        Err(at) => {
            if count == cells.len() {
                return Err(Refusal::CellsFull);
            }
            cells[count] = cell;
            cells[at..=count].rotate_right(1);
            Ok(count + 1)
        }
    }
}
