// The verdict on columns.
ghost use Rattle.std.specs.Prelude.{◌≡◌, ℕ, ◌+◌, ◌*◌, ◌≤◌, map, Decides, MatchResult, ◌≢◌};
ghost use Rattle.refusal.specs.Number.{number_of};
ghost use Rattle.matrix.specs.Table.{matrix};
ghost use Rattle.circuit.specs.Bulletproofs.{Holds, hadamard};
ghost use Rattle.circuit.specs.Verdict.{Satisfied, system_of};

use super::{Circuit, Columns};
use matrix::SparseMatrix;
use refusal::Refusal;
use ring::Ring;

impl Circuit {
    // The number n of gates of a matrix whose width is 1 + c + 3n.
    pub fn new<E>(committed: usize, weights: &SparseMatrix<'_, E>) -> Result<usize, Refusal>
        ensures { MatchResult result (λ n. weights.now.width ≡ 1 + committed + 3 * n) (λ e. (number_of e ≡ 17) × ((n : ℕ) → weights.now.width ≢ 1 + committed + 3 * n)) }
    {
        match (weights.width() as usize).checked_sub(committed) {
            Some(rest) if rest % 3 == 1 => Ok(rest / 3),
            _ => Err(Refusal::Width),
        }
    }

    // Whether the columns satisfy the rows, with c committed values and n gates, out k being left k times right k.
    pub fn is_satisfied<E: Ring>(
        weights: &SparseMatrix<'_, E>,
        committed: usize,
        gates: usize,
        columns: &Columns<'_, E>,
    ) -> bool
        ensures verdict { Decides result (Satisfied E.algebra (matrix E.means weights.now) committed gates (map E.means columns.now.values.now) (map E.means columns.now.left.now) (map E.means columns.now.right.now)) }
        ensures paper { Decides result ((weights.now.width ≤ 1 + committed + 3 * gates) × Holds E.algebra (system_of E.algebra (matrix E.means weights.now) committed gates) (map E.means columns.now.values.now) (map E.means columns.now.left.now) (map E.means columns.now.right.now) (hadamard E.algebra (map E.means columns.now.left.now) (map E.means columns.now.right.now))) }
    {
        columns.values.len() == committed
            && columns.left.len() == gates
            && columns.right.len() == gates
            && fits(weights.width(), committed, gates)
            && columns.rows_vanish(weights)
    }
}

// Whether a width is at most 1 + c + 3n.
fn fits(width: u32, committed: usize, gates: usize) -> bool
    ensures { Decides result (width ≤ 1 + committed + 3 * gates) }
{
    width as usize
        <= gates
            .saturating_mul(3)
            .saturating_add(committed)
            .saturating_add(1)
}
