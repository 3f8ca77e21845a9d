// A prover's columns.
ghost use Rattle.std.specs.Prelude.{◌≡◌, ◌+◌, ◌*◌, ◌≤◌, map, length, Decides, MatchResult};
ghost use Rattle.refusal.specs.Number.{number_of};
ghost use Rattle.matrix.specs.Table.{matrix};
ghost use Rattle.circuit.specs.Bulletproofs.{Holds, hadamard};
ghost use Rattle.circuit.specs.Verdict.{Satisfied, system_of};

use super::{Circuit, Columns, Witness};
use matrix::SparseMatrix;
use refusal::Refusal;
use ring::Ring;

impl<'a, E: Ring> Witness<'a, E> {
    // The one call that takes a witness's lists apart.
    pub fn new(
        values: &'a [E],
        blinding: &'a [E],
        left: &'a [E],
        right: &'a [E],
        out: &'a [E],
    ) -> Result<Witness<'a, E>, Refusal>
        ensures { MatchResult result (λ w. (w.columns.values.now ≡ values.now) × (w.blinding.now ≡ blinding.now) × (w.columns.left.now ≡ left.now) × (w.columns.right.now ≡ right.now) × (w.out.now ≡ out.now)) (λ e. (number_of e ≡ 18) × ((length values.now ≡ length blinding.now) × (length left.now ≡ length right.now) × (length left.now ≡ length out.now) → ⊥)) }
    {
        if values.len() != blinding.len() || left.len() != right.len() || left.len() != out.len() {
            return Err(Refusal::Length);
        }
        Ok(Witness {
            columns: Columns {
                values,
                left,
                right,
            },
            blinding,
            out,
        })
    }

    pub fn values(&self) -> &'a [E]
        ensures { result.now ≡ self.now.columns.values.now }
    {
        self.columns.values
    }

    // Whether the columns satisfy the rows, and each out is its left times its right.
    pub fn is_satisfied(
        &self,
        weights: &SparseMatrix<'_, E>,
        committed: usize,
        gates: usize,
    ) -> bool
        ensures verdict { Decides result (Satisfied E.algebra (matrix E.means weights.now) committed gates (map E.means self.now.columns.values.now) (map E.means self.now.columns.left.now) (map E.means self.now.columns.right.now) × (hadamard E.algebra (map E.means self.now.columns.left.now) (map E.means self.now.columns.right.now) ≡ map E.means self.now.out.now)) }
        ensures paper { Decides result ((weights.now.width ≤ 1 + committed + 3 * gates) × Holds E.algebra (system_of E.algebra (matrix E.means weights.now) committed gates) (map E.means self.now.columns.values.now) (map E.means self.now.columns.left.now) (map E.means self.now.columns.right.now) (map E.means self.now.out.now)) }
    {
        Circuit::is_satisfied(weights, committed, gates, &self.columns) && self.products_hold()
    }
}
