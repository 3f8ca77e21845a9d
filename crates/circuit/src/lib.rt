// When columns satisfy the rows of a matrix: the verdict on a circuit, and a prover's witness.
#![tactic(auto)]

ghost use Rattle.std.specs.Prelude.{◌≡◌, length};

mod prover;
mod rows;
mod verdict;

// A matrix read as a circuit: columns one, c committed, n left, n right, n out.
pub struct Circuit;

// The columns that a circuit's rows run over, but for one and out: out k is left k times right k.
#[derive(Clone, Copy)]
pub struct Columns<'a, E> {
    pub values: &'a [E],
    pub left: &'a [E],
    pub right: &'a [E],
}

// A prover's columns, with the blinding of the committed values.
#[derive(Drop)]
pub struct Witness<'a, E> {
    columns: Columns<'a, E>,
    blinding: &'a [E],
    out: &'a [E],
    ghost blinded: { length columns.values.now ≡ length blinding.now },
    ghost paired: { length columns.left.now ≡ length columns.right.now },
    ghost gated: { length columns.left.now ≡ length out.now },
}
