// Worked figures.
ghost use Rattle.std.specs.Prelude.{◌≡◌, true};
ghost use Rattle.lowering.specs.Figures.{Figures};

// Small worksheets over the residues modulo 8,191, worked out.
#[tactic(auto, using(crate::proofs::Figures::figures))]
pub fn figures_are_right() -> bool
    ensures figures { Figures }
    ensures says { result ≡ true }
{
    true
}
