// The law on lowered worksheets.
ghost use Rattle.std.specs.Prelude.{◌≡◌, true};
ghost use Rattle.lowering.specs.Law.{Faithful};

use ring::Ring;

// Rows say what the worksheet says, and nothing of the values, over the ring E.
#[tactic(auto, using(crate::proofs::Law::law))]
pub fn lowering_is_faithful<E: Ring>() -> bool
    ensures law { Faithful E.algebra }
    ensures says { result ≡ true }
{
    true
}
