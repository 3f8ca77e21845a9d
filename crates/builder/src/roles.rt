// What provers and verifiers do in ways of their own.
ghost use Rattle.std.specs.Prelude.{◌≡◌, ◌||◌, Bool, is_ok};
ghost use Rattle.refusal.specs.Outcome.{outcome};
ghost use Rattle.ring.specs.Algebra.{RingOn};
ghost use Rattle.worksheet.specs.declared.CircuitIdx.{CircuitIdx as Id};
ghost use Rattle.worksheet.specs.declared.Counts.{Counts as Sizes};
ghost use Rattle.worksheet.specs.Calls.{var_means};
ghost use Rattle.worksheet.specs.Runs.{prover, Call, Reply};
ghost use Rattle.builder.specs.declared.Builder.{Builder as Counted};
ghost use Rattle.builder.specs.declared.Tables.{Tables as Tabled};
ghost use Rattle.builder.specs.Called.{short, Made};
ghost use Rattle.builder.specs.Requests.{Of, OfStructure, shown};

use super::{Builder, Request};
use refusal::Refusal;
use ring::Ring;
use worksheet::{Counts, Var};

// A role whose worksheets stand in tables T, over the ring E. On the structure every role's calls are those of the
// definition; beside it a role says what else they do.
pub trait Role<E: Ring, T> {
    // The tables of the structure.
    ghost structure: { T → Tabled E };

    // Some other table is shorter than its capacity.
    ghost lacks: { Sizes → T → Bool };

    // The values of ids.
    ghost values: { (M : Type 0) (R : RingOn M) → (E → M) → Counted → T → Id → M };

    // A witness that is handed the first has the second as its value.
    ghost Hands: { (M : Type 0) → M → M → Type 0 };

    // What a call does to counts and tables, and answers.
    ghost Does: { (M : Type 0) (R : RingOn M) → (E → M) → Counted → Counted → T → T → Call R prover → Reply M → Type 0 };

    // What every call keeps.
    ghost Stays: { Counted → Counted → T → T → Type 0 };

    // What a call writes beside the structure, handed an element, where it is accepted and where not.
    ghost Writes: { (M : Type 0) (R : RingOn M) → (E → M) → Counted → Counted → T → T → E → Bool → Type 0 };

    fn is_short(capacity: Counts, tables: &T) -> bool
        ensures { result ≡ (lacks capacity tables.now || short capacity (structure tables.now).constants.now (structure tables.now).nodes.now (structure tables.now).assertions.now) };

    // Makes a builder call that is given as a value. A witness that it appends is handed `fresh`.
    fn call(
        builder: &mut Builder,
        tables: &mut T,
        request: &Request<E>,
        fresh: E,
    ) -> Result<Var<E>, Refusal>
        ensures called { Of E.algebra E.means (values E.Member E.algebra E.means builder.old tables.old) (Hands E.Member (E.means fresh)) request.now (λ c. Does E.Member E.algebra E.means builder.old builder.new tables.old tables.new c (outcome (λ v. shown E.algebra E.means request.now (var_means E.means v)) result)) }
        ensures shaped { OfStructure E.algebra E.means request.now (λ c. Made E.algebra E.means (lacks builder.old.capacity tables.old) builder.old builder.new (structure tables.old) (structure tables.new) c (outcome (λ v. shown E.algebra E.means request.now (var_means E.means v)) result)) }
        ensures stays { Stays builder.old builder.new tables.old tables.new }
        ensures written { Writes E.Member E.algebra E.means builder.old builder.new tables.old tables.new fresh (is_ok result) };
}
