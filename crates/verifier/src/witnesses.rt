// The calls that append witnesses, which a verifier only counts: they take no value, and a quotient of an id is the
// same whatever the field's inverses are, so they are no calls of every role.
ghost use Rattle.std.specs.Prelude.{◌≡◌, Some, false};
ghost use Rattle.refusal.specs.Outcome.{outcome};
ghost use Rattle.worksheet.specs.Calls.{var_means};
ghost use Rattle.worksheet.specs.Runs.{witness as witness_call, boolean_witness as boolean_witness_call, divide as divide_call, invert as invert_call};
ghost use Rattle.builder.specs.declared.Builder.{Builder};
ghost use Rattle.builder.specs.Called.{Made};
ghost use Rattle.verifier.specs.Quotients.{Divided, Inverted};

use super::Verifier;
use builder::{BoolVar, Open, Request, Tables};
use refusal::Refusal;
use ring::{Field, Ring};
use worksheet::Var;

pub trait Witnesses {
    ghost builder: { Self → Builder };

    fn witness<E: Ring>(&mut self, tables: &mut Tables<'_, E>) -> Result<Var<E>, Refusal>
        ensures { Made E.algebra E.means false (builder self.old) (builder self.new) tables.old tables.new (witness_call tt) (outcome (λ v. Some (var_means E.means v)) result) };

    fn boolean_witness<E: Ring>(
        &mut self,
        tables: &mut Tables<'_, E>,
    ) -> Result<BoolVar<E>, Refusal>
        ensures { Made E.algebra E.means false (builder self.old) (builder self.new) tables.old tables.new (boolean_witness_call tt) (outcome (λ v. Some (var_means E.means v.var)) result) };

    // a over b: a native, or a witness that times b is asserted to be a.
    fn divide<E: Field>(
        &mut self,
        tables: &mut Tables<'_, E>,
        a: Var<E>,
        b: Var<E>,
    ) -> Result<Var<E>, Refusal>
        ensures { Divided E.algebra (var_means E.means a) (var_means E.means b) (λ F. Made E.algebra E.means false (builder self.old) (builder self.new) tables.old tables.new (divide_call F (var_means E.means a) (var_means E.means b)) (outcome (λ v. Some (var_means E.means v)) result)) };

    // A native inverse, or a witness that times a is asserted to be one.
    fn invert<E: Field>(&mut self, tables: &mut Tables<'_, E>, a: Var<E>) -> Result<Var<E>, Refusal>
        ensures { Inverted E.algebra (var_means E.means a) (λ F. Made E.algebra E.means false (builder self.old) (builder self.new) tables.old tables.new (invert_call F (var_means E.means a)) (outcome (λ v. Some (var_means E.means v)) result)) };
}

impl Witnesses for Open<Verifier> {
    ghost builder = { λ o. o.builder };

    fn witness<E: Ring>(&mut self, tables: &mut Tables<'_, E>) -> Result<Var<E>, Refusal> {
        self.call(&Verifier(()), tables, Request::Witness, E::zero())
    }

    fn boolean_witness<E: Ring>(
        &mut self,
        tables: &mut Tables<'_, E>,
    ) -> Result<BoolVar<E>, Refusal> {
        self.bit_witness(&Verifier(()), tables, E::zero())
    }

    fn divide<E: Field>(
        &mut self,
        tables: &mut Tables<'_, E>,
        a: Var<E>,
        b: Var<E>,
    ) -> Result<Var<E>, Refusal> {
        match (a, b) {
            (Var::Native(x), Var::Native(y)) => self.answer(tables, x.multiply(y.inverse())),
            (Var::Native(x), Var::Circuit(j)) => {
                self.call(
                    &Verifier(()),
                    tables,
                    Request::DivideBy(Var::Native(x), j),
                    E::zero(),
                )
            }
            (Var::Circuit(i), Var::Native(y)) => {
                self.call(&Verifier(()), tables, Request::DivideId(i, y), E::zero())
            }
            (Var::Circuit(i), Var::Circuit(j)) => {
                self.call(
                    &Verifier(()),
                    tables,
                    Request::DivideBy(Var::Circuit(i), j),
                    E::zero(),
                )
            }
        }
    }

    fn invert<E: Field>(
        &mut self,
        tables: &mut Tables<'_, E>,
        a: Var<E>,
    ) -> Result<Var<E>, Refusal> {
        match a {
            Var::Native(x) => self.answer(tables, x.inverse()),
            Var::Circuit(i) => self.call(&Verifier(()), tables, Request::Invert(i), E::zero()),
        }
    }
}
