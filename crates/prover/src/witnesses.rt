// The calls that append witnesses, whose values a prover hands over or works out, so they are no calls of every role.
ghost use Rattle.std.specs.Prelude.{◌≡◌, Some};
ghost use Rattle.refusal.specs.Outcome.{outcome};
ghost use Rattle.ring.specs.Algebra.{FieldOf};
ghost use Rattle.worksheet.specs.Calls.{var_means};
ghost use Rattle.worksheet.specs.Runs.{witness as witness_call, boolean_witness as boolean_witness_call, divide as divide_call, invert as invert_call};
ghost use Rattle.builder.specs.declared.Builder.{Builder};
ghost use Rattle.prover.specs.Called.{Made};

use super::{Ledger, Prover};
use builder::{BoolVar, Open, Request, bit};
use refusal::Refusal;
use ring::{Field, Ring};
use worksheet::Var;

pub trait Witnesses {
    ghost builder: { Self → Builder };

    fn witness<E: Ring>(&mut self, ledger: &mut Ledger<'_, E>, value: E) -> Result<Var<E>, Refusal>
        ensures { Made E.algebra E.means (builder self.old) (builder self.new) ledger.old ledger.new (witness_call (E.means value)) (outcome (λ v. Some (var_means E.means v)) result) };

    // A witness that is one or zero.
    fn boolean_witness<E: Ring>(
        &mut self,
        ledger: &mut Ledger<'_, E>,
        value: bool,
    ) -> Result<BoolVar<E>, Refusal>
        ensures { Made E.algebra E.means (builder self.old) (builder self.new) ledger.old ledger.new (boolean_witness_call value) (outcome (λ v. Some (var_means E.means v.var)) result) };

    // The quotient of two variables, where a divided by zero is zero: a native of two natives, else a witness
    // that times b is asserted equal to a.
    fn divide<E: Field>(
        &mut self,
        ledger: &mut Ledger<'_, E>,
        a: Var<E>,
        b: Var<E>,
    ) -> Result<Var<E>, Refusal>
        ensures { (F : FieldOf E.algebra) × Made E.algebra E.means (builder self.old) (builder self.new) ledger.old ledger.new (divide_call F (var_means E.means a) (var_means E.means b)) (outcome (λ v. Some (var_means E.means v)) result) };

    // The inverse of a variable: a native of a native, else a witness that times the variable is asserted equal to one.
    fn invert<E: Field>(&mut self, ledger: &mut Ledger<'_, E>, a: Var<E>) -> Result<Var<E>, Refusal>
        ensures { (F : FieldOf E.algebra) × Made E.algebra E.means (builder self.old) (builder self.new) ledger.old ledger.new (invert_call F (var_means E.means a)) (outcome (λ v. Some (var_means E.means v)) result) };
}

impl Witnesses for Open<Prover> {
    ghost builder = { λ o. o.builder };

    fn witness<E: Ring>(
        &mut self,
        ledger: &mut Ledger<'_, E>,
        value: E,
    ) -> Result<Var<E>, Refusal> {
        self.call(&Prover(()), ledger, Request::Witness, value)
    }

    fn boolean_witness<E: Ring>(
        &mut self,
        ledger: &mut Ledger<'_, E>,
        value: bool,
    ) -> Result<BoolVar<E>, Refusal> {
        self.bit_witness(&Prover(()), ledger, bit(value))
    }

    fn divide<E: Field>(
        &mut self,
        ledger: &mut Ledger<'_, E>,
        a: Var<E>,
        b: Var<E>,
    ) -> Result<Var<E>, Refusal> {
        let values = ledger.view(self.counts());
        let quotient = values.worth(a).multiply(values.worth(b).inverse());
        match (a, b) {
            (Var::Native(_), Var::Native(_)) => self.answer(ledger, quotient),
            (Var::Native(x), Var::Circuit(j)) => {
                self.call(
                    &Prover(()),
                    ledger,
                    Request::DivideBy(Var::Native(x), j),
                    quotient,
                )
            }
            (Var::Circuit(i), Var::Native(y)) => {
                self.call(&Prover(()), ledger, Request::DivideId(i, y), quotient)
            }
            (Var::Circuit(i), Var::Circuit(j)) => {
                self.call(
                    &Prover(()),
                    ledger,
                    Request::DivideBy(Var::Circuit(i), j),
                    quotient,
                )
            }
        }
    }

    fn invert<E: Field>(
        &mut self,
        ledger: &mut Ledger<'_, E>,
        a: Var<E>,
    ) -> Result<Var<E>, Refusal> {
        let inverse = ledger.view(self.counts()).worth(a).inverse();
        match a {
            Var::Native(_) => self.answer(ledger, inverse),
            Var::Circuit(i) => self.call(&Prover(()), ledger, Request::Invert(i), inverse),
        }
    }
}
