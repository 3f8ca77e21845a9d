// Variables that are zero or one, and the builder calls on them, for every role.
ghost use Rattle.std.specs.Prelude.{◌≡◌, Some, None, is_ok};
ghost use Rattle.refusal.specs.Outcome.{outcome};
ghost use Rattle.worksheet.specs.declared.Var.TheVariants.{Native};
ghost use Rattle.worksheet.specs.Calls.{var_means};
ghost use Rattle.worksheet.specs.Runs.{bit, assert_equal as assert_call, boolean_assert as boolean_assert_call, boolean_not as boolean_not_call, boolean_and as boolean_and_call, boolean_or as boolean_or_call, select as select_call, Settled, native_square};
ghost use Rattle.builder.specs.declared.Request.TheVariants.{BooleanWitness};
ghost use Rattle.builder.specs.Called.{Made};
ghost use Rattle.builder.specs.Requests.{Of, OfStructure, Compared, shown};

use super::{BoolVar, Open, Request, Role};
use refusal::Refusal;
use ring::Ring;
use worksheet::Var;

// One or zero.
pub fn bit<E: Ring>(value: bool) -> E
    ensures { E.means result ≡ bit E.algebra value }
{
    if value { E::one() } else { E::zero() }
}

impl<E: Ring> BoolVar<E> {
    // Native one or zero.
    pub fn constant(value: bool) -> BoolVar<E>
        ensures { var_means E.means result.var ≡ Native (bit E.algebra value) }
    {
        BoolVar {
            var: Var::Native(bit(value)),
        }
    }

    pub fn var(self) -> Var<E>
        ensures { result ≡ self.var }
    {
        self.var
    }
}

impl<R> Open<R> {
    // A witness that is asserted to be zero or one, handed `fresh`; for the role's own crate, as `call`.
    pub fn bit_witness<E: Ring, T>(
        &mut self,
        role: &R,
        tables: &mut T,
        fresh: E,
    ) -> Result<BoolVar<E>, Refusal>
    where
        R: Role<E, T>,
        ensures called { Of E.algebra E.means (R.values E.Member E.algebra E.means self.old.builder tables.old) (R.Hands E.Member (E.means fresh)) BooleanWitness (λ c. R.Does E.Member E.algebra E.means self.old.builder self.new.builder tables.old tables.new c (outcome (λ v. Some (var_means E.means v.var)) result)) }
        ensures shaped { OfStructure E.algebra E.means BooleanWitness (λ c. Made E.algebra E.means (R.lacks self.old.builder.capacity tables.old) self.old.builder self.new.builder (R.structure tables.old) (R.structure tables.new) c (outcome (λ v. Some (var_means E.means v.var)) result)) }
        ensures stays { R.Stays self.old.builder self.new.builder tables.old tables.new }
        ensures written { R.Writes E.Member E.algebra E.means self.old.builder self.new.builder tables.old tables.new fresh (is_ok result) }
    {
        let var = self.call(role, tables, Request::BooleanWitness, fresh)?;
        Ok(BoolVar { var })
    }

    // Asserts that a is zero or one.
    pub fn boolean_assert<E: Ring, T>(
        &mut self,
        tables: &mut T,
        a: Var<E>,
    ) -> Result<BoolVar<E>, Refusal>
    where
        R: Role<E, T>,
        ensures { Compared (Settled (native_square E.algebra (var_means E.means a)) (var_means E.means a)) (λ d. R.Does E.Member E.algebra E.means self.old.builder self.new.builder tables.old tables.new (boolean_assert_call (var_means E.means a) d) (outcome (λ v. Some (var_means E.means v.var)) result)) }
    {
        let var = self.make(tables, Request::BooleanAssert(a))?;
        Ok(BoolVar { var })
    }

    pub fn not<E: Ring, T>(&mut self, tables: &mut T, a: BoolVar<E>) -> Result<BoolVar<E>, Refusal>
    where
        R: Role<E, T>,
        ensures { R.Does E.Member E.algebra E.means self.old.builder self.new.builder tables.old tables.new (boolean_not_call (var_means E.means a.var)) (outcome (λ v. Some (var_means E.means v.var)) result) }
    {
        let var = self.make(tables, Request::Not(a.var))?;
        Ok(BoolVar { var })
    }

    pub fn and<E: Ring, T>(
        &mut self,
        tables: &mut T,
        a: BoolVar<E>,
        b: BoolVar<E>,
    ) -> Result<BoolVar<E>, Refusal>
    where
        R: Role<E, T>,
        ensures { R.Does E.Member E.algebra E.means self.old.builder self.new.builder tables.old tables.new (boolean_and_call (var_means E.means a.var) (var_means E.means b.var)) (outcome (λ v. Some (var_means E.means v.var)) result) }
    {
        let var = self.make(tables, Request::And(a.var, b.var))?;
        Ok(BoolVar { var })
    }

    pub fn or<E: Ring, T>(
        &mut self,
        tables: &mut T,
        a: BoolVar<E>,
        b: BoolVar<E>,
    ) -> Result<BoolVar<E>, Refusal>
    where
        R: Role<E, T>,
        ensures { R.Does E.Member E.algebra E.means self.old.builder self.new.builder tables.old tables.new (boolean_or_call (var_means E.means a.var) (var_means E.means b.var)) (outcome (λ v. Some (var_means E.means v.var)) result) }
    {
        let var = self.make(tables, Request::Or(a.var, b.var))?;
        Ok(BoolVar { var })
    }

    pub fn boolean_assert_equal<E: Ring, T>(
        &mut self,
        tables: &mut T,
        a: BoolVar<E>,
        b: BoolVar<E>,
    ) -> Result<(), Refusal>
    where
        R: Role<E, T>,
        ensures { Compared (Settled (var_means E.means a.var) (var_means E.means b.var)) (λ d. R.Does E.Member E.algebra E.means self.old.builder self.new.builder tables.old tables.new (assert_call (var_means E.means a.var) (var_means E.means b.var) d) (outcome (λ _. None) result)) }
    {
        self.assert_equal(tables, a.var, b.var)
    }

    // t where b is one, f where it is zero.
    pub fn select<E: Ring, T>(
        &mut self,
        tables: &mut T,
        b: BoolVar<E>,
        t: Var<E>,
        f: Var<E>,
    ) -> Result<Var<E>, Refusal>
    where
        R: Role<E, T>,
        ensures { R.Does E.Member E.algebra E.means self.old.builder self.new.builder tables.old tables.new (select_call (var_means E.means b.var) (var_means E.means t) (var_means E.means f)) (outcome (λ v. Some (var_means E.means v)) result) }
    {
        self.make(tables, Request::Select(b.var, t, f))
    }
}
