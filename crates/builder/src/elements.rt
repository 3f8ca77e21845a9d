// The builder calls on elements and ids, for every role.
ghost use Rattle.std.specs.Prelude.{◌≡◌, if◌then◌else◌, ◌||◌, Some, None, Ok, Err, is_ok};
ghost use Rattle.refusal.specs.declared.Refusal.TheVariants.{ShortTable};
ghost use Rattle.refusal.specs.Outcome.{outcome};
ghost use Rattle.worksheet.specs.declared.Var.TheVariants.{Native};
ghost use Rattle.worksheet.specs.Calls.{var_means};
ghost use Rattle.worksheet.specs.Runs.{constant as constant_call, add as add_call, multiply as multiply_call, negate as negate_call, subtract as subtract_call, assert_equal as assert_call, Settled};
ghost use Rattle.builder.specs.Called.{short, Made};
ghost use Rattle.builder.specs.Requests.{Of, OfStructure, Compared, shown};

use super::{Open, Request, Role};
use refusal::Refusal;
use ring::Ring;
use worksheet::Var;

impl<R> Open<R> {
    // Makes a builder call that is given as a value. A witness that it appends is handed `fresh`. It takes a value of
    // the role, which the role's own crate alone can make, so that no one else hands over another value than the
    // call's.
    pub fn call<E: Ring, T>(
        &mut self,
        _role: &R,
        tables: &mut T,
        request: Request<E>,
        fresh: E,
    ) -> Result<Var<E>, Refusal>
    where
        R: Role<E, T>,
        ensures called { Of E.algebra E.means (R.values E.Member E.algebra E.means self.old.builder tables.old) (R.Hands E.Member (E.means fresh)) request (λ c. R.Does E.Member E.algebra E.means self.old.builder self.new.builder tables.old tables.new c (outcome (λ v. shown E.algebra E.means request (var_means E.means v)) result)) }
        ensures shaped { OfStructure E.algebra E.means request (λ c. Made E.algebra E.means (R.lacks self.old.builder.capacity tables.old) self.old.builder self.new.builder (R.structure tables.old) (R.structure tables.new) c (outcome (λ v. shown E.algebra E.means request (var_means E.means v)) result)) }
        ensures stays { R.Stays self.old.builder self.new.builder tables.old tables.new }
        ensures written { R.Writes E.Member E.algebra E.means self.old.builder self.new.builder tables.old tables.new fresh (is_ok result) }
    {
        R::call(&mut self.builder, tables, &request, fresh)
    }

    // Makes a call that hands no witness a value.
    pub(super) fn make<E: Ring, T>(
        &mut self,
        tables: &mut T,
        request: Request<E>,
    ) -> Result<Var<E>, Refusal>
    where
        R: Role<E, T>,
        ensures { Of E.algebra E.means (R.values E.Member E.algebra E.means self.old.builder tables.old) (R.Hands E.Member E.algebra.nought) request (λ c. R.Does E.Member E.algebra E.means self.old.builder self.new.builder tables.old tables.new c (outcome (λ v. shown E.algebra E.means request (var_means E.means v)) result)) }
    {
        R::call(&mut self.builder, tables, &request, E::zero())
    }

    // Refuses where a table is short, and else answers a native that appends nothing.
    pub fn answer<E: Ring, T>(&self, tables: &T, x: E) -> Result<Var<E>, Refusal>
    where
        R: Role<E, T>,
        ensures { result ≡ (if R.lacks self.now.builder.capacity tables.now || short self.now.builder.capacity (R.structure tables.now).constants.now (R.structure tables.now).nodes.now (R.structure tables.now).assertions.now then Err ShortTable else Ok (Native x)) }
    {
        if R::is_short(self.builder.capacity(), tables) {
            Err(Refusal::ShortTable)
        } else {
            Ok(Var::Native(x))
        }
    }

    pub fn constant<E: Ring, T>(&mut self, tables: &mut T, x: E) -> Result<Var<E>, Refusal>
    where
        R: Role<E, T>,
        ensures { R.Does E.Member E.algebra E.means self.old.builder self.new.builder tables.old tables.new (constant_call (E.means x)) (outcome (λ v. Some (var_means E.means v)) result) }
    {
        self.make(tables, Request::Constant(x))
    }

    pub fn add<E: Ring, T>(
        &mut self,
        tables: &mut T,
        a: Var<E>,
        b: Var<E>,
    ) -> Result<Var<E>, Refusal>
    where
        R: Role<E, T>,
        ensures { R.Does E.Member E.algebra E.means self.old.builder self.new.builder tables.old tables.new (add_call (var_means E.means a) (var_means E.means b)) (outcome (λ v. Some (var_means E.means v)) result) }
    {
        self.make(tables, Request::Add(a, b))
    }

    pub fn multiply<E: Ring, T>(
        &mut self,
        tables: &mut T,
        a: Var<E>,
        b: Var<E>,
    ) -> Result<Var<E>, Refusal>
    where
        R: Role<E, T>,
        ensures { R.Does E.Member E.algebra E.means self.old.builder self.new.builder tables.old tables.new (multiply_call (var_means E.means a) (var_means E.means b)) (outcome (λ v. Some (var_means E.means v)) result) }
    {
        self.make(tables, Request::Multiply(a, b))
    }

    pub fn negate<E: Ring, T>(&mut self, tables: &mut T, a: Var<E>) -> Result<Var<E>, Refusal>
    where
        R: Role<E, T>,
        ensures { R.Does E.Member E.algebra E.means self.old.builder self.new.builder tables.old tables.new (negate_call (var_means E.means a)) (outcome (λ v. Some (var_means E.means v)) result) }
    {
        self.make(tables, Request::Negate(a))
    }

    pub fn subtract<E: Ring, T>(
        &mut self,
        tables: &mut T,
        a: Var<E>,
        b: Var<E>,
    ) -> Result<Var<E>, Refusal>
    where
        R: Role<E, T>,
        ensures { R.Does E.Member E.algebra E.means self.old.builder self.new.builder tables.old tables.new (subtract_call (var_means E.means a) (var_means E.means b)) (outcome (λ v. Some (var_means E.means v)) result) }
    {
        self.make(tables, Request::Subtract(a, b))
    }

    pub fn assert_equal<E: Ring, T>(
        &mut self,
        tables: &mut T,
        a: Var<E>,
        b: Var<E>,
    ) -> Result<(), Refusal>
    where
        R: Role<E, T>,
        ensures { Compared (Settled (var_means E.means a) (var_means E.means b)) (λ d. R.Does E.Member E.algebra E.means self.old.builder self.new.builder tables.old tables.new (assert_call (var_means E.means a) (var_means E.means b) d) (outcome (λ _. None) result)) }
    {
        self.make(tables, Request::AssertEqual(a, b))?;
        Ok(())
    }
}
