// A builder call as a value: its cost, its operands, and how it is written.
ghost use Rattle.std.specs.Prelude.{◌≡◌};
ghost use Rattle.builder.specs.Admission.{all_by};
ghost use Rattle.builder.specs.Cost.{Few};
ghost use Rattle.builder.specs.Requests.{vars, request_cost, performed, Clash};
ghost use Rattle.builder.specs.Tables.{sheet_of, Room, AllThere, Wrote};

use super::cost::*;
use super::{Builder, Draft, Op, Request};
use ring::Ring;
use worksheet::Var;

pub fn cost_of<E: Copy>(request: Request<E>) -> Cost
    ensures cost { result ≡ request_cost request }
    ensures few { Few 7 result.counts }
{
    match request {
        Request::Constant(_) => constant_cost(),
        Request::Witness => witness_cost(),
        Request::Add(a, b) => operate_cost(Kind::from(a), Kind::from(b)),
        Request::Multiply(a, b) => operate_cost(Kind::from(a), Kind::from(b)),
        Request::Negate(a) => negate_cost(Kind::from(a)),
        Request::Subtract(a, b) => subtract_cost(Kind::from(a), Kind::from(b)),
        Request::DivideBy(a, i) => quotient_cost(Kind::from(a), Kind::from(i)),
        Request::DivideId(i, _) => quotient_cost(Kind::from(i), Kind::Native),
        Request::Invert(i) => quotient_cost(Kind::Native, Kind::from(i)),
        Request::AssertEqual(a, b) => assertion_cost(Kind::from(a), Kind::from(b)),
        Request::BooleanWitness => boolean_witness_cost(),
        Request::BooleanAssert(a) => square_cost(Kind::from(a)),
        Request::Not(a) => subtract_cost(Kind::Native, Kind::from(a)),
        Request::And(a, b) => operate_cost(Kind::from(a), Kind::from(b)),
        Request::Or(a, b) => either_cost(Kind::from(a), Kind::from(b)),
        Request::Select(b, t, f) => select_cost(Kind::from(b), Kind::from(t), Kind::from(f)),
    }
}

// Whether two natives that a request asserts equal differ.
pub fn clashes<E: Ring>(request: Request<E>) -> bool
    ensures { Clash E.algebra E.means request result }
{
    match request {
        Request::AssertEqual(Var::Native(x), Var::Native(y)) => !x.equal(y),
        Request::BooleanAssert(Var::Native(x)) => !x.multiply(x).equal(x),
        _ => false,
    }
}

impl<'a, E: Ring> Draft<'a, E> {
    // Writes what a request appends, and answers.
    pub(super) fn make(&mut self, request: Request<E>) -> Var<E>
        requires room { Room self.old (request_cost request).counts }
        requires operands { AllThere self.old.counts (vars request) }
        ensures { Wrote E.means self.old self.new (request_cost request) (performed E.algebra E.means (sheet_of E.means self.old) request) result }
    {
        match request {
            Request::Constant(x) => Var::Circuit(self.push_constant(x)),
            Request::Witness => Var::Circuit(self.push_witness()),
            Request::Add(a, b) => self.operate(Op::Add, a, b),
            Request::Multiply(a, b) => self.operate(Op::Multiply, a, b),
            Request::Negate(a) => self.negate(a),
            Request::Subtract(a, b) => self.subtract(a, b),
            Request::DivideBy(a, i) => self.quotient(a, Var::Circuit(i)),
            Request::DivideId(i, y) => self.quotient(Var::Circuit(i), Var::Native(y)),
            Request::Invert(i) => self.inverse(i),
            Request::AssertEqual(a, b) => self.assertion(a, b),
            Request::BooleanWitness => self.boolean_witness(),
            Request::BooleanAssert(a) => self.square(a),
            Request::Not(a) => self.complement(a),
            Request::And(a, b) => self.operate(Op::Multiply, a, b),
            Request::Or(a, b) => self.either(a, b),
            Request::Select(b, t, f) => self.select(b, t, f),
        }
    }
}

impl Builder {
    // Whether each operand is native, or an id of the worksheet.
    pub(super) fn knows_operands<E: Copy>(&self, request: Request<E>) -> bool
        ensures { result ≡ all_by self.now.counts (vars request) }
    {
        match request {
            Request::Constant(_) | Request::Witness | Request::BooleanWitness => true,
            Request::Negate(a) | Request::BooleanAssert(a) | Request::Not(a) => self.knows(a),
            Request::Invert(i) => self.knows::<E>(Var::Circuit(i)),
            Request::Add(a, b) | Request::Multiply(a, b) | Request::Subtract(a, b) => {
                self.knows(a) && self.knows(b)
            }
            Request::AssertEqual(a, b) | Request::And(a, b) | Request::Or(a, b) => {
                self.knows(a) && self.knows(b)
            }
            Request::DivideBy(a, i) => self.knows(a) && self.knows::<E>(Var::Circuit(i)),
            Request::DivideId(i, _) => self.knows::<E>(Var::Circuit(i)),
            Request::Select(b, t, f) => self.knows(b) && self.knows(t) && self.knows(f),
        }
    }
}
