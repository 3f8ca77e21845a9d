// A worksheet, built call by call in tables that the caller lends: what provers and verifiers share.
#![tactic(auto)]

ghost use Rattle.builder.specs.Within.{Within, Small};

use std::marker::PhantomData;
use worksheet::{CircuitIdx, CircuitNode, Counts, Var};

mod admission;
mod boolean;
mod calls;
mod cost;
mod elements;
mod life;
mod opening;
mod requests;
mod roles;
mod sealing;
mod writing;

pub use admission::has;
pub use boolean::bit;
pub use calls::are_short;
pub use roles::Role;
pub use writing::entry;

// How much of its tables a worksheet has filled. The caller lends them at each call, so the counts stand apart.
#[derive(Drop)]
pub struct Builder {
    capacity: Counts,
    counts: Counts,
    ghost small: { Small capacity },
    ghost below: { Within counts capacity },
}

// The tables of a worksheet's structure, lent by the caller.
#[derive(Drop)]
pub struct Tables<'a, E> {
    pub constants: &'a mut [E],
    pub nodes: &'a mut [CircuitNode],
    pub assertions: &'a mut [(CircuitIdx, CircuitIdx)],
}

// A worksheet that takes calls, in the role R.
#[derive(Drop)]
pub struct Open<R> {
    builder: Builder,
    role: PhantomData<R>,
}

// A worksheet that takes no more calls.
#[derive(Drop)]
pub struct Sealed<R> {
    builder: Builder,
    role: PhantomData<R>,
}

// A variable that is zero or one, had only from the boolean calls.
#[derive(Clone, Copy)]
pub struct BoolVar<E> {
    var: Var<E>,
}

// A builder call as a value. Its cost, operands and natives are asked for before it is written, where a closure could
// only be run.
#[derive(Clone, Copy)]
pub enum Request<E> {
    Constant(E),
    Witness,
    Add(Var<E>, Var<E>),
    Multiply(Var<E>, Var<E>),
    Negate(Var<E>),
    Subtract(Var<E>, Var<E>),
    // a variable divided by an id
    DivideBy(Var<E>, CircuitIdx),
    // an id divided by a native
    DivideId(CircuitIdx, E),
    // the inverse of an id
    Invert(CircuitIdx),
    AssertEqual(Var<E>, Var<E>),
    BooleanWitness,
    BooleanAssert(Var<E>),
    Not(Var<E>),
    And(Var<E>, Var<E>),
    Or(Var<E>, Var<E>),
    Select(Var<E>, Var<E>, Var<E>),
}

// What is done to two elements, and which node two ids make: two things that go together, where a closure would be two.
#[derive(Clone, Copy)]
enum Op {
    Add,
    Multiply,
}

// The tables and the counts of a worksheet while a call writes them. How much room a call needs, and which ids it
// reads, goes by the call, so both are asked of each function and none is a fact of the type. The tables' three fields stand
// in it, so that each clause names a table by one word.
#[derive(Drop)]
struct Draft<'a, E> {
    constants: &'a mut [E],
    nodes: &'a mut [CircuitNode],
    assertions: &'a mut [(CircuitIdx, CircuitIdx)],
    counts: Counts,
}
