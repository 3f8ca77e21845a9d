// How much a call appends, worked out before anything is written.
ghost use Rattle.std.specs.Prelude.{◌≡◌};
ghost use Rattle.builder.specs.Cost.{counts as entries, cost as cost_by, after, kind_of, kind_of_id, constant_cost, witness_cost, operate_cost, join_cost, negate_cost, subtract_cost, assert_cost, quotient_cost, square_cost, either_cost, select_cost, Few};
ghost use Rattle.builder.specs.Within.{sum};

use worksheet::{CircuitIdx, Counts, Var};

// What a variable is, as far as the number of entries goes.
#[derive(Clone, Copy)]
pub enum Kind {
    Native,
    Constant,
    Other,
}

// What a call appends, and the kind of its answer. Each cost has a bound of its own (`few`), from which that of a
// sum follows, so none of them is a fact of the type.
#[derive(Clone, Copy)]
pub struct Cost {
    pub counts: Counts,
    pub kind: Kind,
}

impl From<CircuitIdx> for Kind {
    ghost from_gives = { λ i k. k ≡ kind_of_id i };

    fn from(i: CircuitIdx) -> Kind {
        match i {
            CircuitIdx::Constant(_) => Kind::Constant,
            CircuitIdx::Witness(_) | CircuitIdx::Node(_) => Kind::Other,
        }
    }
}

impl<E: Copy> From<Var<E>> for Kind {
    ghost from_gives = { λ v k. k ≡ kind_of v };

    fn from(v: Var<E>) -> Kind {
        match v {
            Var::Native(_) => Kind::Native,
            Var::Circuit(i) => Kind::from(i),
        }
    }
}

fn counts(constants: u32, witnesses: u32, nodes: u32, assertions: u32) -> Counts
    ensures { result ≡ record { constants = constants; witnesses = witnesses; nodes = nodes; assertions = assertions } }
{
    Counts {
        constants,
        witnesses,
        nodes,
        assertions,
    }
}

fn plus(n: Counts, m: Counts) -> Counts
    requires { (Few 1000 n) × (Few 1000 m) }
    ensures { result ≡ sum n m }
{
    Counts {
        constants: n.constants + m.constants,
        witnesses: n.witnesses + m.witnesses,
        nodes: n.nodes + m.nodes,
        assertions: n.assertions + m.assertions,
    }
}

pub fn constant_cost() -> Cost
    ensures cost { result ≡ constant_cost }
    ensures few { Few 1 result.counts }
{
    Cost {
        counts: counts(1, 0, 0, 0),
        kind: Kind::Constant,
    }
}

pub fn witness_cost() -> Cost
    ensures cost { result ≡ witness_cost }
    ensures few { Few 1 result.counts }
{
    Cost {
        counts: counts(0, 1, 0, 0),
        kind: Kind::Other,
    }
}

pub fn operate_cost(a: Kind, b: Kind) -> Cost
    ensures cost { result ≡ operate_cost a b }
    ensures few { Few 2 result.counts }
{
    match (a, b) {
        (Kind::Native, Kind::Native) => Cost {
            counts: counts(0, 0, 0, 0),
            kind: Kind::Native,
        },
        (Kind::Native, Kind::Constant) | (Kind::Constant, Kind::Native) => Cost {
            counts: counts(2, 0, 0, 0),
            kind: Kind::Constant,
        },
        (Kind::Constant, Kind::Constant) => Cost {
            counts: counts(1, 0, 0, 0),
            kind: Kind::Constant,
        },
        (Kind::Native, Kind::Other) | (Kind::Other, Kind::Native) => Cost {
            counts: counts(1, 0, 1, 0),
            kind: Kind::Other,
        },
        (Kind::Other, _) | (_, Kind::Other) => Cost {
            counts: counts(0, 0, 1, 0),
            kind: Kind::Other,
        },
    }
}

pub fn negate_cost(a: Kind) -> Cost
    ensures cost { result ≡ negate_cost a }
    ensures few { Few 1 result.counts }
{
    let counts = match a {
        Kind::Native => counts(0, 0, 0, 0),
        Kind::Constant => counts(1, 0, 0, 0),
        Kind::Other => counts(1, 0, 1, 0),
    };
    Cost { counts, kind: a }
}

pub fn subtract_cost(a: Kind, b: Kind) -> Cost
    ensures cost { result ≡ subtract_cost a b }
    ensures few { Few 3 result.counts }
{
    let negated = negate_cost(b);
    let sum = operate_cost(a, negated.kind);
    Cost {
        counts: plus(negated.counts, sum.counts),
        kind: sum.kind,
    }
}

pub fn assert_cost(a: Kind, b: Kind) -> Counts
    ensures cost { result ≡ assert_cost a b }
    ensures few { Few 1 result }
{
    match (a, b) {
        (Kind::Native, Kind::Native) => counts(0, 0, 0, 0),
        (Kind::Native, _) | (_, Kind::Native) => counts(1, 0, 0, 1),
        (_, _) => counts(0, 0, 0, 1),
    }
}

pub fn quotient_cost(a: Kind, b: Kind) -> Cost
    ensures cost { result ≡ quotient_cost a b }
    ensures few { Few 4 result.counts }
{
    let product = operate_cost(Kind::Other, b);
    let asserted = assert_cost(product.kind, a);
    Cost {
        counts: plus(plus(counts(0, 1, 0, 0), product.counts), asserted),
        kind: Kind::Other,
    }
}

pub fn square_cost(a: Kind) -> Cost
    ensures cost { result ≡ square_cost a }
    ensures few { Few 3 result.counts }
{
    let product = operate_cost(a, a);
    Cost {
        counts: plus(product.counts, assert_cost(product.kind, a)),
        kind: a,
    }
}

pub fn either_cost(a: Kind, b: Kind) -> Cost
    ensures cost { result ≡ either_cost a b }
    ensures few { Few 7 result.counts }
{
    let each = operate_cost(a, b);
    let difference = subtract_cost(each.kind, each.kind);
    Cost {
        counts: plus(each.counts, plus(each.counts, difference.counts)),
        kind: difference.kind,
    }
}

pub fn select_cost(b: Kind, t: Kind, f: Kind) -> Cost
    ensures cost { result ≡ select_cost b t f }
    ensures few { Few 7 result.counts }
{
    let difference = subtract_cost(t, f);
    let product = operate_cost(b, difference.kind);
    let sum = operate_cost(f, product.kind);
    Cost {
        counts: plus(difference.counts, plus(product.counts, sum.counts)),
        kind: sum.kind,
    }
}

pub fn assertion_cost(a: Kind, b: Kind) -> Cost
    ensures cost { result ≡ cost_by (assert_cost a b) a }
    ensures few { Few 1 result.counts }
{
    Cost {
        counts: assert_cost(a, b),
        kind: a,
    }
}

pub fn boolean_witness_cost() -> Cost
    ensures cost { result ≡ after (entries 0 1 0 0) (square_cost witness_cost.kind) }
    ensures few { Few 4 result.counts }
{
    let square = square_cost(Kind::Other);
    Cost {
        counts: plus(counts(0, 1, 0, 0), square.counts),
        kind: square.kind,
    }
}
