// What calls write: each function appends what its definition says, where the caller has made sure of the room.
ghost use Rattle.std.specs.Prelude.{◌≡◌, ℕ, ◌<◌, ◌≤◌, map, length, take, slice_index_or};
ghost use Rattle.worksheet.specs.Calls.{apply as apply_op, node_of as node_by, constant_of as constant_by, join, operate as operated, negated, subtracted, asserted, push_constant, push_node, push_assertion, push_witness, quotient, squared, either, selected, element as element_at, var_means};
ghost use Rattle.worksheet.specs.declared.CircuitIdx.TheVariants.{Constant};
ghost use Rattle.worksheet.specs.declared.CircuitNode.TheVariants.{Mul};
ghost use Rattle.worksheet.specs.declared.Var.TheVariants.{Native, Circuit};
ghost use Rattle.builder.specs.declared.cost.Kind.TheVariants.{Native as native};
ghost use Rattle.builder.specs.Cost.{counts as entries, cost as cost_by, constant_cost, witness_cost, node_cost, after, kind_of, kind_of_id, join_cost, operate_cost, negate_cost, subtract_cost, assert_cost, quotient_cost, square_cost, either_cost, select_cost};
ghost use Rattle.builder.specs.Tables.{op_of, sheet_of, Room, There, ThereId, Grew, Wrote};

use super::{Draft, Op};
use ring::Ring;
use worksheet::{CircuitIdx, CircuitNode, Var};

fn apply<E: Ring>(op: Op, x: E, y: E) -> E
    ensures { E.means result ≡ apply_op E.algebra (op_of op) (E.means x) (E.means y) }
{
    match op {
        Op::Add => x.add(y),
        Op::Multiply => x.multiply(y),
    }
}

fn node_of(op: Op, a: CircuitIdx, b: CircuitIdx) -> CircuitNode
    ensures { result ≡ node_by (op_of op) a b }
{
    match op {
        Op::Add => CircuitNode::Add(a, b),
        Op::Multiply => CircuitNode::Mul(a, b),
    }
}

// An entry of a table whose first n are in use, or zero.
pub fn entry<E: Ring>(table: &[E], n: u32, k: u32) -> E
    ensures { E.means result ≡ slice_index_or (map E.means (take n table.now)) k E.algebra.nought }
{
    if k < n && (k as usize) < table.len() {
        table[k as usize]
    } else {
        E::zero()
    }
}

impl<'a, E: Ring> Draft<'a, E> {
    pub(super) fn push_constant(&mut self, x: E) -> CircuitIdx
        requires { Room self.old (entries 1 0 0 0) }
        ensures { Wrote E.means self.old self.new constant_cost (push_constant (sheet_of E.means self.old) (E.means x)) (Circuit result) }
    {
        let n = self.counts.constants;
        self.constants[n as usize] = x;
        self.counts.constants = n + 1;
        CircuitIdx::Constant(n)
    }

    fn push_node(&mut self, node: CircuitNode) -> CircuitIdx
        requires { Room self.old (entries 0 0 1 0) }
        ensures { Wrote E.means self.old self.new node_cost (push_node (sheet_of E.means self.old) node) (Circuit result) }
    {
        let n = self.counts.nodes;
        self.nodes[n as usize] = node;
        self.counts.nodes = n + 1;
        CircuitIdx::Node(n)
    }

    fn push_assertion(&mut self, left: CircuitIdx, right: CircuitIdx)
        requires { Room self.old (entries 0 0 0 1) }
        ensures { Grew E.means self.old self.new (entries 0 0 0 1) (push_assertion (sheet_of E.means self.old) left right) }
    {
        let n = self.counts.assertions;
        self.assertions[n as usize] = (left, right);
        self.counts.assertions = n + 1;
    }

    // The element of a constant.
    fn element(&self, k: u32) -> E
        requires { (k < self.now.counts.constants) × (Room self.now (entries 0 0 0 0)) }
        ensures { E.means result ≡ element_at E.algebra (sheet_of E.means self.now) k }
    {
        entry(self.constants, self.counts.constants, k)
    }

    // The constant or the node of two ids.
    fn join(&mut self, op: Op, a: CircuitIdx, b: CircuitIdx) -> CircuitIdx
        requires room { Room self.old (join_cost (kind_of_id a) (kind_of_id b)).counts }
        requires first { ThereId self.old.counts.constants a }
        requires second { ThereId self.old.counts.constants b }
        ensures { Wrote E.means self.old self.new (join_cost (kind_of_id a) (kind_of_id b)) (join E.algebra (op_of op) (sheet_of E.means self.old) a b) (Circuit result) }
    {
        match (a, b) {
            (CircuitIdx::Constant(k), CircuitIdx::Constant(m)) => {
                let x = apply(op, self.element(k), self.element(m));
                self.push_constant(x)
            }
            (_, _) => self.push_node(node_of(op, a, b)),
        }
    }

    pub(super) fn operate(&mut self, op: Op, a: Var<E>, b: Var<E>) -> Var<E>
        requires room { Room self.old (operate_cost (kind_of a) (kind_of b)).counts }
        requires first { There self.old.counts a }
        requires second { There self.old.counts b }
        ensures { Wrote E.means self.old self.new (operate_cost (kind_of a) (kind_of b)) (operated E.algebra (op_of op) (sheet_of E.means self.old) (var_means E.means a) (var_means E.means b)) result }
    {
        match (a, b) {
            (Var::Native(x), Var::Native(y)) => Var::Native(apply(op, x, y)),
            (Var::Native(x), Var::Circuit(b)) => self.lift(op, x, b),
            (Var::Circuit(a), Var::Native(y)) => self.lift(op, y, a),
            (Var::Circuit(a), Var::Circuit(b)) => Var::Circuit(self.join(op, a, b)),
        }
    }

    // A native beside an id becomes a constant, and the first operand.
    fn lift(&mut self, op: Op, x: E, b: CircuitIdx) -> Var<E>
        requires room { Room self.old (operate_cost native (kind_of_id b)).counts }
        requires second { ThereId self.old.counts.constants b }
        ensures { Wrote E.means self.old self.new (operate_cost native (kind_of_id b)) (join E.algebra (op_of op) (push_constant (sheet_of E.means self.old) (E.means x)).0 (Constant (length (sheet_of E.means self.old).constants)) b) result }
    {
        let first = self.push_constant(x);
        Var::Circuit(self.join(op, first, b))
    }

    pub(super) fn negate(&mut self, a: Var<E>) -> Var<E>
        requires room { Room self.old (negate_cost (kind_of a)).counts }
        requires operand { There self.old.counts a }
        ensures { Wrote E.means self.old self.new (negate_cost (kind_of a)) (negated E.algebra (sheet_of E.means self.old) (var_means E.means a)) result }
    {
        match a {
            Var::Native(x) => Var::Native(x.negate()),
            Var::Circuit(CircuitIdx::Constant(k)) => {
                let x = self.element(k).negate();
                Var::Circuit(self.push_constant(x))
            }
            Var::Circuit(i) => Var::Circuit(self.times_minus_one(i)),
        }
    }

    fn times_minus_one(&mut self, i: CircuitIdx) -> CircuitIdx
        requires { Room self.old (entries 1 0 1 0) }
        ensures { Wrote E.means self.old self.new (after (entries 1 0 0 0) node_cost) (push_node (push_constant (sheet_of E.means self.old) (E.algebra.minus E.algebra.unit)).0 (Mul (Constant (length (sheet_of E.means self.old).constants)) i)) (Circuit result) }
    {
        let minus_one = self.push_constant(E::one().negate());
        self.push_node(CircuitNode::Mul(minus_one, i))
    }

    pub(super) fn subtract(&mut self, a: Var<E>, b: Var<E>) -> Var<E>
        requires room { Room self.old (subtract_cost (kind_of a) (kind_of b)).counts }
        requires first { There self.old.counts a }
        requires second { There self.old.counts b }
        ensures { Wrote E.means self.old self.new (subtract_cost (kind_of a) (kind_of b)) (subtracted E.algebra (sheet_of E.means self.old) (var_means E.means a) (var_means E.means b)) result }
    {
        let negated = self.negate(b);
        self.operate(Op::Add, a, negated)
    }

    fn assert_equal(&mut self, a: Var<E>, b: Var<E>)
        requires { Room self.old (assert_cost (kind_of a) (kind_of b)) }
        ensures { Grew E.means self.old self.new (assert_cost (kind_of a) (kind_of b)) (asserted (sheet_of E.means self.old) (var_means E.means a) (var_means E.means b)) }
    {
        match (a, b) {
            (Var::Native(_), Var::Native(_)) => {}
            (Var::Native(x), Var::Circuit(i)) => self.assert_native(x, i),
            (Var::Circuit(i), Var::Native(x)) => self.assert_native(x, i),
            (Var::Circuit(i), Var::Circuit(j)) => self.push_assertion(i, j),
        }
    }

    fn assert_native(&mut self, x: E, i: CircuitIdx)
        requires { Room self.old (entries 1 0 0 1) }
        ensures { Grew E.means self.old self.new (entries 1 0 0 1) (push_assertion (push_constant (sheet_of E.means self.old) (E.means x)).0 (Constant (length (sheet_of E.means self.old).constants)) i) }
    {
        let first = self.push_constant(x);
        self.push_assertion(first, i);
    }

    pub(super) fn push_witness(&mut self) -> CircuitIdx
        requires { Room self.old (entries 0 1 0 0) }
        ensures { Wrote E.means self.old self.new witness_cost (push_witness (sheet_of E.means self.old)) (Circuit result) }
    {
        let n = self.counts.witnesses;
        self.counts.witnesses = n + 1;
        CircuitIdx::Witness(n)
    }

    // A witness that times b is asserted to be a.
    pub(super) fn quotient(&mut self, a: Var<E>, b: Var<E>) -> Var<E>
        requires room { Room self.old (quotient_cost (kind_of a) (kind_of b)).counts }
        requires second { There self.old.counts b }
        ensures { Wrote E.means self.old self.new (quotient_cost (kind_of a) (kind_of b)) (quotient E.algebra (sheet_of E.means self.old) (var_means E.means a) (var_means E.means b)) result }
    {
        let q = Var::Circuit(self.push_witness());
        let product = self.operate(Op::Multiply, q, b);
        self.assert_equal(product, a);
        q
    }

    // Asserts that the square of a is a.
    pub(super) fn square(&mut self, a: Var<E>) -> Var<E>
        requires room { Room self.old (square_cost (kind_of a)).counts }
        requires operand { There self.old.counts a }
        ensures { Wrote E.means self.old self.new (square_cost (kind_of a)) (squared E.algebra (sheet_of E.means self.old) (var_means E.means a)) result }
    {
        let product = self.operate(Op::Multiply, a, a);
        self.assert_equal(product, a);
        a
    }

    pub(super) fn either(&mut self, a: Var<E>, b: Var<E>) -> Var<E>
        requires room { Room self.old (either_cost (kind_of a) (kind_of b)).counts }
        requires first { There self.old.counts a }
        requires second { There self.old.counts b }
        ensures { Wrote E.means self.old self.new (either_cost (kind_of a) (kind_of b)) (either E.algebra (sheet_of E.means self.old) (var_means E.means a) (var_means E.means b)) result }
    {
        let sum = self.operate(Op::Add, a, b);
        let product = self.operate(Op::Multiply, a, b);
        self.subtract(sum, product)
    }

    pub(super) fn select(&mut self, b: Var<E>, t: Var<E>, f: Var<E>) -> Var<E>
        requires room { Room self.old (select_cost (kind_of b) (kind_of t) (kind_of f)).counts }
        requires condition { There self.old.counts b }
        requires first { There self.old.counts t }
        requires second { There self.old.counts f }
        ensures { Wrote E.means self.old self.new (select_cost (kind_of b) (kind_of t) (kind_of f)) (selected E.algebra (sheet_of E.means self.old) (var_means E.means b) (var_means E.means t) (var_means E.means f)) result }
    {
        let difference = self.subtract(t, f);
        let product = self.operate(Op::Multiply, b, difference);
        self.operate(Op::Add, f, product)
    }

    // Asserts that a is b, and answers a.
    pub(super) fn assertion(&mut self, a: Var<E>, b: Var<E>) -> Var<E>
        requires room { Room self.old (assert_cost (kind_of a) (kind_of b)) }
        requires operand { There self.old.counts a }
        ensures { Wrote E.means self.old self.new (cost_by (assert_cost (kind_of a) (kind_of b)) (kind_of a)) (asserted (sheet_of E.means self.old) (var_means E.means a) (var_means E.means b), var_means E.means a) result }
    {
        self.assert_equal(a, b);
        a
    }

    pub(super) fn boolean_witness(&mut self) -> Var<E>
        requires { Room self.old (after (entries 0 1 0 0) (square_cost witness_cost.kind)).counts }
        ensures { Wrote E.means self.old self.new (after (entries 0 1 0 0) (square_cost witness_cost.kind)) (squared E.algebra (push_witness (sheet_of E.means self.old)).0 (push_witness (sheet_of E.means self.old)).1) result }
    {
        let bit = Var::Circuit(self.push_witness());
        self.square(bit)
    }

    // A witness that times i is asserted to be one.
    pub(super) fn inverse(&mut self, i: CircuitIdx) -> Var<E>
        requires room { Room self.old (quotient_cost native (kind_of_id i)).counts }
        requires operand { ThereId self.old.counts.constants i }
        ensures { Wrote E.means self.old self.new (quotient_cost native (kind_of_id i)) (quotient E.algebra (sheet_of E.means self.old) (Native E.algebra.unit) (Circuit i)) result }
    {
        self.quotient(Var::Native(E::one()), Var::Circuit(i))
    }

    // One minus a.
    pub(super) fn complement(&mut self, a: Var<E>) -> Var<E>
        requires room { Room self.old (subtract_cost native (kind_of a)).counts }
        requires operand { There self.old.counts a }
        ensures { Wrote E.means self.old self.new (subtract_cost native (kind_of a)) (subtracted E.algebra (sheet_of E.means self.old) (Native E.algebra.unit) (var_means E.means a)) result }
    {
        self.subtract(Var::Native(E::one()), a)
    }
}
