// A worksheet's ids, nodes and variables. The definitions of what builder calls do are in specs/.
#![tactic(auto)]

ghost use Rattle.std.specs.Prelude.{◌≡◌, true, Some};
ghost use Rattle.worksheet.specs.Law.{LawOfRuns};
ghost use Rattle.worksheet.specs.Shown.{id_text, node_text};

use ring::Ring;
use std::fmt;

// An id, by its number from 0 in a table that the caller lends.
#[derive(Clone, Copy, PartialEq, Eq)]
pub enum CircuitIdx {
    Constant(u32),
    Witness(u32),
    Node(u32),
}

impl fmt::Display for CircuitIdx {
    ghost output = { λ i. Some (id_text i) };

    fn fmt<W: fmt::Write>(&self, f: &mut fmt::Formatter<W>) -> fmt::Result {
        match self {
            CircuitIdx::Constant(k) => write!(f, "constant {k}"),
            CircuitIdx::Witness(w) => write!(f, "witness {w}"),
            CircuitIdx::Node(n) => write!(f, "node {n}"),
        }
    }
}

// A sum or a product of two ids that stand earlier.
#[derive(Clone, Copy, PartialEq, Eq)]
pub enum CircuitNode {
    Add(CircuitIdx, CircuitIdx),
    Mul(CircuitIdx, CircuitIdx),
}

impl fmt::Display for CircuitNode {
    ghost output = { λ n. Some (node_text n) };

    fn fmt<W: fmt::Write>(&self, f: &mut fmt::Formatter<W>) -> fmt::Result {
        match self {
            CircuitNode::Add(a, b) => write!(f, "{a} + {b}"),
            CircuitNode::Mul(a, b) => write!(f, "{a} x {b}"),
        }
    }
}

// A native element, or an id.
#[derive(Clone, Copy)]
pub enum Var<E> {
    Native(E),
    Circuit(CircuitIdx),
}

// How many entries a worksheet has, or has room for.
#[derive(Clone, Copy, PartialEq, Eq)]
pub struct Counts {
    pub constants: u32,
    pub witnesses: u32,
    pub nodes: u32,
    pub assertions: u32,
}

// The law on runs of builder calls, over the ring E.
#[tactic(auto, using(crate::proofs::Law::law))]
pub fn runs_are_lawful<E: Ring>() -> bool
    ensures law { LawOfRuns E.algebra }
    ensures says { result ≡ true }
{
    true
}
