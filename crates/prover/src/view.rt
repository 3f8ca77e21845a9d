// A view of a prover's values.
ghost use Rattle.std.specs.Prelude.{◌≡◌, true, false, map, min, take, List, Decides, MatchResult, slice_index_or};
ghost use Rattle.refusal.specs.Number.{number_of};
ghost use Rattle.worksheet.specs.declared.CircuitIdx.{CircuitIdx as Id};
ghost use Rattle.worksheet.specs.declared.CircuitNode.{CircuitNode as Node};
ghost use Rattle.worksheet.specs.Calls.{var_means};
ghost use Rattle.worksheet.specs.Runs.{values_of};
ghost use Rattle.worksheet.specs.Sheet.{Holds, combine, left_of, right_of};
ghost use Rattle.builder.specs.Admission.{known_id};
ghost use Rattle.builder.specs.Requests.{worth};
ghost use Rattle.prover.specs.Book.{book, short, sheet_of, worksheet_in, read};

use super::working::lack;
use super::{Prover, Values};
use builder::{Sealed, are_short, entry, has};
use refusal::Refusal;
use ring::Ring;
use worksheet::{CircuitIdx, CircuitNode, Var};

impl<'a, E: Ring> Values<'a, E> {
    // The values that the tables of a sealed worksheet hold. The tables are lent to read, where a `Ledger` would ask
    // for ones that may be written.
    pub fn of(
        sealed: &Sealed<Prover>,
        constants: &'a [E],
        nodes: &[CircuitNode],
        assertions: &'a [(CircuitIdx, CircuitIdx)],
        values: &'a [E],
        worked: &'a [E],
    ) -> Result<Values<'a, E>, Refusal>
        ensures { MatchResult result (λ v. (short sealed.now.builder.capacity (book constants.now nodes.now assertions.now values.now worked.now) ≡ false) × (v.counts ≡ sealed.now.builder.counts) × (v.constants.now ≡ constants.now) × (v.assertions.now ≡ assertions.now) × (v.values.now ≡ values.now) × (v.worked.now ≡ worked.now)) (λ e. (number_of e ≡ 2) × (short sealed.now.builder.capacity (book constants.now nodes.now assertions.now values.now worked.now) ≡ true)) }
    {
        let capacity = sealed.capacity();
        if lack(capacity, values, worked) || are_short(capacity, constants, nodes, assertions) {
            return Err(Refusal::ShortTable);
        }
        Ok(Values {
            counts: sealed.counts(),
            constants,
            assertions,
            values,
            worked,
        })
    }

    // The value of an id, whatever the nodes and assertions are; an id past its count is refused.
    pub fn get(&self, id: CircuitIdx) -> Result<E, Refusal>
        ensures { MatchResult result (λ x. (known_id self.now.counts id ≡ true) × ((ns : List Node) (qs : List (Id × Id)) → E.means x ≡ values_of E.algebra (worksheet_in E.means self.now.counts (book self.now.constants.now ns qs self.now.values.now self.now.worked.now)) id)) (λ e. (number_of e ≡ 3) × (known_id self.now.counts id ≡ false)) }
    {
        if !has(self.counts, id) {
            return Err(Refusal::Absent);
        }
        Ok(self.value_of(id))
    }

    // Whether every assertion holds on the values.
    #[tactic(auto, using(std::proofs::lemmas::List::take_min))]
    pub fn is_satisfied(&self) -> bool
        ensures { (ns : List Node) → Decides result (Holds (sheet_of E.means self.now.counts (book self.now.constants.now ns self.now.assertions.now self.now.values.now self.now.worked.now)) (values_of E.algebra (worksheet_in E.means self.now.counts (book self.now.constants.now ns self.now.assertions.now self.now.values.now self.now.worked.now)))) }
    {
        let used = (self.counts.assertions as usize).min(self.assertions.len());
        // A copy: behind the reference, its fields would be read from memory again for each id.
        let view = *self;
        for pair in &view.assertions[..used] {
            if !view.value_of(pair.0).equal(view.value_of(pair.1)) {
                return false;
            }
        }
        true
    }

    // The value of an id; that of an id past its count is zero.
    pub(super) fn value_of(&self, id: CircuitIdx) -> E
        ensures { E.means result ≡ read E.algebra E.means self.now.counts self.now.constants.now self.now.values.now self.now.worked.now id }
    {
        match id {
            CircuitIdx::Constant(k) => entry(self.constants, self.counts.constants, k),
            CircuitIdx::Witness(k) => entry(self.values, self.counts.witnesses, k),
            CircuitIdx::Node(k) => entry(self.worked, self.counts.nodes, k),
        }
    }

    // The value of a variable.
    pub(super) fn worth(&self, v: Var<E>) -> E
        ensures { E.means result ≡ worth (read E.algebra E.means self.now.counts self.now.constants.now self.now.values.now self.now.worked.now) (var_means E.means v) }
    {
        match v {
            Var::Native(x) => x,
            Var::Circuit(i) => self.value_of(i),
        }
    }

    // The sum or product of a node's operands' values.
    pub(super) fn work(&self, node: CircuitNode) -> E
        ensures { E.means result ≡ combine E.algebra node (read E.algebra E.means self.now.counts self.now.constants.now self.now.values.now self.now.worked.now (left_of node)) (read E.algebra E.means self.now.counts self.now.constants.now self.now.values.now self.now.worked.now (right_of node)) }
    {
        match node {
            CircuitNode::Add(a, b) => self.value_of(a).add(self.value_of(b)),
            CircuitNode::Mul(a, b) => self.value_of(a).multiply(self.value_of(b)),
        }
    }
}
