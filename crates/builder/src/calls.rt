// A builder call given as a value, on a worksheet's structure.
ghost use Rattle.std.specs.Prelude.{◌≡◌, ◌||◌, false, OnOk};
ghost use Rattle.refusal.specs.Outcome.{outcome};
ghost use Rattle.worksheet.specs.Calls.{var_means};
ghost use Rattle.builder.specs.Called.{short, Stays, Made};
ghost use Rattle.builder.specs.Requests.{OfStructure, shown};

use super::requests::{clashes, cost_of};
use super::{Builder, Draft, Request, Tables};
use refusal::Refusal;
use ring::Ring;
use worksheet::{CircuitIdx, CircuitNode, Counts, Var};

// Whether a table is shorter than its capacity.
pub fn are_short<E>(
    capacity: Counts,
    constants: &[E],
    nodes: &[CircuitNode],
    assertions: &[(CircuitIdx, CircuitIdx)],
) -> bool
    ensures { result ≡ short capacity constants.now nodes.now assertions.now }
{
    constants.len() < capacity.constants as usize
        || nodes.len() < capacity.nodes as usize
        || assertions.len() < capacity.assertions as usize
}

impl<'a, E> Tables<'a, E> {
    pub fn are_short(&self, capacity: Counts) -> bool
        ensures { result ≡ short capacity self.now.constants.now self.now.nodes.now self.now.assertions.now }
    {
        are_short(capacity, self.constants, self.nodes, self.assertions)
    }
}

impl Builder {
    // Makes a builder call that is given as a value. With `lacking`, another table that the call needs is short.
    pub fn call<E: Ring>(
        &mut self,
        tables: &mut Tables<'_, E>,
        lacking: bool,
        request: Request<E>,
    ) -> Result<Var<E>, Refusal>
        ensures called { OfStructure E.algebra E.means request (λ c. Made E.algebra E.means lacking self.old self.new tables.old tables.new c (outcome (λ v. shown E.algebra E.means request (var_means E.means v)) result)) }
        ensures stays { Stays self.old self.new tables.old tables.new }
        ensures long { OnOk result ((lacking || short self.old.capacity tables.old.constants.now tables.old.nodes.now tables.old.assertions.now) ≡ false) }
    {
        let short = self.lacks(tables, lacking);
        let known = self.knows_operands(request);
        let clash = clashes(request);
        let cost = cost_of(request);
        self.admit(short, known, clash, cost.counts)?;
        let mut draft = Draft {
            constants: &mut *tables.constants,
            nodes: &mut *tables.nodes,
            assertions: &mut *tables.assertions,
            counts: self.counts,
        };
        let answer = draft.make(request);
        self.counts = draft.counts;
        Ok(answer)
    }
}
