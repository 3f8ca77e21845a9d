// Whether a call is refused, and with what, before anything is written.
ghost use Rattle.std.specs.Prelude.{◌≡◌, ◌+◌, ◌≤◌, ◌||◌, Some, None, MatchResult, nat_lt};
ghost use Rattle.refusal.specs.Number.{number_of};
ghost use Rattle.worksheet.specs.Runs.{refusal as first_refusal};
ghost use Rattle.builder.specs.Admission.{causes, known_by, known_id};
ghost use Rattle.builder.specs.Called.{short};
ghost use Rattle.builder.specs.Cost.{Few};

use super::{Builder, Tables};
use refusal::Refusal;
use worksheet::{CircuitIdx, Counts, Var};

fn exceeds(capacity: u32, count: u32, more: u32) -> bool
    requires { (count ≤ 65536) × (more ≤ 1000) }
    ensures { result ≡ nat_lt capacity (count + more) }
{
    capacity < count + more
}

// Whether an id is below its count.
pub fn has(counts: Counts, i: CircuitIdx) -> bool
    ensures { result ≡ known_id counts i }
{
    match i {
        CircuitIdx::Constant(k) => k < counts.constants,
        CircuitIdx::Witness(w) => w < counts.witnesses,
        CircuitIdx::Node(n) => n < counts.nodes,
    }
}

impl Builder {
    // Whether a table that a call needs is short.
    pub(super) fn lacks<E>(&self, tables: &Tables<'_, E>, lacking: bool) -> bool
        ensures { result ≡ (lacking || short self.now.capacity tables.now.constants.now tables.now.nodes.now tables.now.assertions.now) }
    {
        lacking || tables.are_short(self.capacity)
    }

    // Whether a variable is native, or an id of the worksheet.
    pub(super) fn knows<E: Copy>(&self, v: Var<E>) -> bool
        ensures { result ≡ known_by self.now.counts v }
    {
        match v {
            Var::Native(_) => true,
            Var::Circuit(i) => has(self.counts, i),
        }
    }

    // Refuses a call on tables of which some are short, that names an id that is absent, that asserts
    // unequal natives equal, or that would append more than there is room for. The first three are found before
    // any is acted on, since a contract speaks of the natives' comparison whatever else is refused.
    pub(super) fn admit(
        &self,
        short: bool,
        known: bool,
        clash: bool,
        more: Counts,
    ) -> Result<(), Refusal>
        requires { Few 7 more }
        ensures { MatchResult result (λ _. first_refusal (causes self.now.capacity self.now.counts short known clash more) ≡ None) (λ e. first_refusal (causes self.now.capacity self.now.counts short known clash more) ≡ Some (number_of e)) }
    {
        if short {
            return Err(Refusal::ShortTable);
        }
        if !known {
            return Err(Refusal::Absent);
        }
        if clash {
            return Err(Refusal::Unequal);
        }
        let (capacity, counts) = (self.capacity, self.counts);
        if exceeds(capacity.constants, counts.constants, more.constants) {
            return Err(Refusal::Constants);
        }
        if exceeds(capacity.witnesses, counts.witnesses, more.witnesses) {
            return Err(Refusal::Witnesses);
        }
        if exceeds(capacity.nodes, counts.nodes, more.nodes) {
            return Err(Refusal::Nodes);
        }
        if exceeds(capacity.assertions, counts.assertions, more.assertions) {
            return Err(Refusal::Assertions);
        }
        Ok(())
    }
}
