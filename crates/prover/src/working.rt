// The values of new witnesses and nodes.
ghost use Rattle.std.specs.Prelude.{◌≡◌, ◌<◌, ◌≤◌, map, length, take, drop, if◌then◌else◌, ◌||◌, nat_lt, slice_set};
ghost use Rattle.worksheet.specs.Runs.{work_out};
ghost use Rattle.prover.specs.Book.{held, lacks, of_constants};
ghost use Rattle.prover.specs.Filled.{Filled};

use super::{Ledger, Values};
use ring::Ring;
use worksheet::Counts;

// Whether a table of values is shorter than its capacity.
pub fn lack<E>(capacity: Counts, values: &[E], worked: &[E]) -> bool
    ensures { result ≡ (nat_lt (length values.now) capacity.witnesses || nat_lt (length worked.now) capacity.nodes) }
{
    values.len() < capacity.witnesses as usize || worked.len() < capacity.nodes as usize
}

impl<'a, E> Ledger<'a, E> {
    pub(super) fn lacks(&self, capacity: Counts) -> bool
        ensures { result ≡ lacks capacity (held self.now) }
    {
        lack(capacity, self.values, self.worked)
    }

    // The values of the ids below these counts.
    pub(super) fn view(&self, counts: Counts) -> Values<'_, E>
        ensures counts { result.counts ≡ counts }
        ensures constants { result.constants.now ≡ self.now.tables.constants.now }
        ensures values { result.values.now ≡ self.now.values.now }
        ensures worked { result.worked.now ≡ self.now.worked.now }
    {
        Values {
            counts,
            constants: &*self.tables.constants,
            assertions: &*self.tables.assertions,
            values: &*self.values,
            worked: &*self.worked,
        }
    }
}

// Writes the value of a new witness, if there is one.
fn hand<E: Copy>(values: &mut [E], before: u32, after: u32, fresh: E)
    requires { after ≤ length values.old }
    ensures { values.new ≡ (if nat_lt before after then slice_set values.old before fresh else values.old) }
{
    if before < after {
        values[before as usize] = fresh;
    }
}

impl<'a, E: Ring> Ledger<'a, E> {
    // Works out the values of the nodes from `first` on, by the counts that the `Builder` has: by index, since each
    // value is worked out from those before it in the table in which it is written.
    fn work_out(&mut self, counts: Counts, first: u32)
        requires { (first ≤ counts.nodes) × ((counts.nodes ≤ length self.old.tables.nodes.now) × (counts.nodes ≤ length self.old.worked.now)) }
        ensures values { map E.means (take counts.nodes self.new.worked.now) ≡ work_out E.algebra (of_constants (map E.means (take counts.constants self.old.tables.constants.now))) (map E.means (take counts.witnesses self.old.values.now)) (map E.means (take first self.old.worked.now)) (drop first (take counts.nodes self.old.tables.nodes.now)) }
        ensures spare { drop counts.nodes self.new.worked.now ≡ drop counts.nodes self.old.worked.now }
        ensures structure { self.new.tables ≡ self.old.tables }
        ensures handed { self.new.values ≡ self.old.values }
        ensures lent { self.new.worked.ghost_name ≡ self.old.worked.ghost_name }
        ensures long { length self.new.worked.now ≡ length self.old.worked.now }
    {
        for k in first..counts.nodes {
            let so_far = Counts { nodes: k, ..counts };
            let node = self.tables.nodes[k as usize];
            let value = self.view(so_far).work(node);
            self.worked[k as usize] = value;
        }
    }

    // Fills in what the entries between two counts are worth; a new witness is handed `fresh`.
    pub(super) fn fill(&mut self, before: Counts, after: Counts, fresh: E)
        requires witnesses { after.witnesses ≤ length self.old.values.now }
        requires nodes { (before.nodes ≤ after.nodes) × ((after.nodes ≤ length self.old.tables.nodes.now) × (after.nodes ≤ length self.old.worked.now)) }
        ensures filled { Filled E.algebra E.means before after fresh (held self.old) (held self.new) }
        ensures structure { self.new.tables ≡ self.old.tables }
        ensures lent { (self.new.values.ghost_name ≡ self.old.values.ghost_name) × (self.new.worked.ghost_name ≡ self.old.worked.ghost_name) }
        ensures long { (length self.new.values.now ≡ length self.old.values.now) × (length self.new.worked.now ≡ length self.old.worked.now) }
    {
        hand(self.values, before.witnesses, after.witnesses, fresh);
        self.work_out(after, before.nodes);
    }
}
