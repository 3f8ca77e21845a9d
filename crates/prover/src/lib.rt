// A prover's worksheet: its structure, and the value of every witness and node, in tables that the caller lends.
#![tactic(auto)]

use builder::Tables;
use worksheet::{CircuitIdx, Counts};

mod role;
mod view;
mod witnesses;
mod working;

pub use witnesses::Witnesses;

// The role of one who knows the witnesses' values.
pub struct Prover(());

// The tables of a prover's worksheet, each the caller's: `values` has an entry for each witness, `worked` one for each
// node, since the two are appended apart.
#[derive(Drop)]
pub struct Ledger<'a, E> {
    pub tables: Tables<'a, E>,
    pub values: &'a mut [E],
    pub worked: &'a mut [E],
}

// The values of a worksheet's ids, read from its tables up to the counts. The tables are whole, as they were handed
// over, so the counts stand beside them.
#[derive(Clone, Copy)]
pub struct Values<'a, E> {
    counts: Counts,
    constants: &'a [E],
    assertions: &'a [(CircuitIdx, CircuitIdx)],
    values: &'a [E],
    worked: &'a [E],
}
