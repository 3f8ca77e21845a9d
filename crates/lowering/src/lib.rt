// Lowering: how a worksheet becomes gates, committed columns and rows. What it is, and the law on it, are in specs/.
#![tactic(auto)]

use worksheet::CircuitIdx;

mod faithful;
mod worked;

pub use faithful::lowering_is_faithful;
pub use worked::figures_are_right;

// A place in the columns. `Witness` is a witness's place wherever that is.
#[derive(Clone, Copy, PartialEq, Eq, PartialOrd, Ord)]
pub enum Location {
    One,
    Witness(u32),
    Left(u32),
    Right(u32),
    Output(u32),
    Committed(u32),
}

// A place and its weight in a combination.
#[derive(Clone, Copy)]
pub struct Term<E> {
    pub place: Location,
    pub weight: E,
}

// A multiplication gate: its factors, and the node that is their product.
#[derive(Clone, Copy, PartialEq, Eq)]
pub struct Gate {
    pub left: CircuitIdx,
    pub right: Option<CircuitIdx>,
    pub product: Option<CircuitIdx>,
}
