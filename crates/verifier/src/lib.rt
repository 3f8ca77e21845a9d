// A verifier's worksheet: structure and no values.
#![tactic(auto)]

mod role;
mod witnesses;

pub use witnesses::Witnesses;

// The role of one who holds no values.
pub struct Verifier(());
