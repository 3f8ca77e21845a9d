// How a worksheet begins.
ghost use Rattle.std.specs.Prelude.{◌≡◌, MatchResult};
ghost use Rattle.refusal.specs.Number.{number_of};
ghost use Rattle.builder.specs.Cost.{counts as entries};
ghost use Rattle.builder.specs.Within.{Small};

use super::Builder;
use refusal::Refusal;
use worksheet::Counts;

// The largest capacity.
const LIMIT: u32 = 65_536;

impl Builder {
    // A worksheet with nothing in it, and room for so many entries.
    pub fn new(capacity: Counts) -> Result<Builder, Refusal>
        ensures { MatchResult result (λ o. Small capacity × (o.capacity ≡ capacity) × (o.counts ≡ entries 0 0 0 0)) (λ e. (number_of e ≡ 1) × (Small capacity → ⊥)) }
    {
        if capacity.constants > LIMIT
            || capacity.witnesses > LIMIT
            || capacity.nodes > LIMIT
            || capacity.assertions > LIMIT
        {
            return Err(Refusal::Capacity);
        }
        Ok(Builder {
            capacity,
            counts: Counts {
                constants: 0,
                witnesses: 0,
                nodes: 0,
                assertions: 0,
            },
        })
    }

    pub fn capacity(&self) -> Counts
        ensures { result ≡ self.now.capacity }
    {
        self.capacity
    }

    pub fn counts(&self) -> Counts
        ensures { result ≡ self.now.counts }
    {
        self.counts
    }
}
