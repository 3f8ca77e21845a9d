// How a worksheet is opened and sealed.
ghost use Rattle.std.specs.Prelude.{◌≡◌, MatchResult};
ghost use Rattle.refusal.specs.Number.{number_of};
ghost use Rattle.builder.specs.Cost.{counts as entries};
ghost use Rattle.builder.specs.Within.{Small};

use super::{Builder, Open, Sealed};
use refusal::Refusal;
use std::marker::PhantomData;
use worksheet::Counts;

impl<R> Open<R> {
    // An empty worksheet with room for so many entries.
    pub fn new(capacity: Counts) -> Result<Open<R>, Refusal>
        ensures { MatchResult result (λ o. Small capacity × (o.builder.capacity ≡ capacity) × (o.builder.counts ≡ entries 0 0 0 0)) (λ e. (number_of e ≡ 1) × (Small capacity → ⊥)) }
    {
        Ok(Open {
            builder: Builder::new(capacity)?,
            role: PhantomData,
        })
    }

    pub fn counts(&self) -> Counts
        ensures { result ≡ self.now.builder.counts }
    {
        self.builder.counts()
    }

    pub fn seal(self) -> Sealed<R>
        ensures { result.builder ≡ self.builder }
    {
        let Open { builder, .. } = self;
        Sealed {
            builder,
            role: PhantomData,
        }
    }
}
