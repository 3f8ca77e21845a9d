// What a sealed worksheet says.
ghost use Rattle.std.specs.Prelude.{◌≡◌};

use super::Sealed;
use worksheet::Counts;

impl<R> Sealed<R> {
    pub fn counts(&self) -> Counts
        ensures { result ≡ self.now.builder.counts }
    {
        self.builder.counts()
    }

    pub fn capacity(&self) -> Counts
        ensures { result ≡ self.now.builder.capacity }
    {
        self.builder.capacity()
    }
}
