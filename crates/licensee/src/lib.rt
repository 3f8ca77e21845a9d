// A ring of a licensee's own: the hours of a clock, which are the residues modulo 12. It is written from `Ring`
// alone, as a licensee's is, and shares no code with the library's residues.
#![tactic(auto)]

ghost use Rattle.std.specs.Prelude.{◌≡◌, ◌%◌, ◌<◌};
ghost use Rattle.std.proofs.Common.{lit<};
ghost use Rattle.ring.specs.Modular.{Class, class_of, modular};

use ring::Ring;

#[derive(Clone, Copy, PartialEq, Eq)]
pub struct Hour {
    value: u8,
    ghost below: { value < 12 },
}

const HOURS: u8 = 12;

impl Hour {
    // The remainder of `number`. Many numbers make one hour, so this is no `From`.
    pub fn new(number: u8) -> Hour
        ensures { result.value ≡ number % 12 }
    {
        Hour {
            value: number % HOURS,
        }
    }

    pub fn value(self) -> u8
        ensures { result ≡ self.value }
    {
        self.value
    }
}

#[tactic(auto, using(ring::proofs::Modular::classes))]
impl Ring for Hour {
    ghost Member = { Class 12 };

    ghost algebra = { modular 12 (lit< tt) };

    ghost means = { λ x. class_of 12 x.value };

    fn zero() -> Hour {
        Hour { value: 0 }
    }

    fn one() -> Hour {
        Hour { value: 1 }
    }

    fn add(self, other: Hour) -> Hour {
        Hour::new(self.value + other.value)
    }

    fn negate(self) -> Hour {
        Hour::new(HOURS - self.value)
    }

    fn subtract(self, other: Hour) -> Hour {
        Hour::new(self.value + (HOURS - other.value))
    }

    fn multiply(self, other: Hour) -> Hour {
        Hour::new(self.value * other.value)
    }

    fn equal(self, other: Hour) -> bool {
        self == other
    }
}

#[cfg(test)]
mod tests {
    use super::*;

    #[test]
    fn round_the_clock(rt: HostRuntime) {
        let last = Hour::new(255).add(Hour::new(8));
        assert_eq!(rt; last.value(), 11);
        assert_eq!(rt; last.add(Hour::one()).value(), 0);
        assert_eq!(rt; last.multiply(last).value(), 1);
        assert_eq!(rt; Hour::zero().negate().value(), 0);
        assert_eq!(rt; Hour::one().subtract(Hour::new(3)).value(), 10);
        assert_eq!(rt; Hour::new(3).multiply(Hour::new(4)).value(), 0);
        assert!(rt; last.equal(Hour::new(23)));
    }
}
