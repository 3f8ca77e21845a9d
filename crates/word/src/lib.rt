// The ring of the 64-bit words, whose sums and products wrap.
#![tactic(auto)]

ghost use Rattle.std.specs.Prelude.{◌≡◌, ◌^◌};
ghost use Rattle.std.proofs.Common.{lit<};
ghost use Rattle.ring.specs.Modular.{Class, class_of, modular};

use ring::Ring;

#[derive(Clone, Copy, PartialEq, Eq)]
pub struct Word {
    value: u64,
}

impl Word {
    // `new`, as a public call by this name; a `From` would be its second name.
    pub fn new(value: u64) -> Word
        ensures { result.value ≡ value }
    {
        Word { value }
    }

    pub fn value(self) -> u64
        ensures { result ≡ self.value }
    {
        self.value
    }
}

#[tactic(auto, using(ring::proofs::Modular::classes))]
impl Ring for Word {
    ghost Member = { Class (2 ^ 64) };

    ghost algebra = { modular (2 ^ 64) (lit< tt) };

    ghost means = { λ x. class_of (2 ^ 64) x.value };

    fn zero() -> Word {
        Word { value: 0 }
    }

    fn one() -> Word {
        Word { value: 1 }
    }

    fn add(self, other: Word) -> Word {
        Word {
            value: self.value.wrapping_add(other.value),
        }
    }

    fn negate(self) -> Word {
        Word {
            value: self.value.wrapping_neg(),
        }
    }

    fn subtract(self, other: Word) -> Word {
        Word {
            value: self.value.wrapping_sub(other.value),
        }
    }

    fn multiply(self, other: Word) -> Word {
        Word {
            value: self.value.wrapping_mul(other.value),
        }
    }

    fn equal(self, other: Word) -> bool {
        self == other
    }
}

#[cfg(test)]
mod tests {
    use super::*;

    #[test]
    fn wraps(rt: HostRuntime) {
        let last = Word::new(u64::MAX);
        assert_eq!(rt; last.add(Word::one()).value(), 0);
        assert_eq!(rt; last.multiply(last).value(), 1);
        assert_eq!(rt; Word::zero().negate().value(), 0);
        assert_eq!(rt; Word::one().negate().value(), u64::MAX);
        assert_eq!(rt; Word::zero().subtract(Word::one()).value(), u64::MAX);
        assert!(rt; last.equal(Word::new(u64::MAX)));
        assert!(rt; !last.equal(Word::zero()));
    }
}
