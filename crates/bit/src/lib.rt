// The field of two elements: sum is exclusive or, and product is and.
#![tactic(auto)]

ghost use Rattle.std.specs.Prelude.{◌≡◌, Bool};
ghost use Rattle.bit.specs.Two.{two};

use ring::{Field, Ring};

#[derive(Clone, Copy, PartialEq, Eq)]
pub struct Bit {
    value: bool,
}

impl Bit {
    // `new`, as a public call by this name; a `From` would be its second name.
    pub fn new(value: bool) -> Bit
        ensures { result.value ≡ value }
    {
        Bit { value }
    }

    pub fn value(self) -> bool
        ensures { result ≡ self.value }
    {
        self.value
    }
}

impl Ring for Bit {
    ghost Member = { Bool };

    ghost algebra = { two };

    ghost means = { λ x. x.value };

    fn zero() -> Bit {
        Bit { value: false }
    }

    fn one() -> Bit {
        Bit { value: true }
    }

    fn add(self, other: Bit) -> Bit {
        Bit {
            value: self.value ^ other.value,
        }
    }

    fn negate(self) -> Bit {
        self // its own opposite
    }

    fn subtract(self, other: Bit) -> Bit {
        self.add(other)
    }

    fn multiply(self, other: Bit) -> Bit {
        Bit {
            value: self.value & other.value,
        }
    }

    fn equal(self, other: Bit) -> bool {
        self == other
    }
}

impl Field for Bit {
    fn inverse(self) -> Bit {
        self // its own inverse
    }
}

#[cfg(test)]
mod tests {
    use super::*;

    #[test]
    fn every_pair(rt: HostRuntime) {
        for (x, y) in [(false, false), (false, true), (true, false), (true, true)] {
            let (a, b) = (Bit::new(x), Bit::new(y));
            assert_eq!(rt; a.add(b).value(), x != y);
            assert_eq!(rt; a.subtract(b).value(), x != y);
            assert_eq!(rt; a.multiply(b).value(), x && y);
            assert_eq!(rt; a.equal(b), x == y);
            assert_eq!(rt; a.negate().value(), x);
            assert_eq!(rt; a.inverse().value(), x);
        }
        assert!(rt; !Bit::zero().value());
        assert!(rt; Bit::one().value());
    }
}
