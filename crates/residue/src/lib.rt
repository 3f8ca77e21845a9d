// The field of the residues modulo the prime 8,191. The modulus is no parameter: at 1 zero would be one, and a const
// parameter has no bound.
#![tactic(auto)]

ghost use Rattle.std.specs.Prelude.{◌≡◌, ◌%◌, ◌<◌, T, Some, decimal};
ghost use Rattle.std.proofs.Common.{lit<};
ghost use Rattle.ring.specs.Algebra.{FieldOf};
ghost use Rattle.ring.specs.Inverses.{inverts};
ghost use Rattle.ring.specs.Modular.{Class, class_of, modular};

use inverses::INVERSES;
use ring::{Field, Ring};
use std::fmt;

mod inverses;

#[derive(Clone, Copy, PartialEq, Eq)]
pub struct Residue {
    value: u16,
    ghost below: { value < 8191 },
}

const MODULUS: u32 = 8191;

impl Residue {
    // The remainder of `number`. Many numbers make one residue, so this is no `From`.
    pub fn new(number: u32) -> Residue
        ensures { result.value ≡ number % 8191 }
    {
        Residue {
            value: (number % MODULUS) as u16,
        }
    }

    pub fn value(self) -> u16
        ensures { result ≡ self.value }
    {
        self.value
    }
}

#[tactic(auto, using(ring::proofs::Modular::classes))]
impl Ring for Residue {
    ghost Member = { Class 8191 };

    ghost algebra = { modular 8191 (lit< tt) };

    ghost means = { λ x. class_of 8191 x.value };

    fn zero() -> Residue {
        Residue { value: 0 }
    }

    fn one() -> Residue {
        Residue { value: 1 }
    }

    fn add(self, other: Residue) -> Residue {
        Residue::new(self.value as u32 + other.value as u32)
    }

    fn negate(self) -> Residue {
        Residue::new(MODULUS - self.value as u32)
    }

    fn subtract(self, other: Residue) -> Residue {
        Residue::new(self.value as u32 + (MODULUS - other.value as u32))
    }

    fn multiply(self, other: Residue) -> Residue {
        Residue::new(self.value as u32 * other.value as u32)
    }

    fn equal(self, other: Residue) -> bool {
        self == other
    }
}

impl Field for Residue {
    fn inverse(self) -> Residue {
        look_up(&INVERSES, self)
    }
}

// The entry of a table of inverses at the place of `of`.
#[tactic(auto, using(ring::proofs::Inverses::entry_below))]
fn look_up(table: &[u16; 8191], of: Residue) -> Residue
    requires { T (inverts 8191 table.now) }
    ensures { (F : FieldOf (modular 8191 (lit< tt))) × (class_of 8191 result.value ≡ F.inverse (class_of 8191 of.value)) }
{
    Residue {
        value: table[of.value as usize],
    }
}

impl fmt::Display for Residue {
    ghost output = { λ x. Some (decimal x.value) };

    fn fmt<W: fmt::Write>(&self, f: &mut fmt::Formatter<W>) -> fmt::Result {
        write!(f, "{}", self.value)
    }
}

#[cfg(test)]
mod tests {
    use super::*;

    #[test]
    fn remainders(rt: HostRuntime) {
        assert_eq!(rt; Residue::zero().value(), 0);
        assert_eq!(rt; Residue::one().value(), 1);
        assert_eq!(rt; Residue::new(8190).value(), 8190);
        assert_eq!(rt; Residue::new(8191).value(), 0);
        assert_eq!(rt; Residue::new(u32::MAX).value(), 63);
    }

    #[test]
    fn sums_and_products(rt: HostRuntime) {
        let last = Residue::new(8190);
        assert_eq!(rt; last.add(Residue::one()).value(), 0);
        assert_eq!(rt; last.multiply(last).value(), 1);
        assert_eq!(rt; Residue::zero().negate().value(), 0);
        assert_eq!(rt; Residue::one().negate().value(), 8190);
        assert_eq!(rt; Residue::zero().subtract(Residue::one()).value(), 8190);
        assert!(rt; last.equal(Residue::new(16381)));
        assert!(rt; !last.equal(Residue::zero()));
    }

    #[test]
    fn inverses(rt: HostRuntime) {
        assert_eq!(rt; Residue::zero().inverse().value(), 0);
        assert_eq!(rt; Residue::one().inverse().value(), 1);
        assert_eq!(rt; Residue::new(2).inverse().value(), 4096);
        assert_eq!(rt; Residue::new(8190).inverse().value(), 8190);
    }
}
