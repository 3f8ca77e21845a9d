// What the library asks of a licensee's numbers: a commutative ring, and for division a field.
#![tactic(auto)]

ghost use Rattle.std.specs.Prelude.{◌≡◌, true};
ghost use Rattle.ring.specs.Algebra.{RingOn, FieldOf};

// Elements of a commutative ring. `Member` is the set that the ring names, `algebra` its laws, and each element means one member.
pub trait Ring: Copy {
    ghost Member: { Type 0 };

    ghost algebra: { RingOn Member };

    ghost means: { Self → Member };

    fn zero() -> Self
        ensures { means result ≡ algebra.nought };

    fn one() -> Self
        ensures { means result ≡ algebra.unit };

    fn add(self, other: Self) -> Self
        ensures { means result ≡ algebra.plus (means self) (means other) };

    fn negate(self) -> Self
        ensures { means result ≡ algebra.minus (means self) };

    fn subtract(self, other: Self) -> Self
        ensures { means result ≡ algebra.plus (means self) (algebra.minus (means other)) };

    fn multiply(self, other: Self) -> Self
        ensures { means result ≡ algebra.times (means self) (means other) };

    fn equal(self, other: Self) -> bool
        ensures yes { result ≡ true → means self ≡ means other }
        ensures no { means self ≡ means other → result ≡ true };
}

// A ring with inverses.
pub trait Field: Ring {
    fn inverse(self) -> Self
        ensures { (F : FieldOf Self.algebra) × (Self.means result ≡ F.inverse (Self.means self)) };
}
