ghost use Rattle.std.specs.Prelude.{◌≡◌, ℕ};
ghost use Rattle.scale.specs.Scales.{IsCode, IsScale, Operations};

/// A scale of degrees, by the type of its degrees: how much two things are alike. `==` is its exact test of equality.
pub trait Scale: Copy + Eq {
    ghost operations: { Operations Self };

    /// Wholly alike.
    fn top() -> Self
        ensures { result ≡ operations.top };

    /// Not alike at all.
    fn bottom() -> Self
        ensures { result ≡ operations.bottom };

    /// The greatest degree that is at most both.
    fn meet(self, other: Self) -> Self
        ensures { result ≡ operations.meet self other };

    /// The degree that the number is the code of, if any.
    fn from_code(code: u16) -> Option<Self>
        ensures { result ≡ operations.decoded code };

    ghost lawful: { IsScale operations };

    ghost equal: { (d e : Self) → Self.eq d e ≡ operations.same d e };
}

/// A scale each of whose degrees has one code, the inverse of `from_code`.
pub trait Coded: Scale {
    ghost number: { Self → ℕ };

    /// The code of the degree.
    fn code(self) -> u16
        ensures value { result ≡ number self }
        ensures laws { (d : Self) → IsCode Self.Scale.operations d (number d) };
}
