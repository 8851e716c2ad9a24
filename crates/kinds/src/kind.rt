// What a value kind is: a join, a chain, a none and a here that keep the laws, and a test for equality.
ghost use Rattle.std.specs.Prelude.{◌≡◌};
ghost use Rattle.kinds.specs.Kind.{Ops, Laws};

/// A type of values that routes are measured by. Its calls answer by `ops`, refuse nothing and
/// alter nothing.
// Not `Eq`: that would leave out each cell type without `==`, or with one that is coarser than the
// kind's equality.
pub trait Kind: Copy {
    // What the calls answer.
    ghost ops: { Ops Self };

    /// The better of two routes, or what both give together.
    fn join(self, other: Self) -> Self
        ensures { result ≡ ops.join self other };

    /// One route and then another.
    fn chain(self, other: Self) -> Self
        ensures { result ≡ ops.chain self other };

    /// No route.
    fn none() -> Self
        ensures { result ≡ ops.none };

    /// The route that stays where it is.
    fn here() -> Self
        ensures { result ≡ ops.here };

    /// Whether two values are equal.
    fn equals(self, other: Self) -> bool
        ensures { result ≡ ops.same self other };

    // What each kind shows, for all values.
    ghost lawful: { Laws ops };
}
