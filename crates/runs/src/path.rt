// The rule of best paths.
ghost use Rattle.std.specs.Prelude.{◌≡◌};

use crate::rule::Rule;
use kinds::kind::Kind;
use std::marker::PhantomData;

/// Joins x with u chained to v, in any kind: the best of the route at hand and of the one over the
/// pivot.
#[derive(Clone, Copy, PartialEq, Eq, Debug)]
pub struct Path<V> {
    kind: PhantomData<V>,
}

impl<V> Path<V> {
    /// The path rule of the kind V, of which there is only one.
    pub fn new() -> Path<V>
        ensures { (rule : Path V) → result ≡ rule }
    {
        Path { kind: PhantomData }
    }
}

impl<V: Kind> Rule for Path<V> {
    type Cell = V;

    ghost means = { λ _ x u v w. V.ops.join x (V.ops.chain u v) };

    fn apply(&self, x: V, u: V, v: V, w: V) -> V {
        x.join(u.chain(v))
    }
}
