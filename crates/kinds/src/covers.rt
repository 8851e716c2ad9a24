// When one value makes another needless.
ghost use Rattle.std.specs.Prelude.{◌≡◌, Decides};
ghost use Rattle.kinds.specs.Kind.{Covers};
ghost use Rattle.kinds.specs.Covering.{Covering};

use crate::kind::Kind;

/// Whether `a` covers `b`: `a` joined with `b` is `a`. In every kind that is an order which join and
/// chain respect.
pub fn covers<V: Kind>(a: V, b: V) -> bool
    ensures answer { result ≡ V.ops.same (V.ops.join a b) a }
    ensures decides { Decides result (Covers V.ops a b) }
    ensures order { Covering V.ops }
{
    a.join(b).equals(a)
}
