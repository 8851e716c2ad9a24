// Two kinds side by side: each call answers part by part.
ghost use Rattle.kinds.specs.Pairs.{pairs};
ghost use Rattle.kinds.specs.PairsLemmas.{pairs_lawful};

use crate::cells::Beside;
use crate::kind::Kind;

impl<L: Kind, R: Kind> Kind for Beside<L, R> {
    ghost ops = { pairs L.ops R.ops };

    ghost lawful = { pairs_lawful L.lawful R.lawful };

    fn join(self, other: Beside<L, R>) -> Beside<L, R> {
        Beside {
            left: self.left.join(other.left),
            right: self.right.join(other.right),
        }
    }

    fn chain(self, other: Beside<L, R>) -> Beside<L, R> {
        Beside {
            left: self.left.chain(other.left),
            right: self.right.chain(other.right),
        }
    }

    fn none() -> Beside<L, R> {
        Beside {
            left: L::none(),
            right: R::none(),
        }
    }

    fn here() -> Beside<L, R> {
        Beside {
            left: L::here(),
            right: R::here(),
        }
    }

    fn equals(self, other: Beside<L, R>) -> bool {
        self.left.equals(other.left) && self.right.equals(other.right)
    }
}
