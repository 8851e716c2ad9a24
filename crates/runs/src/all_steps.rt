// The set of every step.
ghost use Rattle.std.specs.Prelude.{true};

use crate::update_set::UpdateSet;
use orders::step::Step;

/// Every step.
#[derive(Clone, Copy, PartialEq, Eq, Debug)]
pub struct AllSteps;

impl UpdateSet for AllSteps {
    ghost member = { λ _ _. true };

    fn has(&self, step: Step) -> bool {
        true
    }
}
