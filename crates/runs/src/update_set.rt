// Which steps are worked.
ghost use Rattle.std.specs.Prelude.{◌≡◌, Bool};
ghost use Rattle.orders.specs.declared.step.Step.{Step};

use orders::step::Step;

/// A set of steps.
// A trait, no closure: the theorems name the members, and a closure has no such name.
pub trait UpdateSet {
    ghost member: { Self → Step → Bool };

    /// Whether the step is in the set: yes exactly for its members.
    fn has(&self, step: Step) -> bool
        ensures { result ≡ member self.now step };
}
