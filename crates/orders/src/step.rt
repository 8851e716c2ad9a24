// A step: by its digit, inside a block, and as one number.

/// One step of the elimination loop: it works cell (i, j) with pivot k.
#[derive(Clone, Copy, PartialEq, Eq, Debug)]
pub struct Step {
    pub i: usize,
    pub j: usize,
    pub k: usize,
}

impl Step {
    // These stand in the impl, since the specs that they import name Step.
    ghost use Rattle.std.specs.Prelude.{◌≡◌, ◌<◌, ◌≤◌};
    ghost use Rattle.orders.specs.Lawful.{Within};
    ghost use Rattle.orders.specs.RecursiveOrder.{digit_step, placed};
    ghost use Rattle.orders.specs.Codes.{step_code};

    // The half of the rows, of the columns and of the pivots that a digit names: the four quarters
    // forward with the lower half of the pivots, then backward with the upper half.
    // The digit is a number, since the orders are defined by digits in base 8.
    pub(crate) fn of_digit(digit: usize) -> Step
        requires { digit < 8 }
        ensures { result ≡ digit_step digit }
    {
        match digit {
            0 => Step { i: 0, j: 0, k: 0 },
            1 => Step { i: 0, j: 1, k: 0 },
            2 => Step { i: 1, j: 0, k: 0 },
            3 => Step { i: 1, j: 1, k: 0 },
            4 => Step { i: 1, j: 1, k: 1 },
            5 => Step { i: 1, j: 0, k: 1 },
            6 => Step { i: 0, j: 1, k: 1 },
            _ => Step { i: 0, j: 0, k: 1 },
        }
    }

    // A step inside the block of so many sites that this step names. All are asked to be at most 64, so
    // that no number overflows.
    pub(crate) fn place(self, sites: usize, inside: Step) -> Step
        requires block { Within 64 self }
        requires sites { sites ≤ 64 }
        requires inside { Within 64 inside }
        ensures { result ≡ placed sites self inside }
    {
        Step {
            i: self.i * sites + inside.i,
            j: self.j * sites + inside.j,
            k: self.k * sites + inside.k,
        }
    }

    // The step as one number. No `From`, since it asks for numbers below 64.
    pub(crate) fn code(self) -> u32
        requires { Within 64 self }
        ensures { result ≡ step_code self }
    {
        ((self.i * 64 + self.j) * 64 + self.k) as u32
    }
}
