// The size of a table.
ghost use Rattle.std.specs.Prelude.{◌≡◌, ◌+◌, ◌*◌, ◌^◌, ◌<◌, ◌≤◌, IfOk, IfSome, IsNone};
ghost use Rattle.std.specs.Result.{result_map_both};
ghost use Rattle.orders.specs.Size.{Sites, exponent_answer, site_count_answer};
ghost use Rattle.orders.specs.Order.{step_count};

use faults::LayoutFault;

/// The size of a table: 2^exponent sites, from 1 to 64.
#[derive(Clone, Copy, PartialEq, Eq, Debug)]
pub struct Size {
    exponent: u32,
    ghost small: { exponent ≤ 6 },
}

impl Size {
    /// The size of 2^exponent sites.
    /// Refused with number 4 above 6.
    pub fn new(exponent: u32) -> Result<Size, LayoutFault>
        ensures { result_map_both (λ s. s.exponent) (λ e. e) result ≡ exponent_answer exponent }
    {
        if exponent <= 6 {
            Ok(Size { exponent })
        } else {
            Err(LayoutFault::ExponentTooLarge)
        }
    }

    /// The exponent, from 0 to 6.
    pub fn exponent(self) -> u32
        ensures same { result ≡ self.exponent }
        ensures small { result ≤ 6 }
    {
        self.exponent
    }

    /// The number n of sites: 2^exponent, from 1 to 64.
    #[tactic(auto, using(crate::specs::Size::sites_most))]
    pub fn sites(self) -> usize
        ensures power { result ≡ 2 ^ self.exponent }
        ensures positive { 0 < result }
        ensures most { result ≤ 64 }
    {
        1 << self.exponent
    }

    /// The number of cells of a table: n².
    pub fn cells(self) -> usize
        ensures cells { result ≡ 2 ^ self.exponent * 2 ^ self.exponent }
        ensures most { result ≤ 4096 }
    {
        self.sites() * self.sites()
    }

    /// The number of steps of the elimination loop: n³.
    pub fn steps(self) -> usize
        ensures steps { result ≡ step_count (2 ^ self.exponent) }
        ensures most { result ≤ 262144 }
    {
        self.cells() * self.sites()
    }

    // Half as many sites, unless there is only one.
    pub(crate) fn half(self) -> Option<Size>
        ensures none { IsNone result → self.exponent ≡ 0 }
        ensures some { IfSome result (λ half. self.exponent ≡ half.exponent + 1) }
    {
        let exponent = self.exponent.checked_sub(1)?;
        Some(Size { exponent })
    }
}

/// The number of sites of an exponent: 2^exponent, from 1 to 64.
/// The same as `Size::new` and its sites, for callers that want the number alone.
/// Refused with number 4 above 6.
pub fn site_count(exponent: u32) -> Result<usize, LayoutFault>
    ensures answer { result ≡ site_count_answer exponent }
    ensures sites { IfOk result (Sites exponent) }
{
    Ok(Size::new(exponent)?.sites())
}
