// What a call answers where it refuses: one enum for each party that can be at fault.
// A case is what a call answers; its number is given by a definition in specs/, and `number` is
// proved to answer by it. Here so far: who posts links, and who lays out memory.
#![tactic(auto)]

ghost use Rattle.std.specs.Prelude.{◌≡◌};
ghost use Rattle.faults.specs.Numbers.{layout_number, link_number};

use thiserror::Error;

/// The faults of whoever posts links: the sites and links that a board is asked about.
#[derive(Clone, Copy, PartialEq, Eq, Debug, Error)]
pub enum LinkFault {
    /// A site not below the number of sites.
    #[error("a site is outside the table")]
    SiteOutside = 1,
    /// A link from a site to itself.
    #[error("a link leads from a site to itself")]
    SameSite = 2,
    /// No link to withdraw.
    #[error("there is no link to withdraw")]
    NoLink = 3,
}

impl LinkFault {
    /// The number of the fault: 1 for a site, 2 for the same site twice, 3 for no link.
    // Each party has an enum of its own, so `number` stands in both; no `From`, since `u8::from(fault)`
    // would not say which number.
    pub fn number(self) -> u8
        ensures { result ≡ link_number self }
    {
        self as u8 // 1 to 3
    }
}

/// The faults of whoever lays out memory: tables, lists and sizes.
#[derive(Clone, Copy, PartialEq, Eq, Debug, Error)]
pub enum LayoutFault {
    /// An exponent above 6.
    #[error("the exponent is above 6")]
    ExponentTooLarge = 4,
    /// A size that does not fit: a run's table that has not n² cells, a code list under n³ cells, a
    /// board's ground under 2·n² cells.
    #[error("a table, list or ground has the wrong size")]
    SizeMismatch = 5,
}

impl LayoutFault {
    /// The number of the fault: 4 for the exponent, 5 for a size.
    // Each party has an enum of its own, so `number` stands in both; no `From`, since `u8::from(fault)`
    // would not say which number.
    pub fn number(self) -> u8
        ensures { result ≡ layout_number self }
    {
        self as u8 // 4 or 5
    }
}
