// Why forms are not joined.
ghost use Rattle.std.specs.Prelude.{◌≡◌};
ghost use Rattle.forms.specs.Faults.{fault_number};

use std::fmt;
use tables::Full;

/// Why a form was not made.
#[derive(Clone, Copy, PartialEq, Eq, Debug)]
pub enum Fault {
    /// A form may not have so many terms.
    TooManyTerms = 8,
    /// A cell plus a cell lies outside the window.
    OutsideWindow = 9,
}

impl Fault {
    /// The fault's number, 8 or 9.
    pub fn number(self) -> u8
        ensures { result ≡ fault_number self }
    {
        self as u8
    }
}

impl From<Full> for Fault {
    ghost use Rattle.forms.specs.declared.faults.Fault.TheVariants.{TooManyTerms};

    ghost from_gives = { λ _ r. r ≡ TooManyTerms };

    fn from(_full: Full) -> Fault {
        Fault::TooManyTerms
    }
}

impl fmt::Display for Fault {
    fn fmt<W: fmt::Write>(&self, f: &mut fmt::Formatter<W>) -> fmt::Result {
        match self {
            Fault::TooManyTerms => f.write_str("the form would have too many terms"),
            Fault::OutsideWindow => f.write_str(
                "a cell of one form plus a cell of the other lies outside the window",
            ),
        }
    }
}
