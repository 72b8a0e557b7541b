// The refusal of a read.
ghost use Rattle.std.specs.Prelude.{◌≡◌};
ghost use Rattle.sources.specs.Numbers.{read_number};

use std::fmt;

/// Why a read is declined.
#[derive(Clone, Copy, PartialEq, Eq, Debug)]
pub enum ReadRefusal {
    /// A place that is not readable.
    NotReadable = 20,
}

impl ReadRefusal {
    /// The number under which users know the refusal.
    pub fn number(self) -> u8
        ensures { result ≡ read_number self }
    {
        self as u8
    }
}

impl fmt::Display for ReadRefusal {
    fn fmt<W: fmt::Write>(&self, f: &mut fmt::Formatter<W>) -> fmt::Result {
        write!(
            f,
            "the place is not readable; read from minus the margin up to the side plus the margin"
        )
    }
}
