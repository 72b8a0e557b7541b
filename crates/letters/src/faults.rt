// The fault of letters: bytes that are no token.
ghost use Rattle.std.specs.Prelude.{◌≡◌};

use std::fmt;

/// What stands at a place is no token.
#[derive(Clone, Copy, PartialEq, Eq, Debug)]
pub struct LettersFault {
    pub place: usize,
}

impl LettersFault {
    /// The fault's number, 2.
    pub fn number(self) -> u8
        ensures { result ≡ 2 }
    {
        2
    }
}

impl fmt::Display for LettersFault {
    fn fmt<W: fmt::Write>(&self, f: &mut fmt::Formatter<W>) -> fmt::Result {
        f.write_str(
            "no word, number or sign of the language; numbers have one to three digits and no zero in front",
        )
    }
}
