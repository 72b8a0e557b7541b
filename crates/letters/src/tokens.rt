// Tokens: words, numbers and signs, each a part of the text with its place.

/// A sign of the expression language.
#[derive(Clone, Copy, PartialEq, Eq, Debug)]
pub enum Sign {
    OpenSquare,
    CloseSquare,
    OpenRound,
    CloseRound,
    Comma,
    Star,
}

impl Sign {
    ghost use Rattle.std.specs.Prelude.{◌≡◌};
    ghost use Rattle.letters.specs.Scanning.{sign_of};

    // The sign that a byte is.
    pub(crate) fn of(byte: u8) -> Option<Sign>
        ensures { result ≡ sign_of byte }
    {
        match byte {
            b'[' => Some(Sign::OpenSquare),
            b']' => Some(Sign::CloseSquare),
            b'(' => Some(Sign::OpenRound),
            b')' => Some(Sign::CloseRound),
            b',' => Some(Sign::Comma),
            b'*' => Some(Sign::Star),
            _ => None,
        }
    }
}

/// A token; a word is the part of the text where it stands.
#[derive(Clone, Copy)]
pub enum Token<'a> {
    /// A longest run of the letters a to z.
    Word(&'a [u8]),
    /// A number of one to three digits, perhaps with a minus.
    Number(i16),
    /// One of the six signs.
    Mark(Sign),
    /// The end of the text.
    End,
}

/// A token that was found: where it begins, and a place behind it from which the next one is found.
#[derive(Clone, Copy)]
pub struct Found<'a> {
    pub token: Token<'a>,
    pub place: usize,
    pub end: usize,
}
