// The faults of reading: those of letters, and those of grammar.
ghost use Rattle.std.specs.Prelude.{◌≡◌};
ghost use Rattle.grammar.specs.declared.faults.ReadFault.TheVariants.{Letters, Grammar};
ghost use Rattle.grammar.specs.Faults.{grammar_number, grammar_place, read_part, read_number, read_place};

use letters::LettersFault;
use std::fmt;

/// The most bytes of a text.
pub const MOST_BYTES: usize = 1024;

/// The part of the compiler that met a fault.
#[derive(Clone, Copy, PartialEq, Eq, Debug)]
pub enum Part {
    Letters,
    Grammar,
    Forms,
}

impl fmt::Display for Part {
    fn fmt<W: fmt::Write>(&self, f: &mut fmt::Formatter<W>) -> fmt::Result {
        match self {
            Part::Letters => f.write_str("letters"),
            Part::Grammar => f.write_str("grammar"),
            Part::Forms => f.write_str("forms"),
        }
    }
}

/// Why the tokens of a text are no expression; each but the first with its place.
#[derive(Clone, Copy, PartialEq, Eq, Debug)]
pub enum GrammarFault {
    /// The text is longer than 1,024 bytes.
    TooLong,
    /// A token that may not stand there, or the end of the text.
    NotAllowed(usize),
    /// A word that the language does not have.
    UnknownWord(usize),
    /// A number outside its range.
    OutOfRange(usize),
    /// A call nested 17 deep.
    TooDeep(usize),
    /// A broken rule of `med`, `rank` or `weight`, at its word.
    BrokenRule(usize),
}

impl GrammarFault {
    /// The fault's number: 1, or from 3 to 7.
    pub fn number(self) -> u8
        ensures { result ≡ grammar_number self }
    {
        // By `match`: a variant that holds a place cannot be cast to its number.
        match self {
            GrammarFault::TooLong => 1,
            GrammarFault::NotAllowed(_) => 3,
            GrammarFault::UnknownWord(_) => 4,
            GrammarFault::OutOfRange(_) => 5,
            GrammarFault::TooDeep(_) => 6,
            GrammarFault::BrokenRule(_) => 7,
        }
    }

    /// The place of the fault, in bytes from 0.
    pub fn place(self) -> usize
        ensures { result ≡ grammar_place self }
    {
        match self {
            GrammarFault::TooLong => MOST_BYTES,
            GrammarFault::NotAllowed(at)
            | GrammarFault::UnknownWord(at)
            | GrammarFault::OutOfRange(at)
            | GrammarFault::TooDeep(at)
            | GrammarFault::BrokenRule(at) => at,
        }
    }
}

impl fmt::Display for GrammarFault {
    fn fmt<W: fmt::Write>(&self, f: &mut fmt::Formatter<W>) -> fmt::Result {
        match self {
            GrammarFault::TooLong => f.write_str(
                "the text is longer than 1,024 bytes; write a shorter one",
            ),
            GrammarFault::NotAllowed(_) => f.write_str(
                "this may not stand here; an argument, a comma or a bracket is missing or too many",
            ),
            GrammarFault::UnknownWord(_) => f.write_str(
                "no word of the language; it has max, min, after, erode, dilate, open, close, rank, med and weight",
            ),
            GrammarFault::OutOfRange(_) => f.write_str("the number is outside its range"),
            GrammarFault::TooDeep(_) => f.write_str("calls nest at most 16 deep"),
            GrammarFault::BrokenRule(_) => f.write_str(
                "a median has an odd number of cells, a rank or median at most nine, weights one to nine different cells, and a rank is at most what they count",
            ),
        }
    }
}

/// A fault of letters or of grammar.
#[derive(Clone, Copy, PartialEq, Eq, Debug)]
pub enum ReadFault {
    Letters(LettersFault),
    Grammar(GrammarFault),
}

impl ReadFault {
    /// The part that met the fault.
    pub fn part(self) -> Part
        ensures { result ≡ read_part self }
    {
        match self {
            ReadFault::Letters(_) => Part::Letters,
            ReadFault::Grammar(_) => Part::Grammar,
        }
    }

    /// The fault's number, from 1 to 7.
    pub fn number(self) -> u8
        ensures { result ≡ read_number self }
    {
        match self {
            ReadFault::Letters(fault) => fault.number(),
            ReadFault::Grammar(fault) => fault.number(),
        }
    }

    /// The place of the fault, in bytes from 0.
    pub fn place(self) -> usize
        ensures { result ≡ read_place self }
    {
        match self {
            ReadFault::Letters(fault) => fault.place,
            ReadFault::Grammar(fault) => fault.place(),
        }
    }
}

impl From<LettersFault> for ReadFault {
    ghost from_gives = { λ e r. r ≡ Letters e };

    fn from(fault: LettersFault) -> ReadFault {
        ReadFault::Letters(fault)
    }
}

impl From<GrammarFault> for ReadFault {
    ghost from_gives = { λ e r. r ≡ Grammar e };

    fn from(fault: GrammarFault) -> ReadFault {
        ReadFault::Grammar(fault)
    }
}
