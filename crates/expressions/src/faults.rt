// The faults of compiling: those of letters, of grammar and of forms.
ghost use Rattle.std.specs.Prelude.{◌≡◌};
ghost use Rattle.expressions.specs.declared.faults.Fault.TheVariants.{Letters, Grammar, Forms};
ghost use Rattle.expressions.specs.Faults.{part_of, number_of, place_of, from_read};

use grammar::{GrammarFault, Part, ReadFault};
use letters::LettersFault;
use std::fmt;

/// Why forms were not joined, at the word of the call that joins them.
#[derive(Clone, Copy, PartialEq, Eq, Debug)]
pub struct FormsFault {
    pub fault: forms::Fault,
    pub place: usize,
}

/// Why a text has no form: a fault of the part that met it.
#[derive(Clone, Copy, PartialEq, Eq, Debug)]
pub enum Fault {
    Letters(LettersFault),
    Grammar(GrammarFault),
    Forms(FormsFault),
}

impl Fault {
    /// The part that met the fault.
    pub fn part(self) -> Part
        ensures { result ≡ part_of self }
    {
        match self {
            Fault::Letters(_) => Part::Letters,
            Fault::Grammar(_) => Part::Grammar,
            Fault::Forms(_) => Part::Forms,
        }
    }

    /// The fault's number, from 1 to 9.
    pub fn number(self) -> u8
        ensures { result ≡ number_of self }
    {
        match self {
            Fault::Letters(fault) => fault.number(),
            Fault::Grammar(fault) => fault.number(),
            Fault::Forms(fault) => fault.fault.number(),
        }
    }

    /// The place of the fault, in bytes from 0.
    pub fn place(self) -> usize
        ensures { result ≡ place_of self }
    {
        match self {
            Fault::Letters(fault) => fault.place,
            Fault::Grammar(fault) => fault.place(),
            Fault::Forms(fault) => fault.place,
        }
    }
}

impl From<ReadFault> for Fault {
    ghost from_gives = { λ e r. r ≡ from_read e };

    fn from(fault: ReadFault) -> Fault {
        match fault {
            ReadFault::Letters(fault) => Fault::Letters(fault),
            ReadFault::Grammar(fault) => Fault::Grammar(fault),
        }
    }
}

impl From<FormsFault> for Fault {
    ghost from_gives = { λ e r. r ≡ Forms e };

    fn from(fault: FormsFault) -> Fault {
        Fault::Forms(fault)
    }
}

impl fmt::Display for Fault {
    fn fmt<W: fmt::Write>(&self, f: &mut fmt::Formatter<W>) -> fmt::Result {
        match self {
            Fault::Letters(fault) => write!(f, "{fault}"),
            Fault::Grammar(fault) => write!(f, "{fault}"),
            Fault::Forms(fault) => write!(f, "{}", fault.fault),
        }
    }
}
