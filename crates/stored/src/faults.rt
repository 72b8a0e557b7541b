// Why a form is not saved, or not loaded.
ghost use Rattle.std.specs.Prelude.{◌≡◌};
ghost use Rattle.stored.specs.Outcomes.{load_number, save_number};

use std::fmt;

/// Why a form was not saved.
#[derive(Clone, Copy, PartialEq, Eq, Debug)]
pub enum SaveFault {
    /// The buffer has fewer bytes than the form takes.
    BufferTooShort = 16,
}

impl SaveFault {
    /// The fault's number, 16.
    pub fn number(self) -> u8
        ensures { result ≡ save_number self }
    {
        self as u8
    }
}

/// Why bytes are not a stored form.
#[derive(Clone, Copy, PartialEq, Eq, Debug)]
pub enum LoadFault {
    /// There are fewer than 2 bytes, or the version is not 1.
    NotVersionOne = 11,
    /// The length is not that of the term count.
    WrongLength = 12,
    /// The bits behind the last term are not all zero.
    FillingNotZero = 13,
    /// The first term is empty, or a later one is not above the one before it.
    NotAscending = 14,
    /// A term is inside another.
    TermInsideAnother = 15,
}

impl LoadFault {
    /// The fault's number, from 11 to 15.
    pub fn number(self) -> u8
        ensures { result ≡ load_number self }
    {
        self as u8
    }
}

impl fmt::Display for SaveFault {
    fn fmt<W: fmt::Write>(&self, f: &mut fmt::Formatter<W>) -> fmt::Result {
        match self {
            SaveFault::BufferTooShort => {
                f.write_str("the buffer is too short for the form; lend a longer one")
            }
        }
    }
}

impl fmt::Display for LoadFault {
    fn fmt<W: fmt::Write>(&self, f: &mut fmt::Formatter<W>) -> fmt::Result {
        f.write_str(match self {
            LoadFault::NotVersionOne => "not a stored form of version 1; check which file this is",
            LoadFault::WrongLength =>
                "too few or too many bytes for its terms; copy the file again",
            LoadFault::FillingNotZero => "bits past the last term are set; save the form again",
            LoadFault::NotAscending => "an empty term, or terms out of order; save the form again",
            LoadFault::TermInsideAnother => "a term is inside another; save the form again",
        })
    }
}
