// Why bytes are declined as an image or as a log.
ghost use Rattle.std.specs.Prelude.{◌≡◌};
ghost use Rattle.images.specs.Numbers.{image_number, log_number};

use std::fmt;

/// Why bytes are no image, in the order in which it is looked for.
#[derive(Clone, Copy, PartialEq, Eq, Debug)]
pub enum ImageRefusal {
    /// The bytes do not begin with `P5`.
    NotPgm = 21,
    /// The header is malformed, or ends early.
    MalformedHeader = 22,
    /// A side or the maximum is out of its range.
    OutOfRange = 23,
    /// The raster has too few or too many bytes.
    WrongLength = 24,
    /// A sample is above the maximum.
    AboveMaximum = 25,
}

/// Why bytes are no log.
#[derive(Clone, Copy, PartialEq, Eq, Debug)]
pub enum LogRefusal {
    /// No record, too many, or a part of one.
    NotRecords = 26,
}

impl ImageRefusal {
    /// The number under which users know the refusal.
    pub fn number(self) -> u8
        ensures { result ≡ image_number self }
    {
        self as u8
    }
}

impl LogRefusal {
    /// The number under which users know the refusal.
    pub fn number(self) -> u8
        ensures { result ≡ log_number self }
    {
        self as u8
    }
}

impl fmt::Display for ImageRefusal {
    fn fmt<W: fmt::Write>(&self, f: &mut fmt::Formatter<W>) -> fmt::Result {
        let text = match *self {
            ImageRefusal::NotPgm => "not a binary PGM; export the section as P5",
            ImageRefusal::MalformedHeader =>
                "the header is malformed or ends early; export the section again, without remarks",
            ImageRefusal::OutOfRange =>
                "a side is outside 1 to 16384 or the maximum outside 1 to 65535; export the section again, in shorter parts if it is long",
            ImageRefusal::WrongLength =>
                "too few or too many bytes for its sides; copy the file again",
            ImageRefusal::AboveMaximum =>
                "a sample is above the maximum; correct the maximum or export the section again",
        };
        f.write_str(text)
    }
}

impl fmt::Display for LogRefusal {
    fn fmt<W: fmt::Write>(&self, f: &mut fmt::Formatter<W>) -> fmt::Result {
        write!(
            f,
            "not 1 to 16384 whole records of 12 bytes; copy the file again or split it"
        )
    }
}
