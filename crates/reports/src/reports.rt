// What compiling a text gave, as one line.
use expressions::Fault;
use forms::{Cell, Form, MOST_TERMS};
use std::fmt;
use stored::save;

// The bytes of a form with the most terms: 12 bits, and one for each cell of each term.
const MOST_BYTES: usize = (12 + MOST_TERMS * Cell::COUNT as usize + 7) / 8;

/// What compiling a text gave: `accepted`, the number of terms and the stored bytes, or `refused` and why.
#[derive(Clone, Copy)]
pub struct Report(pub Result<Form, Fault>);

impl fmt::Display for Report {
    fn fmt<W: fmt::Write>(&self, f: &mut fmt::Formatter<W>) -> fmt::Result {
        match self.0 {
            Ok(form) => write!(f, "accepted {} {}", form.len(), StoredBytes(form)),
            Err(fault) => write!(f, "{}", Refusal(fault)),
        }
    }
}

/// Why a text is refused: the fault's number, its place, the part that met it, and what is wrong.
#[derive(Clone, Copy)]
pub struct Refusal(pub Fault);

impl fmt::Display for Refusal {
    fn fmt<W: fmt::Write>(&self, f: &mut fmt::Formatter<W>) -> fmt::Result {
        let fault = self.0;
        write!(
            f,
            "refused {} at {} ({}): {fault}",
            fault.number(),
            fault.place(),
            fault.part()
        )
    }
}

/// The bytes that store a form, in hexadecimal.
#[derive(Clone, Copy)]
pub struct StoredBytes(pub Form);

impl fmt::Display for StoredBytes {
    fn fmt<W: fmt::Write>(&self, f: &mut fmt::Formatter<W>) -> fmt::Result {
        let mut bytes = [0; MOST_BYTES];
        let Ok(size) = save(&self.0, &mut bytes) else {
            return Err(fmt::Error);
        };
        for byte in bytes.iter().take(size) {
            write!(f, "{byte:02x}")?;
        }
        Ok(())
    }
}
