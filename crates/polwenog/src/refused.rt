// Why a file is refused.
use std::fmt;

// The number under which users know the refusal, and what is wrong.
#[derive(Clone, Copy)]
pub(crate) struct Refused<R> {
    pub number: u8,
    pub reason: R,
}

impl<R: fmt::Display> fmt::Display for Refused<R> {
    fn fmt<W: fmt::Write>(&self, f: &mut fmt::Formatter<W>) -> fmt::Result {
        write!(f, "refused {}: {}", self.number, self.reason)
    }
}
