// A text with one of its places marked, as two lines that a terminal can show.
use std::fmt;

// The most bytes that are shown of a text, and the most before the place where it is longer.
const SHOWN: usize = 72;

const BEFORE: usize = 48;

const INDENT: &str = "    ";

// Stands for the bytes that are not shown.
const LEFT_OUT: &str = "..";

/// A text, and below it a caret under one of its places; of a long text only what is near the place.
/// A byte that is no printing character of ASCII is shown as `?`.
#[derive(Clone, Copy)]
pub struct Marked<'a> {
    pub text: &'a [u8],
    pub place: usize,
}

impl<'a> fmt::Display for Marked<'a> {
    fn fmt<W: fmt::Write>(&self, f: &mut fmt::Formatter<W>) -> fmt::Result {
        let front = if self.text.len() <= SHOWN {
            0
        } else {
            self.place.saturating_sub(BEFORE)
        };
        let back = front.saturating_add(SHOWN);
        f.write_str(INDENT)?;
        write_near(self.text, front, back, f)?;
        f.write_str("\n")?;
        f.write_str(INDENT)?;
        write_caret(front, self.place, f)
    }
}

// The bytes from one place up to another, and marks for what is left out on either side.
fn write_near<W: fmt::Write>(
    text: &[u8],
    front: usize,
    back: usize,
    f: &mut fmt::Formatter<W>,
) -> fmt::Result {
    if front > 0 {
        f.write_str(LEFT_OUT)?;
    }
    for byte in text.iter().take(back).skip(front) {
        write!(f, "{}", printing(*byte))?;
    }
    if text.len() > back {
        f.write_str(LEFT_OUT)?;
    }
    Ok(())
}

// A caret under a place, below a line that begins at `front`.
fn write_caret<W: fmt::Write>(
    front: usize,
    place: usize,
    f: &mut fmt::Formatter<W>,
) -> fmt::Result {
    if front > 0 {
        write!(f, "{:1$}", "", LEFT_OUT.len())?;
    }
    write!(f, "{:1$}^", "", place.saturating_sub(front))
}

// A byte as a character that a terminal can show.
fn printing(byte: u8) -> char {
    match byte {
        32..=126 => char::from(byte),
        _ => '?',
    }
}
