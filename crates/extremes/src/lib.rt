// The lowest and the highest element of a frame, each with the first place where it is shown.
#![tactic(auto)]

ghost use Rattle.std.specs.Prelude.{◌≡◌, ◌/◌, ◌%◌, ◌<◌, length};
ghost use Rattle.extremes.specs.First.{Answered, Scratch};

use lead::{Lead, Leaders, scan};
use sources::Source;

mod lead;

/// An element and the place where it is shown.
#[derive(Clone, Copy)]
pub struct Found<E> {
    pub element: E,
    pub row: u32,
    pub column: u32,
}

/// The lowest and the highest element of a frame.
#[derive(Clone, Copy)]
pub struct Extremes<E> {
    pub lowest: Found<E>,
    pub highest: Found<E>,
}

// A leader by its row and its column.
fn place_of<E: Copy>(lead: Lead<E>, width: u32) -> Found<E>
    requires { 0 < width }
    ensures { result ≡ record { element = lead.element; row = lead.index / width; column = lead.index % width } }
{
    Found {
        element: lead.element,
        row: lead.index / width,
        column: lead.index % width,
    }
}

/// The lowest and the highest element of a frame, each with its first place in reading order.
/// `scratch` is lent for the rows and holds the last one afterwards; none where it is not as wide as
/// the frame, or where the margin is negative, so that the frame's edges cannot be read.
pub fn find_extremes<S: Source>(
    source: &S,
    scratch: &mut [S::Element],
) -> Option<Extremes<S::Element>>
    ensures scratch { Scratch (S.Source.meaning source.now) scratch.old scratch.new result }
    ensures answer { Answered S.Element.Order.most (S.Source.meaning source.now) (length scratch.old) result }
{
    let width = source.width();
    if scratch.len() != width as usize {
        return None;
    }
    let element = source.read(0, 0).ok()?;
    let start = Lead { element, index: 0 };
    let mut leaders = Leaders {
        low: start,
        high: start,
    };
    // By number: a source fills a buffer with a row, and has no rows to iterate.
    for row in 0..source.height() {
        source.read_row(row as i32, 0, scratch).ok()?;
        leaders = scan(scratch, row * width, leaders);
    }
    Some(Extremes {
        lowest: place_of(leaders.low, width),
        highest: place_of(leaders.high, width),
    })
}
