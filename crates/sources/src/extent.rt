// How far a source can be read: its sides and its margin.
ghost use Rattle.std.specs.Prelude.{◌≡◌, ℕ, ◌<◌, pos, ◌+ℤ◌, IsTrue, ◌↔◌, Ok, Err};
ghost use Rattle.sources.specs.Meaning.{Within, PlaceWithin, RowWithin};
ghost use Rattle.sources.specs.Edges.{nearest as nearest_place};
ghost use Rattle.sources.specs.declared.refusal.ReadRefusal.TheVariants.{NotReadable};

use crate::ReadRefusal;

/// The sides and the margin of a source.
#[derive(Clone, Copy, PartialEq, Eq, Debug)]
pub struct Extent {
    pub height: u32,
    pub width: u32,
    pub margin: i32,
}

impl Extent {
    /// Whether a place can be read.
    pub fn holds(self, row: i32, column: i32) -> bool
        ensures { IsTrue result ↔ PlaceWithin self.height self.width self.margin row column }
    {
        within(self.height, self.margin, row) && within(self.width, self.margin, column)
    }

    /// Whether `count` consecutive places of a row, from the column `first` on, can all be read.
    pub fn holds_row(self, row: i32, first: i32, count: usize) -> bool
        ensures { IsTrue result ↔ RowWithin self.height self.width self.margin row first count }
    {
        count == 0
            || within(self.height, self.margin, row) && spans(self.width, self.margin, first, count)
    }

    /// The row and the column of the frame that a place shows where edges are repeated; declined
    /// where the place cannot be read.
    pub fn place(self, row: i32, column: i32) -> Result<(u32, u32), ReadRefusal>
        ensures shown { PlaceWithin self.height self.width self.margin row column
            → result ≡ Ok (nearest_place self.height row, nearest_place self.width column) }
        ensures refused { (PlaceWithin self.height self.width self.margin row column → ⊥)
            → result ≡ Err NotReadable }
    {
        if !self.holds(row, column) {
            return Err(ReadRefusal::NotReadable);
        }
        Ok((nearest(self.height, row), nearest(self.width, column)))
    }

    /// The row of the frame that `count` consecutive places of a row show where edges are repeated;
    /// declined where one of them cannot be read.
    pub fn place_row(self, row: i32, first: i32, count: usize) -> Result<u32, ReadRefusal>
        ensures shown { RowWithin self.height self.width self.margin row first count
            → result ≡ Ok (nearest_place self.height row) }
        ensures refused { (RowWithin self.height self.width self.margin row first count → ⊥)
            → result ≡ Err NotReadable }
    {
        if !self.holds_row(row, first, count) {
            return Err(ReadRefusal::NotReadable);
        }
        Ok(nearest(self.height, row))
    }
}

// Whether a place along one axis can be read.
// By early returns: as one condition with `&&`, the proof of its second half was not found.
fn within(side: u32, margin: i32, at: i32) -> bool
    ensures { IsTrue result ↔ Within side margin at }
{
    let at = i64::from(at);
    let margin = i64::from(margin);
    if at < -margin {
        return false;
    }
    if at >= i64::from(side) + margin {
        return false;
    }
    true
}

// Whether `count` places along one axis can be read, of which there is one. By early returns, as `within`.
fn spans(side: u32, margin: i32, first: i32, count: usize) -> bool
    requires { 0 < count }
    ensures { IsTrue result ↔ ((k : ℕ) → k < count → Within side margin (first +ℤ pos k)) }
{
    if !within(side, margin, first) {
        return false;
    }
    let end = i128::from(first) + count as i128;
    if end > i128::from(side) + i128::from(margin) {
        return false;
    }
    true
}

/// The place along a side that is nearest to `at`: 0 before it, the last past its end.
pub fn nearest(side: u32, at: i32) -> u32
    ensures { result ≡ nearest_place side at }
{
    if at < 0 {
        return 0;
    }
    (at as u32).min(side.saturating_sub(1))
}
