// Sources: whatever shows an element of one kind at each readable place.
#![tactic(auto)]

ghost use Rattle.std.specs.Prelude.{◌≡◌, length, Ok, Err};
ghost use Rattle.sources.specs.Meaning.{Meaning, Ranges, Readable, RowReadable, RowHolds};
ghost use Rattle.sources.specs.declared.refusal.ReadRefusal.TheVariants.{NotReadable};

use elements::Order;

mod extent;
mod refusal;

pub use extent::{Extent, nearest};
pub use refusal::ReadRefusal;

/// The longest side of a source, and its widest margin.
pub const LONGEST: u32 = 16_384;

/// How far outside its frame a source can be read that repeats its edges.
pub const EDGE_MARGIN: i32 = 32;

/// A frame of elements with a margin around it, read place by place or row by row.
pub trait Source {
    /// The kind of element that the source delivers.
    type Element: Order;

    // The sides, the margin, and the element at every whole-number place.
    ghost meaning: { Self → Meaning Self.Element };

    /// How many rows the frame has.
    fn height(&self) -> u32
        ensures { result ≡ (meaning self.now).height };

    /// How many columns the frame has.
    fn width(&self) -> u32
        ensures { result ≡ (meaning self.now).width };

    /// How far outside the frame places are readable; negative, how far inside it they are not.
    fn margin(&self) -> i32
        ensures { result ≡ (meaning self.now).margin };

    /// The sides and the margin together.
    fn extent(&self) -> Extent
        ensures height { result.height ≡ (meaning self.now).height }
        ensures width { result.width ≡ (meaning self.now).width }
        ensures margin { result.margin ≡ (meaning self.now).margin }
    {
        Extent {
            height: self.height(),
            width: self.width(),
            margin: self.margin(),
        }
    }

    /// The element at a readable place; declined at any other.
    fn read(&self, row: i32, column: i32) -> Result<Self::Element, ReadRefusal>
        ensures shown { Readable (meaning self.now) row column → result ≡ Ok ((meaning self.now).element row column) }
        ensures refused { (Readable (meaning self.now) row column → ⊥) → result ≡ Err NotReadable };

    /// Fills `out` with the elements of a row from the column `first` on; declined, with `out` as it
    /// was, where one of these places cannot be read.
    fn read_row(&self, row: i32, first: i32, out: &mut [Self::Element]) -> Result<(), ReadRefusal>
        ensures shown { RowReadable (meaning self.now) row first (length out.old) → result ≡ Ok (record {}) }
        ensures filled { RowReadable (meaning self.now) row first (length out.old) → RowHolds (meaning self.now) row first (length out.old) out.new }
        ensures refused { (RowReadable (meaning self.now) row first (length out.old) → ⊥) → (result ≡ Err NotReadable) × (out.new ≡ out.old) }
    {
        if !self.extent().holds_row(row, first, out.len()) {
            return Err(ReadRefusal::NotReadable);
        }
        for (i, slot) in out.iter_mut().enumerate() {
            *slot = self.read(row, first + i as i32)?;
        }
        Ok(())
    }

    ghost ranges: { (s : Self) → Ranges (meaning s) };
}
