// A witness as a source.
ghost use Rattle.std.specs.Prelude.{◌≡◌, ◌+◌, ◌*◌, ◌<◌};
ghost use Rattle.values.specs.Value.{marked};
ghost use Rattle.comparing.specs.Witness.{low_of, high_of, frame_of};
ghost use Rattle.std.proofs.Common.{rules};

use super::{HEIGHT, WIDTH, Witness};
use elements::Order;
use forms::Cell;
use sources::{EDGE_MARGIN, ReadRefusal, Source};

impl<K: Order> Witness<K> {
    // The element at a place of the frame.
    fn at(&self, row: u32, column: u32) -> K
        requires { (row < 9) × (column < 7) }
        ensures { result ≡ marked (low_of K.Order.most self.now) (high_of K.Order.most self.now) self.now.marks (row * 7 + column) }
    {
        let (low, high) = self.ends();
        match Cell::numbered((row * WIDTH + column) as u8) {
            Some(cell) if self.marks.contains(cell) => high,
            _ => low,
        }
    }
}

impl<K: Order> Source for Witness<K> {
    type Element = K;

    ghost meaning = { frame_of K.Order.most };

    ghost ranges = { Prim.search rules };

    fn height(&self) -> u32 {
        HEIGHT
    }

    fn width(&self) -> u32 {
        WIDTH
    }

    fn margin(&self) -> i32 {
        EDGE_MARGIN
    }

    fn read(&self, row: i32, column: i32) -> Result<K, ReadRefusal> {
        let (row, column) = self.extent().place(row, column)?;
        Ok(self.at(row, column))
    }
}
