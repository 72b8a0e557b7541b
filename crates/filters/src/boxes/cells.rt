// Going through the cells of a box.
ghost use Rattle.std.specs.Prelude.{◌≡◌, ◌*◌, slice_get};
ghost use Rattle.std.specs.Iterator.{YieldsFirst, item_count};
ghost use Rattle.filters.specs.Boxes.{box};

use super::Size;
use forms::Cell;
use std::marker::Model;

impl Size {
    // How many cells the box has.
    pub(crate) fn count(self) -> u8
        ensures { result ≡ self.height * self.width }
    {
        self.height * self.width
    }

    // The box's cells, row by row.
    pub(crate) fn cells(self) -> BoxCells
        ensures { result ≡ box self.height self.width }
    {
        BoxCells {
            size: self,
            index: 0,
        }
    }

    // The box's cell with an index, row by row, or `None` from the number of cells on.
    fn cell(self, index: u8) -> Option<Cell>
        ensures { result ≡ slice_get (box self.height self.width) index }
    {
        if index >= self.count() {
            return None;
        }
        let row = 4 - self.height / 2 + index / self.width;
        let column = 3 - self.width / 2 + index % self.width;
        Cell::numbered(row * 7 + column)
    }
}

// The cells of a box from one with an index on.
#[derive(Drop)]
pub(crate) struct BoxCells {
    size: Size,
    index: u8,
}

// Clauses see the list of the cells to come.
impl Model for BoxCells {
    ghost use Rattle.std.specs.Prelude.{ℕ, List, drop};

    ghost Value = { List ℕ };

    ghost use Rattle.filters.specs.Boxes.{box};

    ghost view = { λ b. drop b.index (box b.size.height b.size.width) };
}

impl Iterator for BoxCells {
    type Item = Cell;

    ghost next_gives = { YieldsFirst (λ s. s) };

    ghost remaining = { item_count (λ s. s) };

    fn next(&mut self) -> Option<Cell> {
        let cell = self.size.cell(self.index)?;
        self.index += 1;
        Some(cell)
    }
}
