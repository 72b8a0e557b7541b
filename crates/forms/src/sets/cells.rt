// Going through the cells of a set.
ghost use Rattle.std.specs.Prelude.{◌≡◌};
ghost use Rattle.std.specs.Iterator.{YieldsFirst, item_count};
ghost use Rattle.forms.specs.Sets.{cells};

use crate::sets::CellSet;
use crate::window::Cell;
use std::marker::Model;

/// The cells of a set that are still to come, ascending.
#[derive(Drop, Debug)]
pub struct Cells {
    rest: CellSet,
}

// Clauses see the list of the cells to come.
impl Model for Cells {
    ghost use Rattle.std.specs.Prelude.{ℕ, List};

    ghost Value = { List ℕ };

    ghost use Rattle.forms.specs.Sets.{cells};

    ghost view = { λ s. cells s.rest };
}

impl Cells {
    // All cells of a set.
    pub(super) fn of(set: CellSet) -> Cells
        ensures { result ≡ cells set }
    {
        Cells { rest: set }
    }
}

impl Iterator for Cells {
    type Item = Cell;

    ghost next_gives = { YieldsFirst (λ s. s) };

    ghost remaining = { item_count (λ s. s) };

    fn next(&mut self) -> Option<Cell> {
        let (cell, others) = self.rest.split_first()?;
        self.rest = others;
        Some(cell)
    }
}
