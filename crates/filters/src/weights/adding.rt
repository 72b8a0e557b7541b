// Adding cells to weights, and reading them.
ghost use Rattle.std.specs.Prelude.{◌≡◌, ◌<◌, ◌≤◌, [], length};
ghost use Rattle.filters.specs.Basic.{most_cells, lacks, total as summed};
ghost use Rattle.filters.specs.Weights.{listed, Added};

use super::Weights;
use crate::weighed::Weighed;
use forms::Cell;
use std::fmt;
use tables::{Full, Table};

/// Why a cell was not added to weights.
#[derive(Clone, Copy, PartialEq, Eq, Debug)]
pub enum WeightsFault {
    /// `MOST_CELLS` cells stand already.
    Full,
    /// The cell stands already.
    Repeated,
}

impl From<Full> for WeightsFault {
    ghost use Rattle.filters.specs.declared.weights.adding.WeightsFault.TheVariants.{Full};

    ghost from_gives = { λ _ r. r ≡ Full };

    fn from(_full: Full) -> WeightsFault {
        WeightsFault::Full
    }
}

impl fmt::Display for WeightsFault {
    fn fmt<W: fmt::Write>(&self, f: &mut fmt::Formatter<W>) -> fmt::Result {
        match self {
            Self::Full => f.write_str("no more cells may be weighed"),
            Self::Repeated => f.write_str("the cell is weighed already"),
        }
    }
}

impl Weights {
    /// No cells.
    pub fn none() -> Weights
        ensures { listed result ≡ [] }
    {
        // Any cell fills a table of none.
        let Some(cell) = Cell::numbered(0) else {
            unreachable()
        };
        let table = Table::new(Weighed { cell, times: 0 });
        Weights { table }
    }

    /// Adds a cell whose element counts so often.
    /// Declined with `Full` where `MOST_CELLS` stand, and else with `Repeated` where this cell
    /// does; then nothing changes.
    pub fn add(&mut self, cell: Cell, times: u8) -> Result<(), WeightsFault>
        ensures { Added result cell times (listed self.old) (listed self.new) }
    {
        let mut table = self.table;
        table.push(Weighed { cell, times })?;
        if !self.lacks(cell) {
            return Err(WeightsFault::Repeated);
        }
        *self = Weights { table };
        Ok(())
    }

    // Whether the cell, which is one of the window, does not stand yet.
    fn lacks(&self, cell: Cell) -> bool
        ensures value { result ≡ lacks cell (listed self.now) }
        ensures window { cell < 63 }
    {
        let number = cell.number();
        self.as_slice()
            .iter()
            .all(|weighed| weighed.cell.number() != number)
    }

    // The sum of the times.
    pub(crate) fn total(&self) -> u16
        ensures { result ≡ summed (listed self.now) }
    {
        self.as_slice()
            .iter()
            .map(|weighed| u16::from(weighed.times))
            .sum()
    }

    // The cells and their times, in the order in which they were added.
    pub(crate) fn as_slice(&self) -> &[Weighed]
        ensures items { result.now ≡ listed self.now }
        ensures room { length (listed self.now) ≤ most_cells }
    {
        self.table.as_slice()
    }
}
