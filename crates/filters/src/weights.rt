// Cells and how often the element at each counts.
ghost use Rattle.std.specs.Prelude.{◌≡◌, true};
ghost use Rattle.tables.specs.Table.{items_of};
ghost use Rattle.filters.specs.Basic.{different};
ghost use Rattle.filters.specs.Truths.{Cells};

use crate::weighed::Weighed;
use tables::Table;

mod adding;

pub use adding::WeightsFault;

/// The most cells that may be weighed.
pub const MOST_CELLS: usize = 9;

/// Up to `MOST_CELLS` different cells, and how often the element at each counts.
#[derive(Clone, Copy)]
pub struct Weights {
    table: Table<Weighed, MOST_CELLS>,
    ghost apart: { different (items_of table) ≡ true },
    ghost cells: { ∥ Cells (items_of table) ∥₁ },
}
