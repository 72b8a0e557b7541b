// A window of 63 elements, one for each cell.
ghost use Rattle.std.specs.Prelude.{◌≡◌, length};

use forms::Cell;

pub mod cells;
pub mod evaluation;
pub mod telling;

// How many cells the window has.
const CELLS: usize = Cell::COUNT as usize;

/// A window: an element for each cell.
#[derive(Drop)]
pub struct Window<E> {
    all: [E; CELLS],
    ghost size: { length all ≡ 63 },
}
