// A cell with its weight.
use forms::Cell;

// A cell, and how often its element counts.
#[derive(Clone, Copy)]
pub(crate) struct Weighed {
    pub(crate) cell: Cell,
    pub(crate) times: u8,
}
