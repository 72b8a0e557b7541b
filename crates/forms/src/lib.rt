// Cells of the window, sets of cells, terms, and forms as their irredundant terms.
#![tactic(auto)]

mod faults;
mod form;
mod sets;
mod window;

pub use faults::Fault;
pub use form::{Form, MOST_TERMS};
pub use sets::{CellSet, Cells, Term};
pub use window::Cell;
