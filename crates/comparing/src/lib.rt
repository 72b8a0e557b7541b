// Comparing two texts: they have the same samples everywhere, or a witness shows where they differ.
#![tactic(auto)]

mod comparing;
mod comparison;
mod witness;

pub use comparing::compare;
pub use comparison::{CompareFault, Comparison, Side};
pub use witness::{HEIGHT, WIDTH, Witness};
