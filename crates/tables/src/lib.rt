// Tables: up to N values in order, in an array of their own, so that nothing is allocated.
#![tactic(auto)]

mod full;
mod table;

pub use full::Full;
pub use table::Table;
