// Expressions: compiling a text to its form.
#![tactic(auto)]

mod calls;
mod compiling;
mod faults;
mod joining;
mod leaves;
mod weighing;

pub use compiling::{MOST_DEEP, compile};
pub use faults::{Fault, FormsFault};
