// The grammar of expressions: words, numbers in their ranges, cells and boxes, read from tokens.
#![tactic(auto)]

mod faults;
mod parts;
mod readers;
mod starts;
mod words;

pub use faults::{GrammarFault, MOST_BYTES, Part, ReadFault};
pub use readers::Reader;
pub use starts::Start;
pub use words::{Joint, Shape, Word};
