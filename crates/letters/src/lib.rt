// The letters of an expression: a text as tokens, each with its place.
#![tactic(auto)]

mod faults;
mod scanning;
mod tokens;

pub use faults::LettersFault;
pub use scanning::next_token;
pub use tokens::{Found, Sign, Token};
