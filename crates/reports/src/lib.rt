// What is said of a text: its form, or why it is refused and where.
#![tactic(auto)]

mod lines;
mod places;
mod reports;

pub use lines::report_lines;
pub use places::Marked;
pub use reports::{Refusal, Report, StoredBytes};
