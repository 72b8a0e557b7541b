// Forms as stored bytes: 4 bits of version, 8 bits of the term count less 1, 63 bits for each term, and zero bits to the byte's end.
#![tactic(auto)]

mod bits;
mod faults;
mod layout;
mod loading;
mod saving;

pub use faults::{LoadFault, SaveFault};
pub use loading::load;
pub use saving::save;
