// The basic filters as forms: erosion, dilation, opening, closing, ranks and weighted ranks.
#![tactic(auto)]

mod basic;
mod boxes;
mod ranks;
mod weighed;
mod weights;

pub use basic::{closing, dilation, erosion, opening};
pub use boxes::Size;
pub use ranks::{median, rank, weighted};
pub use weights::{MOST_CELLS, Weights, WeightsFault};
