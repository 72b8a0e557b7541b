// Images and logs: the files of the line camera and of the rigs, as sources.
#![tactic(auto)]

mod declined;
mod header;
mod image;
mod log;
mod raster;
mod reading;
mod refusal;
mod rows;
mod span;

pub use declined::Declined;
pub use header::Header;
pub use image::Image;
pub use log::Log;
pub use refusal::{ImageRefusal, LogRefusal};
pub use sources::EDGE_MARGIN;
