// The value of a form over a window of elements, for every kind of element.
#![tactic(auto)]

mod windows;

pub use windows::Window;
pub use windows::evaluation::value;
pub use windows::telling::telling_window;
