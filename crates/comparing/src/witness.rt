// A frame of two elements.
ghost use Rattle.std.specs.Prelude.{◌≡◌};
ghost use Rattle.comparing.specs.Witness.{low_of, high_of};

use elements::Order;
use forms::CellSet;

mod sampling;
mod source;

/// How many rows a witness has: those of the window.
pub const HEIGHT: u32 = 9;

/// How many columns a witness has: those of the window.
pub const WIDTH: u32 = 7;

/// A frame as large as the window, with the greater of two elements on the cells of a set and the
/// lesser elsewhere. Its edges are repeated.
#[derive(Clone, Copy)]
pub struct Witness<K> {
    first: K,
    second: K,
    marks: CellSet,
}

impl<K: Order> Witness<K> {
    // The lesser and the greater of the two elements.
    fn ends(&self) -> (K, K)
        ensures low { result.0 ≡ low_of K.Order.most self.now }
        ensures high { result.1 ≡ high_of K.Order.most self.now }
    {
        let (a, b) = (self.first, self.second);
        if a.at_most(b) { (a, b) } else { (b, a) }
    }
}
