// Pixels: 16-bit samples, ordered by size.
ghost use Rattle.elements.specs.Kinds.{pixel_most};
ghost use Rattle.std.proofs.Common.{rules};

use crate::Order;
use std::fmt;

/// A sample of an image.
#[derive(Clone, Copy, PartialEq, Eq, PartialOrd, Ord, Debug)]
pub struct Pixel(pub u16);

impl Order for Pixel {
    ghost most = { pixel_most };

    ghost reflexive = { Prim.search rules };

    ghost total = { Prim.search rules };

    ghost antisymmetric = { Prim.search rules };

    ghost transitive = { Prim.search rules };

    fn at_most(self, other: Pixel) -> bool {
        self <= other
    }
}

impl fmt::Display for Pixel {
    fn fmt<W: fmt::Write>(&self, f: &mut fmt::Formatter<W>) -> fmt::Result {
        write!(f, "{}", self.0)
    }
}
