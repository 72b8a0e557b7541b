// Events: a 64-bit key and a 32-bit stamp, ordered by key, then by stamp.
ghost use Rattle.elements.specs.Kinds.{event_most};
ghost use Rattle.std.proofs.Common.{rules};

use crate::Order;
use std::fmt;

/// A record of a rig log.
#[derive(Clone, Copy, PartialEq, Eq, PartialOrd, Ord, Debug)]
pub struct Event {
    pub key: u64,
    pub stamp: u32,
}

impl Order for Event {
    ghost most = { event_most };

    ghost reflexive = { Prim.search rules };

    ghost total = { Prim.search rules };

    ghost antisymmetric = { Prim.search rules };

    ghost transitive = { Prim.search rules };

    fn at_most(self, other: Event) -> bool {
        self <= other
    }
}

impl fmt::Display for Event {
    fn fmt<W: fmt::Write>(&self, f: &mut fmt::Formatter<W>) -> fmt::Result {
        write!(f, "key {} stamp {}", self.key, self.stamp)
    }
}
