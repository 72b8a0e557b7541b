// The refusal of a table.

/// A table has no room for one more value.
#[derive(Clone, Copy, PartialEq, Eq, Debug)]
pub struct Full;
