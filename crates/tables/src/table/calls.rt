// What can be asked of a table, and what can be added.
ghost use Rattle.std.specs.Prelude.{◌≡◌, ◌<◌, ◌≤◌, [], ◌∷◌, ◌++◌, length, take, drop, slice_set, OnOk, OnErr};
ghost use Rattle.tables.specs.Table.{items_of};

use super::Table;
use crate::full::Full;

impl<T: Copy, const N: usize> Table<T, N> {
    /// The table of no values; the filler does not count.
    pub fn new(filler: T) -> Table<T, N>
        ensures { items_of result ≡ [] }
    {
        Table {
            items: [filler; N],
            count: 0,
        }
    }

    /// The values, in order.
    pub fn as_slice(&self) -> &[T]
        ensures items { result.now ≡ items_of self.now }
        ensures room { length (items_of self.now) ≤ N }
    {
        &self.items[..self.count]
    }

    /// Puts a value in the place of the one at an index; where there is none, the table stays.
    pub fn set(&mut self, at: usize, value: T)
        ensures value { at < length (items_of self.old) → items_of self.new ≡ slice_set (items_of self.old) at value }
        ensures kept { length (items_of self.old) ≤ at → self.new ≡ self.old }
    {
        if at < self.count {
            self.items[at] = value;
        }
    }

    /// Leaves the first values, as many as a length says, or all where there are no more.
    pub fn truncate(&mut self, len: usize)
        ensures { items_of self.new ≡ take len (items_of self.old) }
    {
        self.count = self.count.min(len);
    }

    /// Puts a value behind the others; where N stand already, it is declined and the table stays.
    pub fn push(&mut self, value: T) -> Result<(), Full>
        ensures ok { OnOk result (items_of self.new ≡ items_of self.old ++ value ∷ []) }
        ensures room { OnOk result (length (items_of self.old) < N) }
        ensures full { OnErr result (length (items_of self.old) ≡ N) }
        ensures kept { OnErr result (self.new ≡ self.old) }
    {
        if self.count == N {
            return Err(Full);
        }
        self.items[self.count] = value;
        self.count += 1;
        Ok(())
    }

    /// Puts a value before the one at an index, or behind all where there is none; where N stand already, it
    /// is declined and the table stays.
    pub fn insert(&mut self, at: usize, value: T) -> Result<(), Full>
        ensures ok { OnOk result (items_of self.new ≡ take at (items_of self.old) ++ value ∷ drop at (items_of self.old)) }
        ensures room { OnOk result (length (items_of self.old) < N) }
        ensures full { OnErr result (length (items_of self.old) ≡ N) }
        ensures kept { OnErr result (self.new ≡ self.old) }
    {
        self.push(value)?;
        let end = self.count;
        let from = at.min(end - 1);
        let items = &mut self.items[..];
        items[from..end].rotate_right(1);
        Ok(())
    }
}
