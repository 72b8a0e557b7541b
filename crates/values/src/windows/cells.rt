// The elements of a window, by cell.
ghost use Rattle.std.specs.Prelude.{◌≡◌};
ghost use Rattle.values.specs.Windows.{element_at, Filled, Changed};

use super::{CELLS, Window};
use forms::Cell;

impl<E: Copy> Window<E> {
    /// The window that has the element at every cell.
    pub fn filled(element: E) -> Window<E>
        ensures { Filled result element }
    {
        Window {
            all: [element; CELLS],
        }
    }

    /// The element at a cell.
    pub fn get(&self, cell: Cell) -> E
        ensures { (d : E) → result ≡ element_at self.now d cell }
    {
        self.all[usize::from(cell.number())]
    }

    /// Puts an element at a cell; the others stay.
    pub fn set(&mut self, cell: Cell, element: E)
        ensures { Changed self.old cell element self.new }
    {
        let number = usize::from(cell.number());
        self.all[number] = element;
    }
}
