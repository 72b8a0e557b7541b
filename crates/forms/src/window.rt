// A cell of the window, by its row and its column.
ghost use Rattle.std.specs.Prelude.{◌≡◌, ◌<◌, ◌≤◌, true, false, IfSome, MatchOption, is_some, unsigned_abs};
ghost use Rattle.forms.specs.Window.{row_of, column_of, in_window, number_at, stays, added};

use std::marker::Model;

/// A cell: a row from -4 to 4 and a column from -3 to 3.
#[derive(Clone, Copy, PartialEq, Eq, Debug)]
pub struct Cell {
    pub(crate) number: u8,
}

// Clauses see a cell as its number.
impl Model for Cell {
    ghost use Rattle.std.specs.Prelude.{ℕ, ◌<◌};

    ghost Value = { ℕ };

    ghost view = { λ c. c.number };

    ghost invariant = { λ c. c.number < 63 };

    ghost inverse = { λ n. record { number = n } };
}

impl Cell {
    /// How many cells the window has.
    pub const COUNT: u8 = 63;

    /// The farthest row from the middle.
    pub const ROW_REACH: i32 = 4;

    /// The farthest column from the middle.
    pub const COLUMN_REACH: i32 = 3;

    /// The cell at a row and a column, or `None` outside the window.
    pub fn new(row: i32, column: i32) -> Option<Cell>
        ensures { MatchOption result (in_window row column ≡ false) (λ k. (in_window row column ≡ true) × (row_of k ≡ row) × (column_of k ≡ column)) }
    {
        if row < -4 || row > 4 || column < -3 || column > 3 {
            return None;
        }
        let number = ((row + 4) * 7 + (column + 3)) as u8;
        Some(Cell { number })
    }

    /// The cell with a number, or `None` from 63 on.
    pub fn numbered(number: u8) -> Option<Cell>
        ensures { MatchOption result (63 ≤ number) (λ k. k ≡ number) }
    {
        if number < Cell::COUNT {
            Some(Cell { number })
        } else {
            None
        }
    }

    /// The row, from -4 to 4.
    pub fn row(self) -> i32
        ensures value { result ≡ row_of self }
        ensures reach { unsigned_abs result ≤ 4 }
    {
        i32::from(self.number / 7) - 4
    }

    /// The column, from -3 to 3.
    pub fn column(self) -> i32
        ensures value { result ≡ column_of self }
        ensures reach { unsigned_abs result ≤ 3 }
    {
        i32::from(self.number % 7) - 3
    }

    /// The cell's number, (row + 4) * 7 + column + 3.
    pub fn number(self) -> u8
        ensures value { result ≡ self }
        ensures bound { result < 63 }
        ensures place { result ≡ number_at (row_of self) (column_of self) }
    {
        self.number
    }

    /// This cell plus another, by rows and by columns, or `None` outside the window.
    pub fn plus(self, other: Cell) -> Option<Cell>
        ensures inside { is_some result ≡ stays self other }
        ensures sum { IfSome result (λ k. k ≡ added self other) }
    {
        Cell::new(self.row() + other.row(), self.column() + other.column())
    }
}
