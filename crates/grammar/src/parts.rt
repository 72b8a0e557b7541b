// Reading the parts of calls: cells, the sides of boxes, weighed cells.
ghost use Rattle.std.specs.Prelude.{◌≡◌, ◌≤◌, OnErr, unsigned_abs};
ghost use Rattle.forms.specs.Window.{number_at};
ghost use Rattle.filters.specs.Boxes.{Sides};
ghost use Rattle.grammar.specs.Reading.{row_reach, column_reach, cell_of, sides_of, weighed_of};
ghost use Rattle.grammar.specs.Outcomes.{Reads};

use crate::faults::ReadFault;
use crate::readers::Reader;
use filters::Size;
use forms::Cell;
use letters::Sign;

// The farthest row and column of a cell from the middle.
const ROW_REACH: u16 = Cell::ROW_REACH as u16;

const COLUMN_REACH: u16 = Cell::COLUMN_REACH as u16;

// The most times that an element may be repeated.
const MOST_TIMES: u16 = 99;

impl Reader<'_> {
    /// Takes the row and the column of a cell and its closing bracket; the opening one is taken already.
    #[tactic(auto, unfolding(crate::specs::Reading::cell_of))]
    pub fn cell(&mut self) -> Result<Cell, ReadFault>
        ensures read { Reads (λ c. c) result self.new (cell_of self.old) }
        ensures err { OnErr result (self.new ≡ self.old) }
    {
        let mut ahead = self.fork();
        let row = ahead.offset(ROW_REACH)?;
        ahead.sign(Sign::Comma)?;
        let column = ahead.offset(COLUMN_REACH)?;
        ahead.sign(Sign::CloseSquare)?;
        *self = ahead;
        Ok(cell_at(row, column))
    }

    /// Takes the opening bracket and the sides of a box.
    #[tactic(auto, unfolding(crate::specs::Reading::sides_of))]
    pub fn sides(&mut self) -> Result<Size, ReadFault>
        ensures read { Reads (λ s. (s.height, s.width)) result self.new (sides_of self.old) }
        ensures err { OnErr result (self.new ≡ self.old) }
    {
        let mut ahead = self.fork();
        ahead.sign(Sign::OpenRound)?;
        let height = ahead.amount(1, u16::from(Size::TALLEST))?;
        ahead.sign(Sign::Comma)?;
        let width = ahead.amount(1, u16::from(Size::WIDEST))?;
        *self = ahead;
        Ok(size(height, width))
    }

    /// Takes a comma, a cell and how often it counts.
    #[tactic(auto, unfolding(crate::specs::Reading::weighed_of))]
    pub fn weighed(&mut self) -> Result<(Cell, u8), ReadFault>
        ensures read { Reads (λ x. record { cell = x.0; times = x.1 }) result self.new (weighed_of self.old) }
        ensures err { OnErr result (self.new ≡ self.old) }
    {
        let mut ahead = self.fork();
        ahead.sign(Sign::Comma)?;
        ahead.sign(Sign::OpenSquare)?;
        let cell = ahead.cell()?;
        ahead.sign(Sign::Star)?;
        let times = ahead.amount(1, MOST_TIMES)?;
        *self = ahead;
        Ok((cell, times as u8))
    }
}

// The cell at a row and a column of the window.
fn cell_at(row: i16, column: i16) -> Cell
    requires row { unsigned_abs row ≤ row_reach }
    requires column { unsigned_abs column ≤ column_reach }
    ensures { result ≡ number_at row column }
{
    Cell::new(row.into(), column.into()).unwrap()
}

// The box of sides that are in their ranges.
fn size(height: u16, width: u16) -> Size
    requires { Sides height width }
    ensures height { result.height ≡ height }
    ensures width { result.width ≡ width }
{
    Size::new(height as u8, width as u8).unwrap()
}
