// Boxes: rows and columns around the middle cell.
ghost use Rattle.std.specs.Prelude.{◌≡◌, MatchOption};
ghost use Rattle.filters.specs.Boxes.{Sides};

mod cells;

/// The sides of a box: 1 to 9 rows, 1 to 7 columns.
#[derive(Clone, Copy, PartialEq, Eq, Debug)]
pub struct Size {
    height: u8,
    width: u8,
    ghost sides: { Sides height width },
}

impl Size {
    /// The most rows that a box may have.
    pub const TALLEST: u8 = 9;

    /// The most columns that a box may have.
    pub const WIDEST: u8 = 7;

    /// The sides of a box, or `None` where a box may not have them.
    pub fn new(height: u8, width: u8) -> Option<Size>
        ensures { MatchOption result (¬ Sides height width)
            (λ s. Sides height width × (s.height ≡ height) × (s.width ≡ width)) }
    {
        if height == 0 || height > Size::TALLEST || width == 0 || width > Size::WIDEST {
            return None;
        }
        Some(Size { height, width })
    }

    /// How many rows the box has.
    pub fn height(self) -> u8
        ensures value { result ≡ self.height }
        ensures sides { Sides self.height self.width }
    {
        self.height
    }

    /// How many columns the box has.
    pub fn width(self) -> u8
        ensures value { result ≡ self.width }
        ensures sides { Sides self.height self.width }
    {
        self.width
    }
}
