// Windows, drawn for a person to read.
use comparing::WIDTH;
use forms::Cell;
use std::fmt;

// Draws a window: a line for each of its rows, with the mark of each cell. The marks stand in an array, so that a
// window is drawn with no memory to ask for.
pub(crate) fn draw<F: FnMut(Cell) -> char>(rt: &HostRuntime, mut mark: F) -> anyhow::Result<()>
    requires { (f : _) (cell : _) → F.pre f cell }
{
    let mut marks = ['.'; Cell::COUNT as usize];
    for (slot, cell) in marks
        .iter_mut()
        .zip((0..Cell::COUNT).filter_map(Cell::numbered))
    {
        *slot = mark(cell);
    }
    for row in marks.chunks_exact(WIDTH as usize) {
        println!(rt; "   {}", Row(row))?;
    }
    Ok(())
}

// The marks of a row, each behind a space.
#[derive(Clone, Copy)]
struct Row<'a>(&'a [char]);

impl fmt::Display for Row<'_> {
    fn fmt<W: fmt::Write>(&self, f: &mut fmt::Formatter<W>) -> fmt::Result {
        for mark in self.0 {
            write!(f, " {mark}")?;
        }
        Ok(())
    }
}
