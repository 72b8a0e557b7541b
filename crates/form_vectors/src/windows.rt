// Windows of pixels.
use elements::Pixel;
use forms::Cell;
use values::Window;

// The window that has at each cell what is given for it, in the order of the cells.
pub(crate) fn window_of<F: FnMut(Cell) -> Pixel>(mut sample: F) -> Window<Pixel>
    requires { F.IsAlwaysCallable sample }
{
    let mut window = Window::filled(Pixel(0));
    for cell in (0..Cell::COUNT).filter_map(Cell::numbered) {
        window.set(cell, sample(cell));
    }
    window
}
