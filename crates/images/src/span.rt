// Where the columns of a row lie: left of the frame, in it, right of it.
ghost use Rattle.images.specs.Rows.{Spanned};
ghost use Rattle.std.specs.Prelude.{◌≤◌};

#[derive(Clone, Copy)]
pub(crate) struct Span {
    // How many columns lie left of the frame.
    pub before: usize,
    // The first column of the frame.
    pub skip: usize,
    // How many columns lie in the frame.
    pub inside: usize,
}

impl Span {
    // The span of `count` columns from `first` on.
    pub(crate) fn of(width: u32, first: i32, count: usize) -> Span
        requires { 1 ≤ width }
        ensures { Spanned width first count result }
    {
        let width = width as usize;
        if first < 0 {
            let before = (first.unsigned_abs() as usize).min(count);
            let inside = width.min(count - before);
            return Span {
                before,
                skip: 0,
                inside,
            };
        }
        let skip = (first as usize).min(width);
        let inside = (width - skip).min(count);
        Span {
            before: 0,
            skip,
            inside,
        }
    }
}
