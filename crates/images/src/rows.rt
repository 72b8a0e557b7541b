// Rows of an image, written into a caller's slice.
ghost use Rattle.std.specs.Prelude.{◌≡◌, ℕ, ◌+◌, ◌*◌, ◌<◌, ◌≤◌, length, pos, ◌+ℤ◌, slice_index_or};

use crate::raster::Raster;
use crate::span::Span;
use elements::Pixel;

impl<'a> Raster<'a> {
    ghost use Rattle.sources.specs.Edges.{nearest};
    ghost use Rattle.images.specs.Samples.{wide, pixel, sample_at};

    // Writes the samples from `at` on.
    fn samples_into(self, at: usize, out: &mut [Pixel])
        requires { at + length out.old ≤ self.header.height * self.header.width }
        ensures { (k : ℕ) (d : Pixel) → k < length out.old → slice_index_or out.new k d
            ≡ pixel (sample_at (wide self.entry.header) self.entry.bytes.now (at + k)) }
    {
        for (i, slot) in out.iter_mut().enumerate() {
            *slot = Pixel(self.sample(at + i));
        }
    }

    // Writes a row, from the column `first` on, with its edges repeated.
    pub(crate) fn row_into(self, row: u32, first: i32, out: &mut [Pixel])
        requires { row < self.header.height }
        ensures { (k : ℕ) (d : Pixel) → k < length out.old → slice_index_or out.new k d
            ≡ pixel (sample_at (wide self.entry.header) self.entry.bytes.now (row * self.entry.header.width + nearest self.entry.header.width (first +ℤ pos k))) }
    {
        let width = self.header.width;
        let at = row as usize * width as usize;
        let span = Span::of(width, first, out.len());
        let (left, rest) = out.split_at_mut(span.before);
        let (middle, right) = rest.split_at_mut(span.inside);
        left.fill(Pixel(self.sample(at)));
        self.samples_into(at + span.skip, middle);
        right.fill(Pixel(self.sample(at + (width as usize - 1))));
    }
}
