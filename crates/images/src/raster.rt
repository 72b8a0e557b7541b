// The samples of an image, as the bytes of its raster hold them.
ghost use Rattle.std.specs.Prelude.{◌≡◌, ℕ, ◌+◌, ◌*◌, ◌<◌, ◌≤◌, length};
ghost use Rattle.images.specs.Fits.{raster_length};

use crate::header::Header;

/// The bytes that follow a header: its samples, row by row.
#[derive(Clone, Copy)]
pub(crate) struct Raster<'a> {
    pub header: Header,
    pub bytes: &'a [u8],
    ghost some_columns: { 1 ≤ header.width },
    ghost whole: { length bytes.now ≡ raster_length header },
}

impl<'a> Raster<'a> {
    ghost use Rattle.images.specs.Samples.{wide, sample_at};
    ghost use Rattle.images.specs.Reading.{highest as highest_of};

    // Sample `k`; of two bytes the more significant comes first.
    pub(crate) fn sample(self, k: usize) -> u16
        requires { k < self.header.height * self.header.width }
        ensures { result ≡ sample_at (wide self.entry.header) self.entry.bytes.now k }
    {
        if self.header.wide() {
            u16::from_be_bytes([self.bytes[2 * k], self.bytes[2 * k + 1]])
        } else {
            u16::from(self.bytes[k])
        }
    }

    // The highest sample.
    pub(crate) fn highest(self) -> u16
        ensures { result ≡ highest_of (wide self.entry.header) self.entry.bytes.now (self.entry.header.height * self.entry.header.width) }
    {
        let count = self.header.height as usize * self.header.width as usize;
        let mut top = 0;
        // A loop: of `map` and `max` over the places, the goal `returns` does not close.
        for k in 0..count {
            top = top.max(self.sample(k));
        }
        top
    }
}
