// What the header of an image says, and where its raster starts.
ghost use Rattle.std.specs.Prelude.{◌≡◌};

/// The sides of an image and its highest allowed sample.
#[derive(Clone, Copy, PartialEq, Eq, Debug)]
pub struct Header {
    pub height: u32,
    pub width: u32,
    pub maximum: u32,
}

/// A header, and the place of the first byte of the raster.
#[derive(Clone, Copy, PartialEq, Eq, Debug)]
pub(crate) struct Layout {
    pub header: Header,
    pub start: usize,
}

impl Header {
    ghost use Rattle.images.specs.Samples.{wide as is_wide};
    ghost use Rattle.images.specs.Fits.{InRange, raster_length};

    // Whether a sample takes two bytes.
    pub(crate) fn wide(self) -> bool
        ensures { result ≡ is_wide self }
    {
        self.maximum >= 256
    }

    // How many bytes the samples take.
    pub(crate) fn raster_length(self) -> usize
        requires { InRange self }
        ensures { result ≡ raster_length self }
    {
        let sample_bytes = if self.wide() { 2 } else { 1 };
        self.height as usize * self.width as usize * sample_bytes
    }
}
