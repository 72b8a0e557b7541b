// An image that owns the bytes of its file.
ghost use Rattle.std.specs.Prelude.{◌≡◌, ◌+◌, length};
ghost use Rattle.images.specs.Fits.{Side, Maximum, raster_length};

use crate::header::Layout;

mod calls;

/// A grey image, read from the bytes of a PGM file.
#[derive(Drop)]
pub struct Image {
    bytes: Vec<u8>,
    layout: Layout,
    ghost rows: { Side layout.header.height },
    ghost columns: { Side layout.header.width },
    ghost top: { Maximum layout.header.maximum },
    ghost whole: { length bytes.items ≡ layout.start + raster_length layout.header },
}
