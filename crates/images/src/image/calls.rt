// What can be asked of an image.
ghost use Rattle.std.specs.Prelude.{◌≡◌, ◌+◌, ◌*◌, ◌<◌, MatchResult};
ghost use Rattle.images.specs.Samples.{pixel, sample_at, wide};
ghost use Rattle.images.specs.Parsed.{header as header_of, raster, shown, ImageOutcome};
ghost use Rattle.std.proofs.Common.{rules};

use crate::declined::Declined;
use crate::header::Header;
use crate::image::Image;
use crate::raster::Raster;
use crate::reading;
use crate::refusal::ImageRefusal;
use elements::Pixel;
use sources::{EDGE_MARGIN, ReadRefusal, Source};

impl Image {
    /// Takes the bytes of a PGM file for an image; declined, with the bytes given back, by the first
    /// rule that they break.
    pub fn parse(bytes: Vec<u8>) -> Result<Image, Declined<ImageRefusal>>
        ensures kept { MatchResult result (λ i. i.bytes ≡ bytes) (λ d. d.bytes ≡ bytes) }
        ensures outcome { ImageOutcome bytes.items result }
    {
        match reading::survey(bytes.as_slice()) {
            Ok(layout) => Ok(Image { bytes, layout }),
            Err(refusal) => Err(Declined { bytes, refusal }),
        }
    }

    /// The sides and the maximum.
    pub fn header(&self) -> Header
        ensures { result ≡ header_of self.now }
    {
        self.layout.header
    }

    // The samples, which the bytes end with.
    fn raster(&self) -> Raster<'_>
        ensures header { result.header ≡ header_of self.now }
        ensures bytes { result.bytes.now ≡ raster self.now }
    {
        let layout = self.layout;
        let bytes = self.bytes.as_slice();
        Raster {
            header: layout.header,
            bytes: &bytes[layout.start..],
        }
    }

    // The sample at a place of the frame.
    fn at(&self, row: u32, column: u32) -> Pixel
        requires row { row < (header_of self.now).height }
        requires column { column < (header_of self.now).width }
        ensures { result ≡ pixel (sample_at (wide (header_of self.now)) (raster self.now) (row * (header_of self.now).width + column)) }
    {
        let width = self.layout.header.width as usize;
        Pixel(self.raster().sample(row as usize * width + column as usize))
    }
}

impl Source for Image {
    type Element = Pixel;

    ghost meaning = { shown };

    ghost ranges = { Prim.search rules };

    fn height(&self) -> u32 {
        self.header().height
    }

    fn width(&self) -> u32 {
        self.header().width
    }

    fn margin(&self) -> i32 {
        EDGE_MARGIN
    }

    fn read(&self, row: i32, column: i32) -> Result<Pixel, ReadRefusal> {
        let (row, column) = self.extent().place(row, column)?;
        Ok(self.at(row, column))
    }

    fn read_row(&self, row: i32, first: i32, out: &mut [Pixel]) -> Result<(), ReadRefusal> {
        let row = self.extent().place_row(row, first, out.len())?;
        self.raster().row_into(row, first, out);
        Ok(())
    }
}
