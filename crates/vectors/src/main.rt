// Cases at the edges of the file formats and of the readable places, run and compared.
#![tactic(auto)]

use elements::Pixel;
use images::{Declined, Header, Image, Log};
use sources::Source;
use std::alloc::{AllocError, Global};
use std::{fmt, iter};

// The bytes of a header and of a raster that is one byte again and again.
fn file(heap: Global, header: &[u8], raster: usize, byte: u8) -> Result<Vec<u8>, AllocError> {
    let mut bytes = Vec::from_slice(heap, header)?;
    bytes.extend(iter::repeat_n(byte, raster))?;
    Ok(bytes)
}

fn image(
    rt: &HostRuntime,
    what: &str,
    header: &[u8],
    raster: usize,
    byte: u8,
) -> anyhow::Result<()> {
    match Image::parse(file(rt.alloc(), header, raster, byte)?) {
        Ok(image) => {
            let Header {
                height,
                width,
                maximum,
            } = image.header();
            println!(rt; "{what}: image {height} by {width}, maximum {maximum}")?;
        }
        Err(Declined { bytes, refusal }) => declined(rt, what, refusal.number(), &bytes)?,
    }
    Ok(())
}

fn log(rt: &HostRuntime, what: &str, length: usize) -> anyhow::Result<()> {
    match Log::parse(vec![in rt.alloc(); 7; length]?) {
        Ok(log) => println!(rt; "{what}: log of {}", log.height())?,
        Err(Declined { bytes, refusal }) => declined(rt, what, refusal.number(), &bytes)?,
    }
    Ok(())
}

fn declined(rt: &HostRuntime, what: &str, number: u8, bytes: &[u8]) -> anyhow::Result<()> {
    println!(rt;
        "{what}: refused {number}, {} bytes given back",
        bytes.len()
    )?;
    Ok(())
}

fn starts(rt: &HostRuntime) -> anyhow::Result<()> {
    // A call for each: a table of five unnamed parts would be no plainer.
    image(rt, "no byte", b"", 0, 0)?;
    image(rt, "one byte", b"P", 0, 0)?;
    image(rt, "plain PGM", b"P2 1 1 255\n", 1, 49)?;
    image(rt, "magic alone", b"P5", 0, 0)?;
    image(rt, "no white space after the magic", b"P51 1 255\n", 1, 1)?;
    image(rt, "no maximum", b"P5 1 1\n", 0, 0)?;
    image(rt, "a remark", b"P5 # core 7\n1 1 255\n", 1, 1)?;
    image(rt, "a sign", b"P5 -1 1 255\n", 1, 1)
}

fn headers(rt: &HostRuntime) -> anyhow::Result<()> {
    image(rt, "five digits", b"P5 00001 00001 00255\n", 1, 1)?;
    image(rt, "six digits", b"P5 000001 1 255\n", 1, 1)?;
    image(
        rt,
        "carriage return and line feed",
        b"P5\r\n1 1\r\n255\n",
        1,
        1,
    )?;
    image(
        rt,
        "carriage return alone at the end",
        b"P5\t1\r1 255\r",
        1,
        1,
    )?;
    image(
        rt,
        "line feed after the return is raster",
        b"P5 1 1 255\r\n",
        1,
        1,
    )?;
    image(
        rt,
        "raster that begins with white space",
        b"P5 2 1 255\n",
        2,
        32,
    )?;
    image(
        rt,
        "header ended before its white space",
        b"P5 1 1 255",
        0,
        0,
    )
}

fn ranges(rt: &HostRuntime) -> anyhow::Result<()> {
    image(rt, "16384 columns", b"P5 16384 1 255\n", 16384, 1)?;
    image(rt, "16385 columns", b"P5 16385 1 255\n", 16385, 1)?;
    image(rt, "16384 rows", b"P5 1 16384 255\n", 16384, 1)?;
    image(rt, "16385 rows", b"P5 1 16385 255\n", 16385, 1)?;
    image(rt, "no column", b"P5 0 1 255\n", 0, 1)?;
    image(rt, "no row", b"P5 1 0 255\n", 0, 1)?;
    image(rt, "maximum 0", b"P5 1 1 0\n", 1, 0)?;
    image(rt, "maximum 1", b"P5 1 1 1\n", 1, 1)?;
    image(rt, "maximum 255, one byte", b"P5 1 1 255\n", 1, 255)?;
    image(rt, "maximum 256, one byte", b"P5 1 1 256\n", 1, 1)?;
    image(rt, "maximum 256, two bytes", b"P5 1 1 256\n", 2, 0)?;
    image(rt, "maximum 65535, two bytes", b"P5 1 1 65535\n", 2, 255)?;
    image(rt, "maximum 65536", b"P5 1 1 65536\n", 2, 1)?;
    image(rt, "maximum 99999", b"P5 1 1 99999\n", 2, 1)
}

fn lengths(rt: &HostRuntime) -> anyhow::Result<()> {
    image(rt, "one byte short", b"P5 3 2 255\n", 5, 1)?;
    image(rt, "exact", b"P5 3 2 255\n", 6, 1)?;
    image(rt, "one byte long", b"P5 3 2 255\n", 7, 1)?;
    image(
        rt,
        "two-byte samples, one byte short",
        b"P5 3 2 300\n",
        11,
        0,
    )?;
    image(rt, "two-byte samples, exact", b"P5 3 2 300\n", 12, 0)?;
    image(
        rt,
        "two-byte samples, one byte long",
        b"P5 3 2 300\n",
        13,
        0,
    )?;
    image(rt, "at the maximum", b"P5 3 2 9\n", 6, 9)?;
    image(rt, "above the maximum", b"P5 3 2 9\n", 6, 10)?;
    image(
        rt,
        "two-byte samples above the maximum",
        b"P5 1 1 256\n",
        2,
        1,
    )?;
    log(rt, "no record", 0)?;
    log(rt, "eleven bytes", 11)?;
    log(rt, "one record", 12)?;
    log(rt, "thirteen bytes", 13)?;
    log(rt, "16384 records", 12 * 16384)?;
    log(rt, "16385 records", 12 * 16385)
}

fn place<S: Source>(rt: &HostRuntime, source: &S, row: i32, column: i32) -> anyhow::Result<()>
where
    S::Element: fmt::Display,
{
    match source.read(row, column) {
        Ok(element) => println!(rt; "({row}, {column}): {element}")?,
        Err(refusal) => println!(rt; "({row}, {column}): refused {}", refusal.number())?,
    }
    Ok(())
}

// Places of a source of height 2, at the edges of its margin and at the ends of the numbers.
fn places<S: Source>(rt: &HostRuntime, source: &S) -> anyhow::Result<()>
where
    S::Element: fmt::Display,
{
    for (row, column) in [
        (0, 0),
        (1, 0),
        (-1, -1),
        (-32, 0),
        (-33, 0),
        (33, 0),
        (34, 0),
        (0, -32),
        (0, -33),
        (0, 32),
        (0, 33),
        (0, 34),
        (i32::MIN, 0),
        (i32::MAX, 0),
        (0, i32::MIN),
        (0, i32::MAX),
        (i32::MAX, i32::MIN),
    ] {
        place(rt, source, row, column)?;
    }
    Ok(())
}

// A row read into a slice of three places that hold 9 before.
fn row(rt: &HostRuntime, image: &Image, row: i32, first: i32) -> anyhow::Result<()> {
    let mut out = [Pixel(9); 3];
    let outcome = image.read_row(row, first, &mut out);
    let [a, b, c] = out;
    match outcome {
        Ok(()) => println!(rt; "row {row} from {first}: {a} {b} {c}")?,
        Err(refusal) => println!(rt;
            "row {row} from {first}: refused {}, and the slice has {a} {b} {c}",
            refusal.number()
        )?,
    }
    Ok(())
}

fn rows(rt: &HostRuntime, image: &Image) -> anyhow::Result<()> {
    for (at, first) in [
        (0, 0),
        (1, -1),
        (-32, -32),
        (0, -33),
        (33, 31),
        (33, 32),
        (34, 0),
        (0, i32::MIN),
        (0, i32::MAX),
    ] {
        row(rt, image, at, first)?;
    }
    let empty = image.read_row(i32::MIN, i32::MAX, &mut []).is_ok();
    println!(rt; "a row of no place is read: {empty}")?;
    Ok(())
}

fn reading(rt: &HostRuntime) -> anyhow::Result<()> {
    let bytes = Vec::from_slice(
        rt.alloc(),
        b"P5 2 2 65535\n\x01\x02\x03\x04\xfe\xff\x00\x07",
    )?;
    if let Ok(image) = Image::parse(bytes) {
        println!(rt; "image of two-byte samples")?;
        places(rt, &image)?;
        rows(rt, &image)?;
    }
    let bytes = Vec::from_slice(
        rt.alloc(),
        b"\x00\x00\x00\x00\x00\x00\x01\x02\x00\x00\x00\x05\xff\xff\xff\xff\xff\xff\xff\xff\xff\xff\xff\xfe",
    )?;
    if let Ok(log) = Log::parse(bytes) {
        println!(rt; "log")?;
        places(rt, &log)?;
    }
    Ok(())
}

fn main(rt: HostRuntime) -> anyhow::Result<()> {
    starts(&rt)?;
    headers(&rt)?;
    ranges(&rt)?;
    lengths(&rt)?;
    reading(&rt)
}
