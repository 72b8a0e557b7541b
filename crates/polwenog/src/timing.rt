// How long parsing and reading an image take here, through the interface that every source has.
use crate::file::read_whole;
use anyhow::{Context, anyhow};
use elements::Pixel;
use images::Image;
use sources::Source;
use std::alloc::{AllocError, Global};
use std::env::Args;
use std::io;
use std::time::Instant;

// Reads an image whole, parses it, reads it place by place and row by row, and says what each took.
pub(crate) fn time(rt: &HostRuntime, mut paths: Args) -> anyhow::Result<()> {
    let path = paths.next().context("time: name an image")?;
    let (read, took) = timed(rt, || read_whole(rt, path.as_str()))?;
    let bytes = read?;
    println!(rt; "read file: {took} us")?;
    let (parsed, took) = timed(rt, || Image::parse(bytes))?;
    let Ok(image) = parsed else {
        return Err(anyhow!("time: the file is no image; run 'polwenog inspect' on it"));
    };
    println!(rt; "parse: {took} us")?;
    let (sum, took) = timed(rt, || sum_by_place(&image))?;
    println!(rt; "read by place: {took} us, sum {sum}")?;
    let (frame, took) = timed(rt, || rows_of(rt.alloc(), &image))?;
    println!(rt; "read by row: {took} us, sum {}", sum_of(&frame?))?;
    Ok(())
}

// What a step gives, and the microseconds that it took.
fn timed<T: Drop, F: FnOnce() -> T>(rt: &HostRuntime, step: F) -> io::Result<(T, u128)>
    requires { F.pre step }
{
    let start = Instant::now(rt)?;
    let given = step();
    Ok((given, start.elapsed(rt)?.as_micros()))
}

// The sum of the samples, place by place.
fn sum_by_place<S: Source<Element = Pixel>>(source: &S) -> u64 {
    let mut sum = 0u64;
    for row in 0..source.height() as i32 {
        sum = sum.wrapping_add(sum_of_row(source, row));
    }
    sum
}

// A loop: by `filter_map` and `fold` a place took 25 times as long.
fn sum_of_row<S: Source<Element = Pixel>>(source: &S, row: i32) -> u64 {
    let mut sum = 0u64;
    for column in 0..source.width() as i32 {
        if let Ok(Pixel(sample)) = source.read(row, column) {
            sum = sum.wrapping_add(u64::from(sample));
        }
    }
    sum
}

// The frame of a source, filled row by row.
fn rows_of<S: Source<Element = Pixel>>(heap: Global, source: &S) -> Result<Vec<Pixel>, AllocError> {
    let width = source.width() as usize;
    let mut frame = vec![in heap; Pixel(0); source.height() as usize * width]?;
    for (row, part) in (0..source.height() as i32).zip(frame.chunks_exact_mut(width)) {
        let _ = source.read_row(row, 0, part);
    }
    Ok(frame)
}

fn sum_of(frame: &[Pixel]) -> u64 {
    frame.iter().fold(0, |sum, Pixel(sample)| sum.wrapping_add(u64::from(*sample)))
}
