// How long values and compositions take here.
use crate::joined::min_of_pairs;
use crate::windows::window_of;
use anyhow::{Context, anyhow};
use elements::Pixel;
use filters::{Size, dilation, erosion, median};
use forms::{Fault, Form};
use joins::compose;
use std::alloc::{AllocError, Global};
use std::io;
use std::time::Instant;
use values::{Window, value};

const WINDOWS: usize = 200_000;

pub(crate) fn time(rt: &HostRuntime) -> anyhow::Result<()> {
    let size = Size::new(3, 3).context("no box")?;
    let Some(form) = median(size) else {
        return Err(anyhow!("no median"));
    };
    let windows = windows(rt.alloc())?;
    let (sum, took) = timed(rt, || sum_of_values(&form, &windows))?;
    println!(rt; "value, terms {}: {took} us, sum {sum}", form.len())?;
    time_closings(rt)?;
    for (height, width) in [(1, 2), (2, 1), (2, 2)] {
        time_medians(rt, &form, height, width)?;
    }
    time_pairs(rt)
}

// What a step gives, and the microseconds that it took.
// As in the program polwenog: a crate of its own for one function would be no plainer.
fn timed<T: Drop, F: FnOnce() -> T>(rt: &HostRuntime, step: F) -> io::Result<(T, u128)>
    requires { F.pre step }
{
    let start = Instant::now(rt)?;
    let given = step();
    Ok((given, start.elapsed(rt)?.as_micros()))
}

// The next of a sequence of numbers that look random.
fn next(seed: u32) -> u32 {
    seed.wrapping_mul(1_664_525).wrapping_add(1_013_904_223)
}

// Windows of pixels that look random.
fn windows(heap: Global) -> Result<Vec<Window<Pixel>>, AllocError> {
    let mut windows = Vec::with_capacity(heap, WINDOWS)?;
    let mut seed = 1;
    for _ in 0..WINDOWS {
        windows.push(window_of(|_| {
            seed = next(seed);
            Pixel((seed >> 16) as u16)
        }))?;
    }
    Ok(windows)
}

fn sum_of_values(form: &Form, windows: &[Window<Pixel>]) -> u64 {
    windows.iter().fold(
        0,
        |sum, window| sum.wrapping_add(u64::from(value(form, window).0)),
    )
}

fn time_closings(rt: &HostRuntime) -> anyhow::Result<()> {
    for height in 1..=6 {
        for width in 1..=4 {
            time_closing(rt, height, width)?;
        }
    }
    Ok(())
}

fn time_closing(rt: &HostRuntime, height: u8, width: u8) -> anyhow::Result<()> {
    let Some(size) = Size::new(height, width) else {
        return Ok(());
    };
    print!(rt; "closing {height} by {width}, ")?;
    time_composition(rt, &erosion(size), &dilation(size))
}

// The min of two neighbours after the min of eight maxima of neighbours: 65,536 unions.
fn time_pairs(rt: &HostRuntime) -> anyhow::Result<()> {
    let Some(size) = Size::new(1, 2) else {
        return Ok(());
    };
    let Ok(inner) = min_of_pairs(3, 0, 1) else {
        return Ok(());
    };
    print!(rt; "erosion 1 by 2 after the min of eight maxima, ")?;
    time_composition(rt, &erosion(size), &inner)
}

// Compositions with the median: after a dilation, and a dilation and an erosion after it.
fn time_medians(rt: &HostRuntime, median: &Form, height: u8, width: u8) -> anyhow::Result<()> {
    let Some(size) = Size::new(height, width) else {
        return Ok(());
    };
    let dilated = dilation(size);
    print!(rt; "median after dilation {height} by {width}, ")?;
    time_composition(rt, median, &dilated)?;
    print!(rt; "dilation {height} by {width} after median, ")?;
    time_composition(rt, &dilated, median)?;
    print!(rt; "erosion {height} by {width} after median, ")?;
    time_composition(rt, &erosion(size), median)
}

// The number of terms of a composition; by `match`, as in joined.
fn terms_composed(outer: &Form, inner: &Form) -> Result<usize, Fault> {
    match compose(outer, inner) {
        Ok(form) => Ok(form.len()),
        Err(fault) => Err(fault),
    }
}

fn time_composition(rt: &HostRuntime, outer: &Form, inner: &Form) -> anyhow::Result<()> {
    let (outcome, took) = timed(rt, || terms_composed(outer, inner))?;
    match outcome {
        Ok(terms) => println!(rt; "terms {terms}: {took} us")?,
        Err(fault) => println!(rt; "declined {}: {took} us", fault.number())?,
    }
    Ok(())
}
