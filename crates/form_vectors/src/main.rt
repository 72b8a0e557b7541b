// Cases of joining, composing, valuing, saving and loading forms, run and compared; with `time`, how long they take.
#![tactic(auto)]

use anyhow::{Context, anyhow};
use elements::Pixel;
use filters::Size;
use forms::{Fault, Form};
use joined::{after, at, min_of_pairs, pair};
use std::env;
use stored::{SaveFault, load, save};
use values::{Window, telling_window, value};
use windows::window_of;

mod joined;
mod timing;
mod windows;

// What each byte of a buffer holds before a form is saved into it.
const UNTOUCHED: u8 = 170;

// The sum of the terms as numbers.
fn sum_of_terms(form: &Form) -> u128 {
    let numbers = form.terms().iter().map(|term| u128::from(term.number()));
    numbers.fold(0, u128::wrapping_add)
}

fn show(rt: &HostRuntime, what: &str, outcome: Result<Form, Fault>) -> anyhow::Result<()> {
    match outcome {
        Ok(form) => println!(rt;
            "{what}: terms {}, their sum {}",
            form.len(),
            sum_of_terms(&form)
        )?,
        Err(fault) => println!(rt; "{what}: declined {}", fault.number())?,
    }
    Ok(())
}

// The box of so many rows and columns.
fn sized(height: u8, width: u8) -> anyhow::Result<Size> {
    Size::new(height, width).context("no such box")
}

// A line for each, not a table of outcomes: each holds a whole form, and is shown as soon as it is made.
fn joined_forms(rt: &HostRuntime) -> anyhow::Result<()> {
    show(rt, "a cell", at(0, 0))?;
    show(rt, "a pair", pair(-4, -1, 1))?;
    show(rt, "min of eight pairs", min_of_pairs(3, -1, 1))?;
    show(rt, "min of nine pairs", min_of_pairs(4, -1, 1))?;
    show(rt, "opening 2 by 1", filters::opening(sized(2, 1)?))?;
    show(rt, "opening 5 by 4", filters::opening(sized(5, 4)?))?;
    show(rt, "opening 6 by 1", filters::opening(sized(6, 1)?))?;
    show(rt, "closing 3 by 3", filters::closing(sized(3, 3)?))?;
    let median = filters::median(sized(3, 3)?).context("no median")?;
    show(rt, "median 3 by 3", Ok(median))?;
    show(rt, "up after down", after(-1, 1))?;
    show(rt, "four up after four up", after(-4, -4))
}

// The sample of a column at a row, with its edges repeated.
fn nearest(column: &[u16], row: i32) -> Pixel {
    let last = column.len().saturating_sub(1);
    let place = (row.max(0) as usize).min(last);
    Pixel(column.get(place).copied().unwrap_or(0))
}

// The window of one column whose middle is the place `row` of it.
fn column_at(column: &[u16], row: i32) -> Window<Pixel> {
    window_of(|cell| nearest(column, row.saturating_add(cell.row())))
}

// The opening of two rows, which moves no sample; by `match`, as in joined, and so where it is used.
fn opened() -> anyhow::Result<Form> {
    match filters::opening(sized(2, 1)?) {
        Ok(form) => Ok(form),
        Err(_) => Err(anyhow!("no opening")),
    }
}

// An opening of even length moves no sample.
fn opened_column(rt: &HostRuntime) -> anyhow::Result<()> {
    let form = match opened() {
        Ok(form) => form,
        Err(error) => return Err(error),
    };
    let column = [3u16, 9, 4, 4, 1];
    for (row, before) in (0..).zip(column.iter()) {
        println!(rt;
            "row {row}: {before} becomes {}",
            value(&form, &column_at(&column, row))
        )?;
    }
    Ok(())
}

// A window on which an opening and the place itself differ.
fn told_apart(rt: &HostRuntime) -> anyhow::Result<()> {
    let opened = match opened() {
        Ok(form) => form,
        Err(error) => return Err(error),
    };
    let Ok(place) = at(0, 0) else {
        return Err(anyhow!("no cell"));
    };
    if let Some(window) = telling_window(&opened, &place, Pixel(7), Pixel(2)) {
        println!(rt;
            "told apart: {} and {}",
            value(&opened, &window),
            value(&place, &window)
        )?;
    }
    let alike = telling_window(&opened, &opened, Pixel(7), Pixel(2)).is_none();
    println!(rt; "a form is not told from itself: {alike}")?;
    Ok(())
}

fn loaded(rt: &HostRuntime, what: &str, bytes: &[u8]) -> anyhow::Result<()> {
    match load(bytes) {
        Ok(form) => saved(rt, what, &form, bytes),
        Err(fault) => {
            println!(rt; "{what}: refused {}", fault.number())?;
            Ok(())
        }
    }
}

// Saves into a buffer of 24 bytes, and into one that is too short.
fn saved(rt: &HostRuntime, what: &str, form: &Form, bytes: &[u8]) -> anyhow::Result<()> {
    let mut long = [UNTOUCHED; 24];
    let mut short = [UNTOUCHED; 9];
    let size = save(form, &mut long)
        .ok()
        .context("a form that does not fit")?;
    let same = long.get(..size).is_some_and(|saved| saved == bytes);
    let last = long[23];
    let declined = save(form, &mut short).err().map_or(0, SaveFault::number);
    println!(rt;
        "{what}: terms {}, bytes {size}, the same {same}, past them {last}; into 9 bytes {declined}, which hold {}",
        form.len(),
        short[0]
    )?;
    Ok(())
}

// Bytes that are loaded, with what they are.
const STORED: [(&str, &[u8]); 14] = [
    ("middle cell", b"\x10\x00\x00\x00\x00\x10\x00\x00\x00\x00"),
    (
        "middle cell and the one below",
        b"\x10\x10\x00\x00\x00\x00\x20\x00\x00\x00\x00\x00\x00\x20\x00\x00\x00\x00",
    ),
    ("no byte", b""),
    ("one byte", b"\x10"),
    ("version 2", b"\x20\x00\x00\x00\x00\x10\x00\x00\x00\x00"),
    ("two bytes", b"\x10\x00"),
    ("one byte short", b"\x10\x00\x00\x00\x00\x10\x00\x00\x00"),
    (
        "one byte long",
        b"\x10\x00\x00\x00\x00\x10\x00\x00\x00\x00\x00",
    ),
    (
        "count of the other",
        b"\x10\x10\x00\x00\x00\x10\x00\x00\x00\x00",
    ),
    (
        "filling bit set",
        b"\x10\x00\x00\x00\x00\x10\x00\x00\x00\x01",
    ),
    ("empty term", b"\x10\x00\x00\x00\x00\x00\x00\x00\x00\x00"),
    (
        "terms out of order",
        b"\x10\x10\x00\x00\x00\x10\x00\x00\x00\x00\x00\x00\x00\x00\x40\x00\x00\x00",
    ),
    (
        "out of order and one inside the other",
        b"\x10\x10\x00\x00\x08\x10\x00\x00\x00\x00\x00\x00\x00\x20\x00\x00\x00\x00",
    ),
    (
        "a term inside another",
        b"\x10\x10\x00\x00\x00\x10\x00\x00\x00\x00\x00\x00\x10\x20\x00\x00\x00\x00",
    ),
];

fn stored_forms(rt: &HostRuntime) -> anyhow::Result<()> {
    for (what, bytes) in STORED {
        loaded(rt, what, bytes)?;
    }
    Ok(())
}

fn main(rt: HostRuntime) -> anyhow::Result<()> {
    match env::args(&rt)?.nth(1) {
        Some(word) if word.as_str() == "time" => timing::time(&rt),
        _ => cases(&rt),
    }
}

fn cases(rt: &HostRuntime) -> anyhow::Result<()> {
    joined_forms(rt)?;
    opened_column(rt)?;
    told_apart(rt)?;
    stored_forms(rt)
}
