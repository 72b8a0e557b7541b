// Whether two expressions are one filter, and a window that tells them apart where they are not.
use crate::file::or_named;
use crate::window::draw;
use anyhow::{Context, anyhow};
use comparing::{CompareFault, Comparison, HEIGHT, Side, WIDTH, Witness, compare};
use elements::Pixel;
use forms::{Cell, Form};
use reports::{Marked, Refusal, StoredBytes};
use sources::Source;
use std::alloc::AllocError;
use std::env::Args;
use std::fs;
use std::io::Write;

// The samples that a window is drawn with.
const LOW: Pixel = Pixel(0);

const HIGH: Pixel = Pixel(255);

// The row and the column of a witness's middle.
const MIDDLE_ROW: i32 = HEIGHT as i32 / 2;

const MIDDLE_COLUMN: i32 = WIDTH as i32 / 2;

const ASKED: &str = "same: give two expressions and perhaps, behind them, --witness FILE";

// Compares two texts; a window that tells them apart is also written to the file, if one is named.
pub(crate) fn same(rt: &HostRuntime, mut words: Args) -> anyhow::Result<()> {
    let left = words.next().context(ASKED)?;
    let right = words.next().context(ASKED)?;
    let file = witness_file(words)?;
    match compare(left.as_bytes(), right.as_bytes(), LOW, HIGH) {
        Ok(comparison) => tell(rt, &comparison, file),
        Err(declined) => match declined.side {
            Side::Left => refuse(rt, "first", left.as_bytes(), declined),
            Side::Right => refuse(rt, "second", right.as_bytes(), declined),
        },
    }
}

// The file named behind `--witness`, if it stands there.
fn witness_file(mut words: Args) -> anyhow::Result<Option<String>> {
    let Some(option) = words.next() else {
        return Ok(None);
    };
    let path = words.next().context(ASKED)?;
    if option.as_str() != "--witness" || words.next().is_some() {
        return Err(anyhow!(ASKED));
    }
    Ok(Some(path))
}

// Says which text is refused, why, and where.
fn refuse(
    rt: &HostRuntime,
    which: &str,
    text: &[u8],
    declined: CompareFault,
) -> anyhow::Result<()> {
    let place = declined.fault.place();
    println!(rt; "{}", Refusal(declined.fault))?;
    println!(rt; "in the {which} expression:")?;
    println!(rt; "{}", Marked { text, place })?;
    Err(anyhow!("same: an expression is refused"))
}

fn tell(
    rt: &HostRuntime,
    comparison: &Comparison<Pixel>,
    file: Option<String>,
) -> anyhow::Result<()> {
    match &comparison.witness {
        Some(witness) => {
            println!(rt; "not one filter")?;
            tell_forms(rt, comparison)?;
            show(rt, comparison, witness)?;
            match file {
                Some(path) => write_window(rt, witness, path.as_str()),
                None => Ok(()),
            }
        }
        None => {
            println!(rt; "one filter")?;
            tell_forms(rt, comparison)?;
            if let Some(path) = file {
                println!(rt; "no window tells them apart: {path} is not written")?;
            }
            Ok(())
        }
    }
}

fn tell_forms(rt: &HostRuntime, comparison: &Comparison<Pixel>) -> anyhow::Result<()> {
    tell_form(rt, "first", &comparison.left)?;
    tell_form(rt, "second", &comparison.right)
}

fn tell_form(rt: &HostRuntime, which: &str, form: &Form) -> anyhow::Result<()> {
    println!(rt;
        "{which}: number of terms {}, stored as {}",
        form.len(),
        StoredBytes(*form)
    )?;
    Ok(())
}

// The window, and what each filter makes of it.
fn show(
    rt: &HostRuntime,
    comparison: &Comparison<Pixel>,
    witness: &Witness<Pixel>,
) -> anyhow::Result<()> {
    println!(rt; "on this window, # for {HIGH} and . for {LOW}:")?;
    draw(rt, |cell| {
        if sample_at(witness, cell) == HIGH {
            '#'
        } else {
            '.'
        }
    })?;
    let first = witness.sample(&comparison.left);
    let second = witness.sample(&comparison.right);
    println!(rt; "the first gives {first} at its centre, the second {second}")?;
    Ok(())
}

// The sample at a cell, where the window lies on the whole frame.
fn sample_at(witness: &Witness<Pixel>, cell: Cell) -> Pixel {
    let row = MIDDLE_ROW.saturating_add(cell.row());
    let column = MIDDLE_COLUMN.saturating_add(cell.column());
    witness.read(row, column).unwrap_or(LOW)
}

// Writes the window as an image.
fn write_window(rt: &HostRuntime, witness: &Witness<Pixel>, path: &str) -> anyhow::Result<()> {
    let mut bytes = Vec::new(rt.alloc());
    // Into memory only want of memory can fail, and that is what is then told.
    write!(bytes, "P5\n{WIDTH} {HEIGHT}\n{HIGH}\n").map_err(|_| AllocError)?;
    for cell in (0..Cell::COUNT).filter_map(Cell::numbered) {
        bytes.push((sample_at(witness, cell).0 & 255) as u8)?;
    }
    let written = fs::write(rt, path, bytes.as_slice());
    or_named(rt, path, written, "same: the window could not be written")?;
    println!(rt; "window written to {path}")?;
    Ok(())
}
