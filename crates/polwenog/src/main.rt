// The program: what the files of the laboratory hold, and which filter an expression is.
#![tactic(auto)]

use anyhow::anyhow;
use std::io::ErrorKind;
use std::process::ExitCode;
use std::{env, io};

mod compile;
mod file;
mod inspect;
mod refused;
mod same;
mod stored_form;
mod tally;
mod timing;
mod window;

const USAGE: &str =
    "usage: polwenog compile [EXPR..]  say the form of each expression, or why it is refused;
                                  with no EXPR, of each line of standard input
       polwenog same EXPR EXPR [--witness FILE]
                                  say whether two expressions are one filter; where they are not,
                                  show a window that tells them apart, and write it to FILE
       polwenog inspect FILE..    say what each image or log holds
       polwenog stored FILE..     show the terms of each stored form
       polwenog time FILE         say how long an image takes to read here
       polwenog help              this text

An expression is a filter over a window of 9 rows (-4 to 4) and 7 columns (-3 to 3):
  [r,c]                           the sample r rows below and c columns right of the place
  max(e,f,..)  min(e,f,..)        the highest and the lowest of two or more expressions
  after(e,f)                      e over what f gives
  erode(h,w)  dilate(h,w)         the lowest, the highest over a box of h rows and w columns
  open(h,w)  close(h,w)           a dilation after an erosion, an erosion after a dilation
  rank(h,w,k)  med(h,w)           the k-th highest of a box of up to nine cells, the middle one
  weight(k,[r,c]*m,..)            the k-th highest of cells that count m times each
Compiling says `accepted`, the number of terms and the stored bytes, or `refused`, a number and a place.

An image is a binary PGM (P5); any other file is read as a rig log of 12-byte records.

examples: polwenog same 'open(2,1)' 'after(dilate(2,1),erode(2,1))'
          polwenog compile <filters.txt
          polwenog inspect section-014.pgm rig-2.log";

fn run(rt: &HostRuntime) -> anyhow::Result<()> {
    let mut words = env::args(rt).map_err(unreadable)?;
    let Some(command) = words.nth(1) else {
        return usage(rt);
    };
    match command.as_str() {
        "compile" => compile::compile(rt, words),
        "same" => same::same(rt, words),
        "inspect" => inspect::inspect(rt, words),
        "stored" => stored_form::show_stored(rt, words),
        "time" => timing::time(rt, words),
        "help" | "--help" | "-h" => usage(rt),
        _ => Err(anyhow!("no such command: run 'polwenog help'")),
    }
}

fn usage(rt: &HostRuntime) -> anyhow::Result<()> {
    println!(rt; "{USAGE}")?;
    Ok(())
}

// Why the arguments could not be read.
fn unreadable(e: io::Error) -> anyhow::Error {
    if e.kind() == ErrorKind::InvalidData {
        anyhow!("an argument is no UTF-8 text; other bytes can stand in a line of standard input")
    } else {
        anyhow::Error::from(e)
    }
}

fn main(rt: HostRuntime) -> ExitCode {
    match run(&rt) {
        Ok(()) => ExitCode::SUCCESS,
        Err(e) => {
            let _ = eprintln!(rt; "polwenog: {e}");
            ExitCode::FAILURE
        }
    }
}
