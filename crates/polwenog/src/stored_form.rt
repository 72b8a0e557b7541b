// Stored forms, shown as windows that a person can read.
use crate::file::each_file;
use crate::refused::Refused;
use crate::window::draw;
use forms::{Form, Term};
use std::env::Args;
use stored::load;

// Shows each stored form named, or says why it is refused.
pub(crate) fn show_stored(rt: &HostRuntime, paths: Args) -> anyhow::Result<()> {
    each_file(rt, "stored", paths, |path, bytes| {
        show(rt, path, bytes.as_slice())
    })
}

fn show(rt: &HostRuntime, path: &str, bytes: &[u8]) -> anyhow::Result<()> {
    match load(bytes) {
        Ok(form) => show_form(rt, path, &form),
        Err(reason) => {
            let number = reason.number();
            println!(rt; "{path}: {}", Refused { number, reason })?;
            Ok(())
        }
    }
}

fn show_form(rt: &HostRuntime, path: &str, form: &Form) -> anyhow::Result<()> {
    let terms = form.terms();
    println!(rt; "{path}: form, number of terms: {}", terms.len())?;
    for (index, term) in terms.iter().enumerate() {
        println!(rt; "  term {}", index + 1)?;
        show_term(rt, *term)?;
    }
    Ok(())
}

// The window of a term: `#` for its cells, `+` for the place itself where it is none of them.
fn show_term(rt: &HostRuntime, term: Term) -> anyhow::Result<()> {
    draw(rt, |cell| {
        if term.contains(cell) {
            '#'
        } else if cell.row() == 0 && cell.column() == 0 {
            '+'
        } else {
            '.'
        }
    })
}
