// One form after another.
ghost use Rattle.std.specs.Prelude.{◌≡◌, ℕ, true, ◌∷◌, map};
ghost use Rattle.forms.specs.Sets.{cells, every, movable, moved};
ghost use Rattle.forms.specs.Terms.{In, used as used_by};
ghost use Rattle.forms.specs.Entering.{made};
ghost use Rattle.forms.specs.Parts.{terms_of, outcome};
ghost use Rattle.joins.specs.Joins.{all_at, any_at, stays_all, compose as composed};
ghost use Rattle.joins.specs.Outcomes.{Ensured, After, Outside};

use super::{max, min};
use forms::{Cell, Fault, Form, Term};

/// The form e after the form f: f is put in the place of each cell of e.
/// Declined with `OutsideWindow` where a cell of e plus a cell of f leaves the window,
/// and with `TooManyTerms` where an entry leaves more terms than a form may have.
pub fn compose(e: &Form, f: &Form) -> Result<Form, Fault>
    ensures exact { outcome result ≡ composed (terms_of e.now) (terms_of f.now) }
    ensures truth { Ensured result (After (terms_of e.now) (terms_of f.now)) }
    ensures window { Outside result (terms_of e.now) (terms_of f.now) }
{
    if !stays(e, f) {
        return Err(Fault::OutsideWindow);
    }
    let [first, others @ ..] = e.terms() else {
        unreachable()
    };
    at_terms(f, *first, others)
}

// The form moved to each cell of a term and joined by min, for a first term and others, joined by max.
fn at_terms(f: &Form, first: Term, others: &[Term]) -> Result<Form, Fault>
    requires { (t : ℕ) → In t (first ∷ others.now) → every (λ c. movable c (used_by (terms_of f.now))) (cells t) ≡ true }
    ensures { outcome result ≡ any_at (terms_of f.now) (first ∷ others.now) }
{
    let mut joined = at_term(f, first)?;
    for term in others {
        joined = max(&joined, &at_term(f, *term)?)?;
    }
    Ok(joined)
}

// Whether each cell that e uses, plus each that f uses, is in the window.
fn stays(e: &Form, f: &Form) -> bool
    ensures { result ≡ stays_all (terms_of e.now) (terms_of f.now) }
{
    e.used().cells().all(|cell| f.stays_at(cell))
}

// The form moved to each cell of a term, joined by min.
fn at_term(f: &Form, term: Term) -> Result<Form, Fault>
    requires { every (λ c. movable c (used_by (terms_of f.now))) (cells term) ≡ true }
    ensures { outcome result ≡ all_at (terms_of f.now) (cells term) }
{
    let mut cells = term.cells();
    let Some(first) = cells.next() else {
        unreachable()
    };
    let mut joined = moved_to(f, first);
    for cell in cells {
        joined = min(&joined, &moved_to(f, cell))?;
    }
    Ok(joined)
}

// The form moved to a cell at which it stays in the window.
fn moved_to(f: &Form, cell: Cell) -> Form
    requires { movable cell (used_by (terms_of f.now)) ≡ true }
    ensures { terms_of result ≡ map (moved cell) (terms_of f.now) }
{
    match f.moved(cell) {
        Some(form) => form,
        None => unreachable(),
    }
}
