// A form: a table of terms, with what holds of the terms of every form.
ghost use Rattle.std.specs.Prelude.{◌≡◌, ◌<◌, [], ◌∷◌, length};
ghost use Rattle.tables.specs.Table.{items_of};
ghost use Rattle.forms.specs.Terms.{Terms, Ascending, Apart};

use crate::sets::Term;
use tables::Table;

mod entering;
mod moving;
mod truth;

/// The most terms that a form may have.
pub const MOST_TERMS: usize = 256;

/// A form: 1 to `MOST_TERMS` terms, ascending, none inside another.
#[derive(Clone, Copy)]
pub struct Form {
    table: Table<Term, MOST_TERMS>,
    ghost sets: { ∥ Terms (items_of table) ∥₁ },
    ghost some: { 0 < length (items_of table) },
    ghost ascending: { ∥ Ascending (items_of table) ∥₁ },
    ghost apart: { ∥ Apart (items_of table) ∥₁ },
}

impl Form {
    /// The form of one term.
    pub fn single(term: Term) -> Form
        ensures { items_of result.table ≡ term ∷ [] }
    {
        let mut table = Table::new(term);
        let _ = table.push(term);
        Form { table }
    }
}
