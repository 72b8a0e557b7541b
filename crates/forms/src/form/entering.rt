// Entering a term into a form.
ghost use Rattle.std.specs.Prelude.{◌≡◌, ◌<◌, length, OnOk, OnErr};
ghost use Rattle.tables.specs.Table.{items_of};
ghost use Rattle.forms.specs.Terms.{most_terms, In, Ascending};
ghost use Rattle.forms.specs.Entering.{holds, covers, without, put, enter, bounded};
ghost use Rattle.forms.specs.Parts.{terms_of, told, Entered};

use super::{Form, MOST_TERMS};
use crate::faults::Fault;
use crate::sets::{CellSet, Term};
use tables::{Full, Table};

impl Form {
    /// Enters a term: the form then has the minimal sets among its terms and this one.
    /// Where they are more than `MOST_TERMS`, it is declined and the form stays as it was.
    pub fn enter(&mut self, term: Term) -> Result<(), Fault>
        ensures exact { told result (terms_of self.new) ≡ bounded (enter term (terms_of self.old)) }
        ensures minimal { Entered result term (terms_of self.old) (terms_of self.new) }
        ensures kept { OnErr result (self.new ≡ self.old) }
    {
        if self.holds(term) || self.covers(CellSet::from(term)) {
            return Ok(());
        }
        let mut table = self.table;
        without(&mut table, term);
        put(&mut table, term)?;
        *self = Form { table };
        Ok(())
    }

    // Whether the term is one of the form's.
    fn holds(&self, term: Term) -> bool
        ensures { result ≡ holds (terms_of self.now) term }
    {
        let terms = self.terms();
        let place = terms.partition_point(|other| *other < term);
        match terms.get(place) {
            Some(other) => *other == term,
            None => false,
        }
    }

    // Whether some term is inside the set.
    pub(super) fn covers(&self, set: CellSet) -> bool
        ensures { result ≡ covers (terms_of self.now) set }
    {
        // By `for`: the loop that `any` becomes takes a third longer.
        for term in self.terms() {
            if term.within(set) {
                return true;
            }
        }
        false
    }
}

// Takes out the terms that contain a term.
fn without(table: &mut Table<Term, MOST_TERMS>, term: Term)
    ensures { items_of table.new ≡ without term (items_of table.old) }
{
    let mut kept = 0;
    // By index: what is kept goes over what was read. Pushed into another table, a term waits for the count before it.
    for index in 0..table.as_slice().len() {
        let other = table.as_slice()[index];
        if !term.inside(other) {
            table.set(kept, other);
            kept += 1;
        }
    }
    table.truncate(kept);
}

// Puts a term in its place among ascending terms, of which it is none.
fn put(table: &mut Table<Term, MOST_TERMS>, term: Term) -> Result<(), Full>
    requires ascending { Ascending (items_of table.old) }
    requires new { In term (items_of table.old) → ⊥ }
    ensures ok { OnOk result (items_of table.new ≡ put term (items_of table.old)) }
    ensures room { OnOk result (length (items_of table.old) < most_terms) }
    ensures full { OnErr result (length (items_of table.old) ≡ most_terms) }
{
    let place = table.as_slice().partition_point(|other| *other < term);
    table.insert(place, term)
}
