// Moving a form in the window.
ghost use Rattle.std.specs.Prelude.{◌≡◌, ℕ, ◌<◌, ◌↔◌, true, IsTrue};
ghost use Rattle.forms.specs.Window.{stays};
ghost use Rattle.forms.specs.Sets.{Has, movable, moved};
ghost use Rattle.forms.specs.Terms.{Uses, used as used_by};
ghost use Rattle.forms.specs.Parts.{terms_of, Moved, MovedTruth};

use super::Form;
use crate::sets::Term;
use crate::window::Cell;
use tables::Table;

impl Form {
    /// The cells that the form uses: those of all its terms.
    pub fn used(&self) -> Term
        ensures value { result ≡ used_by (terms_of self.now) }
        ensures cells { (c : ℕ) → Has result c ↔ Uses (terms_of self.now) c }
    {
        self.terms()
            .iter()
            .fold(self.first(), |all, term| all.union(*term))
    }

    /// Whether every cell that the form uses, plus a cell, is a cell of the window.
    pub fn stays_at(&self, to: Cell) -> bool
        ensures exact { result ≡ movable to (used_by (terms_of self.now)) }
        ensures window { IsTrue result ↔ ((c : ℕ) → c < 63 → Uses (terms_of self.now) c → stays to c ≡ true) }
    {
        self.used().cells().all(|cell| to.plus(cell).is_some())
    }

    /// The form moved so that its middle cell lies on a cell, or `None` where a cell would leave the window.
    pub fn moved(&self, to: Cell) -> Option<Form>
        ensures exact { Moved result to (terms_of self.now) }
        ensures truth { MovedTruth result to (terms_of self.now) }
    {
        if !self.stays_at(to) {
            return None;
        }
        let place = to.number();
        let mut table = Table::new(self.first());
        for term in self.terms() {
            let _ = table.push(slid(*term, place));
        }
        Some(Form { table })
    }
}

// The term moved so that the middle cell goes to the cell with a number.
fn slid(term: Term, place: u8) -> Term
    requires cell { place < 63 }
    requires stays { movable place term ≡ true }
    ensures { result ≡ moved place term }
{
    let bits = if place < 31 {
        term.bits << (31 - place)
    } else {
        term.bits >> (place - 31)
    };
    Term { bits }
}
