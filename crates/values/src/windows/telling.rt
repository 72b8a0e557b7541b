// A window on which two forms differ.
ghost use Rattle.forms.specs.Parts.{terms_of};
ghost use Rattle.values.specs.Telling.{BytesTell, Exactly, Marked, MarkLaw, Tells, Values};

use super::Window;
use elements::{Order, greatest, least};
use forms::{Form, Term};

/// A window on which the values of two forms differ wherever the elements a and b do,
/// or `None` where the forms have equal terms, and so equal stored bytes and equal values on every window.
/// It has the greater of a and b on the cells of the term that separates the forms, and the lesser elsewhere.
pub fn telling_window<E: Order>(f: &Form, g: &Form, a: E, b: E) -> Option<Window<E>>
    ensures exact { Exactly E.Order.most result a b (terms_of f.now) (terms_of g.now) }
    ensures terms { Tells result (terms_of f.now) (terms_of g.now) }
    ensures bytes { BytesTell result (terms_of f.now) (terms_of g.now) }
    ensures values { Values E.Order.most result a b (terms_of f.now) (terms_of g.now) }
    ensures marks { MarkLaw E.Order.most }
{
    let term = f.separating(g)?;
    Some(marked(term, least(a, b), greatest(a, b)))
}

// The window that has `high` on the cells of a term and `low` elsewhere.
fn marked<E: Order>(term: Term, low: E, high: E) -> Window<E>
    ensures { Marked result low high term }
{
    let mut window = Window::filled(low);
    for cell in term.cells() {
        window.set(cell, high);
    }
    window
}
