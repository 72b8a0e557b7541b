// The value of a form over a window: the greatest, over its terms, of the least element among the term's cells.
ghost use Rattle.std.specs.Prelude.{◌≡◌};
ghost use Rattle.elements.specs.Order.{greater};
ghost use Rattle.forms.specs.Parts.{terms_of};
ghost use Rattle.values.specs.Value.{least as least_in, value as value_of};
ghost use Rattle.values.specs.Windows.{element_at};
ghost use Rattle.values.specs.Laws.{Whole, Levels, MaxLaw, MinLaw, AfterLaw};

use super::Window;
use elements::{Order, greatest, least};
use forms::{Form, Term};

/// The value of a form over a window.
/// An element is at most it exactly when the form is true on the cells whose element it is at most.
pub fn value<E: Order>(form: &Form, window: &Window<E>) -> E
    ensures exact { (d : E) → result ≡ value_of E.Order.most (element_at window.now d) (terms_of form.now) }
    ensures levels { (d : E) → Levels E.Order.most (element_at window.now d) (terms_of form.now) result }
    ensures whole { Whole (terms_of form.now) }
    ensures maxima { MaxLaw E.Order.most }
    ensures minima { MinLaw E.Order.most }
    ensures composition { AfterLaw E.Order.most }
{
    let [first, others @ ..] = form.terms() else {
        unreachable()
    };
    let mut high = lowest(window, *first);
    for term in others {
        high = raised(window, *term, high);
    }
    high
}

// The least element among the cells of a term.
fn lowest<E: Order>(window: &Window<E>, term: Term) -> E
    ensures { (d : E) → result ≡ least_in E.Order.most (element_at window.now d) term }
{
    let mut cells = term.cells();
    let Some(first) = cells.next() else {
        unreachable()
    };
    let mut low = window.get(first);
    for cell in cells {
        low = least(low, window.get(cell));
    }
    low
}

// The greater of `high` and the least element among the cells of a term.
// A term that has an element at most `high` does not raise it, and is left there.
fn raised<E: Order>(window: &Window<E>, term: Term, high: E) -> E
    ensures { (d : E) → result ≡ greater E.Order.most high (least_in E.Order.most (element_at window.now d) term) }
{
    let mut cells = term.cells();
    let Some(first) = cells.next() else {
        unreachable()
    };
    let mut low = window.get(first);
    for cell in cells {
        if low.at_most(high) {
            return high;
        }
        low = least(low, window.get(cell));
    }
    greatest(high, low)
}
