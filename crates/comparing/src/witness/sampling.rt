// Witnesses of a term, and the values of forms on them.
ghost use Rattle.std.specs.Prelude.{◌≡◌, pos};
ghost use Rattle.forms.specs.Parts.{terms_of};
ghost use Rattle.values.specs.Laws.{value_at};
ghost use Rattle.comparing.specs.Witness.{frame_of, Sampled};

use super::Witness;
use elements::Order;
use forms::{CellSet, Form, Term};

impl<K: Order> Witness<K> {
    // The witness that has the greater of two elements on the cells of a term, and the lesser elsewhere.
    pub(crate) fn marking(term: Term, first: K, second: K) -> Witness<K>
        ensures first { result.first ≡ first }
        ensures second { result.second ≡ second }
        ensures marks { result.marks ≡ term }
    {
        Witness {
            first,
            second,
            marks: CellSet::from(term),
        }
    }

    /// The value of a form at row 4 and column 3, where the window lies on the whole frame.
    pub fn sample(&self, form: &Form) -> K
        ensures exact { result ≡ value_at K.Order.most (frame_of K.Order.most self.now).element (terms_of form.now) (pos 4) (pos 3) }
        ensures truth { Sampled K.Order.most self.now (terms_of form.now) result }
    {
        let (low, high) = self.ends();
        if form.is_true_on(self.marks) {
            high
        } else {
            low
        }
    }
}
