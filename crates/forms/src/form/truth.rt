// The terms of a form, where it is true, and what tells two forms apart.
ghost use Rattle.std.specs.Prelude.{◌≡◌, ◌<◌, ◌≤◌, ◌↔◌, length, take, IsTrue, MatchOption, slice_index, slice_get};
ghost use Rattle.forms.specs.Sets.{Has};
ghost use Rattle.forms.specs.Terms.{most_terms, True, TrueOn};
ghost use Rattle.forms.specs.Truth.{SameTruth, outside, telling, Irredundant, OnlyOne};
ghost use Rattle.forms.specs.Parts.{terms_of, listed, Separates};

use super::Form;
use crate::sets::{CellSet, Term};

impl Form {
    /// The terms, ascending: none of them, and no cell of one, is too many.
    pub fn terms(&self) -> &[Term]
        ensures value { result.now ≡ terms_of self.now }
        ensures some { 0 < length (terms_of self.now) }
        ensures room { length (terms_of self.now) ≤ most_terms }
        ensures irredundant { Irredundant (terms_of self.now) }
        ensures only { OnlyOne (terms_of self.now) }
    {
        self.table.as_slice()
    }

    /// How many terms the form has: none of them, and no cell of one, is too many.
    pub fn len(&self) -> usize
        ensures value { result ≡ length (terms_of self.now) }
        ensures bounds { (0 < result) × (result ≤ most_terms) }
        ensures irredundant { Irredundant (terms_of self.now) }
        ensures only { OnlyOne (terms_of self.now) }
    {
        self.terms().len()
    }

    /// The term at an index, in ascending order, or `None` from the number of terms on.
    pub fn term(&self, index: usize) -> Option<Term>
        ensures { MatchOption result (length (terms_of self.now) ≤ index) (λ t. (index < length (terms_of self.now)) × (t ≡ slice_index (terms_of self.now) index)) }
    {
        self.terms().get(index).copied()
    }

    /// The first term, which every form has.
    pub fn first(&self) -> Term
        ensures { result ≡ slice_index (terms_of self.now) 0 }
    {
        self.terms()[0]
    }

    /// Whether the two forms have equal terms, which is so when they are true on the same sets.
    pub fn same(&self, other: &Form) -> bool
        ensures terms { IsTrue result ↔ (terms_of self.now ≡ terms_of other.now) }
        ensures truth { IsTrue result ↔ SameTruth (terms_of self.now) (terms_of other.now) }
    {
        self.terms() == other.terms()
    }

    /// Whether the form is true on a set of cells: some term lies inside it.
    pub fn is_true_on(&self, set: CellSet) -> bool
        ensures terms { IsTrue result ↔ True (terms_of self.now) set }
        ensures cells { IsTrue result ↔ TrueOn (terms_of self.now) (λ c. Has set c) }
    {
        self.covers(set)
    }

    /// A term on which exactly one of the two forms is true, or `None` where they are the same.
    /// It is the first term of this form on which the other is false, else the first of the other.
    pub fn separating(&self, other: &Form) -> Option<Term>
        ensures exact { listed result ≡ take 1 (telling (terms_of self.now) (terms_of other.now)) }
        ensures truth { Separates result (terms_of self.now) (terms_of other.now) }
    {
        self.stray(other).or_else(|| other.stray(self))
    }

    // The first term on which the other form is false.
    fn stray(&self, other: &Form) -> Option<Term>
        ensures { listed result ≡ take 1 (outside (terms_of self.now) (terms_of other.now)) }
    {
        self.terms()
            .iter()
            .copied()
            .find(|term| !other.covers(CellSet::from(*term)))
    }
}
