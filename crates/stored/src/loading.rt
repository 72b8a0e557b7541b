// Loading a form from bytes.
ghost use Rattle.std.specs.Prelude.{◌≡◌, ℕ, ◌+◌, ◌*◌, ◌^◌, ◌<◌, ◌≤◌, true, false, length, slice_index, IfSome, IfNone, MatchOption, if◌then◌else◌};
ghost use Rattle.tables.specs.Table.{items_of};
ghost use Rattle.forms.specs.Terms.{most_terms};
ghost use Rattle.stored.specs.Layout.{StoresBack, term_in, terms_in, ascends, none_inside, accepted, refused, count_bits};
ghost use Rattle.stored.specs.Outcomes.{content_of, outcome, LoadedBack};

use crate::bits::spelled;
use crate::faults::LoadFault;
use crate::layout::{COUNT_BITS, TERM_BITS, VERSION, VERSION_BITS, bytes_for, term_start};
use forms::{CellSet, Form, MOST_TERMS, Term};
use tables::Table;

/// The form that bytes store.
/// Faults are looked for in the order of `LoadFault`'s cases, each over all terms.
#[tactic(auto, unfolding(crate::specs::Layout::loaded), using(crate::proofs::Undoing::stores_back))]
pub fn load(bytes: &[u8]) -> Result<Form, LoadFault>
    ensures exact { outcome result ≡ content_of bytes.now }
    ensures back { LoadedBack result bytes.now }
    ensures widths { (w v : ℕ) → StoresBack w v }
{
    if bytes.len() < 2 || spelled(bytes, 0, VERSION_BITS) != VERSION {
        return Err(LoadFault::NotVersionOne);
    }
    let count = spelled(bytes, VERSION_BITS, COUNT_BITS) as usize + 1;
    if bytes.len() != bytes_for(count) {
        return Err(LoadFault::WrongLength);
    }
    let end = term_start(count);
    if spelled(bytes, end, 8 * bytes.len() - end) != 0 {
        return Err(LoadFault::FillingNotZero);
    }
    let table = terms(bytes, count).ok_or(LoadFault::NotAscending)?;
    let terms = table.as_slice();
    if !ascending(terms) {
        return Err(LoadFault::NotAscending);
    }
    formed(terms)
}

// The terms that bytes hold, or `None` where one of them is empty.
fn terms(bytes: &[u8], count: usize) -> Option<Table<Term, MOST_TERMS>>
    requires some { 0 < count }
    requires room { count ≤ most_terms }
    ensures some { IfSome result (λ table. items_of table ≡ terms_in count_bits bytes.now count) }
    ensures first { IfSome result (λ table. 0 < slice_index (items_of table) 0) }
    ensures none { IfNone result (ascends 0 (terms_in count_bits bytes.now count) ≡ false) }
{
    let mut terms = Table::new(term(bytes, 0)?);
    // By numbers: a term's number says where its bits stand, and there is no slice of terms yet.
    for index in 0..count {
        let _ = terms.push(term(bytes, index)?);
    }
    Some(terms)
}

// The term at an index, or `None` where it is empty.
fn term(bytes: &[u8], index: usize) -> Option<Term>
    requires { index < most_terms }
    ensures { MatchOption result (term_in count_bits bytes.now index ≡ 0)
        (λ t. (t ≡ term_in count_bits bytes.now index) × (0 < t)) }
{
    Term::numbered(spelled(bytes, term_start(index), TERM_BITS))
}

// Whether each term is above the one before it.
fn ascending(terms: &[Term]) -> bool
    requires { 0 < slice_index terms.now 0 }
    ensures { result ≡ ascends 0 terms.now }
{
    terms.is_sorted_by(|term, next| term < next)
}

// The form of ascending terms, of which none may be inside another.
fn formed(terms: &[Term]) -> Result<Form, LoadFault>
    requires some { 0 < length terms.now }
    requires room { length terms.now ≤ most_terms }
    requires ascend { ascends 0 terms.now ≡ true }
    ensures { outcome result
        ≡ (if none_inside terms.now then accepted terms.now else refused 15) }
{
    let mut form = Form::single(terms[0]);
    for term in &terms[1..] {
        if form.is_true_on(CellSet::from(*term)) {
            return Err(LoadFault::TermInsideAnother);
        }
        // Never declined: the terms are no more than `MOST_TERMS`.
        let _ = form.enter(*term);
    }
    Ok(form)
}
