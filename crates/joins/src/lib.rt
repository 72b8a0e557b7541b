// The max and the min of two forms, and one form after another.
#![tactic(auto)]

ghost use Rattle.std.specs.Prelude.{◌≡◌, ℕ, ◌++◌, map, bit_or};
ghost use Rattle.forms.specs.Entering.{Minimal};
ghost use Rattle.forms.specs.Parts.{terms_of, told, outcome};
ghost use Rattle.joins.specs.Joins.{enter_all, unions, max_of, min_of};
ghost use Rattle.joins.specs.Outcomes.{Ensured, Either, Both};

pub use forms::Fault;
use forms::{Form, Term};

mod composition;

pub use composition::compose;

/// The max of two forms: the minimal sets among the terms of both, the second's entered in order into the first.
/// Declined with `TooManyTerms` where an entry leaves more than a form may have.
pub fn max(f: &Form, g: &Form) -> Result<Form, Fault>
    ensures exact { outcome result ≡ max_of (terms_of f.now) (terms_of g.now) }
    ensures minimal { Ensured result (Minimal (terms_of f.now ++ terms_of g.now)) }
    ensures truth { Ensured result (Either (terms_of f.now) (terms_of g.now)) }
{
    let mut joined = *f;
    for term in g.terms() {
        joined.enter(*term)?;
    }
    Ok(joined)
}

/// The min of two forms: the minimal sets among the unions of one term of each, entered by the first's term, then the second's.
/// Declined with `TooManyTerms` where an entry leaves more than a form may have.
pub fn min(f: &Form, g: &Form) -> Result<Form, Fault>
    ensures exact { outcome result ≡ min_of (terms_of f.now) (terms_of g.now) }
    ensures minimal { Ensured result (Minimal (unions (terms_of f.now) (terms_of g.now))) }
    ensures truth { Ensured result (Both (terms_of f.now) (terms_of g.now)) }
{
    // Entering the first union again changes nothing.
    let mut joined = Form::single(f.first().union(g.first()));
    for term in f.terms() {
        enter_unions(&mut joined, *term, g)?;
    }
    Ok(joined)
}

// Enters the unions of a term with the terms of g, in order.
fn enter_unions(joined: &mut Form, term: Term, g: &Form) -> Result<(), Fault>
    ensures { told result (terms_of joined.new) ≡ enter_all (map (λ u. bit_or term u) (terms_of g.now)) (terms_of joined.old) }
{
    for other in g.terms() {
        joined.enter(term.union(*other))?;
    }
    Ok(())
}
