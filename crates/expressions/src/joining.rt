// Joining worked-out forms; the first fault is held.
ghost use Rattle.std.specs.Prelude.{◌≡◌};
ghost use Rattle.forms.specs.Parts.{outcome, terms_of};
ghost use Rattle.joins.specs.Joins.{compose};
ghost use Rattle.grammar.specs.Reading.{bind};
ghost use Rattle.expressions.specs.Working.{placed, join_of};
ghost use Rattle.expressions.specs.Outcomes.{held};

use crate::faults::FormsFault;
use forms::Form;
use grammar::Joint;

/// A form that was worked out, or the fault that was met.
pub(crate) type Held = Result<Form, FormsFault>;

// A form, or its fault at the word.
//
// Here and in what calls it forms are told apart from faults by `match`, not by `?` or `map_err`: the kit does not yet
// prove a call that is handed what a generic call made, where that holds an array of a type with a view, as a form does.
pub(crate) fn at_word(made: Result<Form, forms::Fault>, place: usize) -> Held
    ensures { held result ≡ placed place (outcome made) }
{
    match made {
        Ok(form) => Ok(form),
        Err(fault) => Err(FormsFault { fault, place }),
    }
}

// The max or the min of two.
pub(crate) fn join(joint: Joint, place: usize, left: Held, right: Held) -> Held
    ensures { held result ≡ bind (held left) (λ f. bind (held right) (λ g. placed place (join_of joint f g))) }
{
    match (left, right) {
        (Ok(left), Ok(right)) => at_word(joined(joint, &left, &right), place),
        (Err(first), _) | (Ok(_), Err(first)) => Err(first),
    }
}

// The max or the min of two forms.
fn joined(joint: Joint, left: &Form, right: &Form) -> Result<Form, forms::Fault>
    ensures { outcome result ≡ join_of joint (terms_of left.now) (terms_of right.now) }
{
    match joint {
        Joint::Max => joins::max(left, right),
        Joint::Min => joins::min(left, right),
    }
}

// The outer form after the inner one.
pub(crate) fn compose_at(place: usize, outer: Held, inner: Held) -> Held
    ensures { held result ≡ bind (held outer) (λ f. bind (held inner) (λ g. placed place (compose f g))) }
{
    match (outer, inner) {
        (Ok(outer), Ok(inner)) => at_word(joins::compose(&outer, &inner), place),
        (Err(fault), _) | (_, Err(fault)) => Err(fault),
    }
}
