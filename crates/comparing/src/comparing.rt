// Comparing two texts by their forms.
ghost use Rattle.forms.specs.Parts.{terms_of};
ghost use Rattle.expressions.specs.Working.{compile as compile_of};
ghost use Rattle.samples.specs.Laws.{Openings, Closings};
ghost use Rattle.comparing.specs.Comparing.{Formed, Told, Outcome};

use crate::comparison::{CompareFault, Comparison, Side};
use crate::witness::Witness;
use elements::Order;
use expressions::compile;
use forms::Form;

/// Compares two texts: they ask for the same samples at every place of every source, or a witness made of
/// `low` and `high` shows where they differ, if `low` and `high` do. Declined where a text is not accepted, the
/// left one first. Of every opening it also says that it is at most the source, of every closing that it is at
/// least the source, and of both that twice is once.
pub fn compare<K: Order>(
    left: &[u8],
    right: &[u8],
    low: K,
    high: K,
) -> Result<Comparison<K>, CompareFault>
    ensures outcome { Outcome K.Order.most left.now right.now low high result }
    ensures openings { Openings K.Order.most }
    ensures closings { Closings K.Order.most }
{
    let f = form(left, Side::Left)?;
    let g = form(right, Side::Right)?;
    Ok(Comparison {
        left: f,
        right: g,
        witness: witness(&f, &g, low, high),
    })
}

// The form of one of the texts.
fn form(text: &[u8], side: Side) -> Result<Form, CompareFault>
    ensures { Formed result side (compile_of text.now) }
{
    match compile(text) {
        Ok(form) => Ok(form),
        Err(fault) => Err(CompareFault { side, fault }),
    }
}

// The witness of the first term that tells two forms apart, if there is one.
fn witness<K: Order>(left: &Form, right: &Form, low: K, high: K) -> Option<Witness<K>>
    ensures { Told K.Order.most (terms_of left.now) (terms_of right.now) low high result }
{
    let term = left.separating(right)?;
    Some(Witness::marking(term, low, high))
}
