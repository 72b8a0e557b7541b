// Reading the calls that have no expression among their arguments.
ghost use Rattle.std.specs.Prelude.{◌≡◌, Ok, Err, MatchOption};
ghost use Rattle.grammar.specs.declared.faults.GrammarFault.TheVariants.{BrokenRule};
ghost use Rattle.grammar.specs.Reading.{bind, read, cell_of, over_of, ranked_of};
ghost use Rattle.grammar.specs.Expr.{cell};
ghost use Rattle.expressions.specs.Outcomes.{Shapes, Works};

use crate::joining::{Held, at_word};
use filters::Size;
use forms::{Form, Term};
use grammar::{GrammarFault, ReadFault, Reader, Shape};
use letters::Sign;

// The highest rank.
const MOST_RANK: u16 = 9;

// The filter over a box, or the fault of a broken rule at its word.
fn shaped(shape: Shape, size: Size, place: usize) -> Result<Held, GrammarFault>
    ensures { Shapes result shape place size.height size.width }
{
    match shape {
        Shape::Erode => Ok(Ok(filters::erosion(size))),
        Shape::Dilate => Ok(Ok(filters::dilation(size))),
        Shape::Open => Ok(at_word(filters::opening(size), place)),
        Shape::Close => Ok(at_word(filters::closing(size), place)),
        Shape::Med => unbroken(filters::median(size), place),
    }
}

// A form that was made, or the fault of a broken rule at the word.
pub(crate) fn unbroken(made: Option<Form>, place: usize) -> Result<Held, GrammarFault>
    ensures { MatchOption made (result ≡ Err (BrokenRule place)) (λ f. result ≡ Ok (Ok f)) }
{
    match made {
        Some(form) => Ok(Ok(form)),
        None => Err(GrammarFault::BrokenRule(place)),
    }
}

// The arguments of a filter over a box.
pub(crate) fn over(reader: &mut Reader<'_>, shape: Shape, place: usize) -> Result<Held, ReadFault>
    ensures { Works result reader.new (over_of shape place reader.old) }
{
    let size = reader.sides()?;
    reader.sign(Sign::CloseRound)?;
    Ok(shaped(shape, size, place)?)
}

// The arguments of a rank.
pub(crate) fn ranked(reader: &mut Reader<'_>, place: usize) -> Result<Held, ReadFault>
    ensures { Works result reader.new (ranked_of place reader.old) }
{
    let size = reader.sides()?;
    reader.sign(Sign::Comma)?;
    let k = reader.amount(1, MOST_RANK)?;
    reader.sign(Sign::CloseRound)?;
    Ok(unbroken(filters::rank(size, k as u8), place)?)
}

// The row and column of a cell.
pub(crate) fn single(reader: &mut Reader<'_>) -> Result<Held, ReadFault>
    ensures { Works result reader.new (bind (cell_of reader.old) (λ c. read (cell c.got) c.rest)) }
{
    let cell = reader.cell()?;
    Ok(Ok(Form::single(Term::from(cell))))
}
