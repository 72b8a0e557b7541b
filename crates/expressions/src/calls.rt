// Reading expressions, and working them out as they are read.
ghost use Rattle.std.specs.Prelude.{◌-◌, ◌<◌};
ghost use Rattle.grammar.specs.Reading.{expr_of, joined_of, composed_of};
ghost use Rattle.expressions.specs.Outcomes.{Works};

use crate::joining::{Held, compose_at, join};
use crate::leaves::{over, ranked, single};
use crate::weighing::weighted;
use grammar::{Joint, ReadFault, Reader, Start, Word};
use letters::Sign;

// An expression whose calls nest at most `depth` deep.
#[cycle(expression)]
pub(crate) fn expr(reader: &mut Reader<'_>, depth: u8) -> Result<Held, ReadFault>
    ensures { Works result reader.new (expr_of depth reader.old) }
{
    match reader.begin(depth)? {
        Start::Cell => single(reader),
        Start::Call(word, place) => match word {
            Word::Join(joint) => joined(reader, depth - 1, joint, place),
            Word::After => composed(reader, depth - 1, place),
            Word::Over(shape) => over(reader, shape, place),
            Word::Rank => ranked(reader, place),
            Word::Weight => weighted(reader, place),
        },
    }
}

// The arguments of a max or a min, each joined as it is worked out.
#[cycle(expression)]
fn joined(reader: &mut Reader<'_>, depth: u8, joint: Joint, place: usize) -> Result<Held, ReadFault>
    ensures { Works result reader.new (joined_of (expr_of depth) joint place reader.old) }
{
    reader.sign(Sign::OpenRound)?;
    let mut made = expr(reader, depth)?;
    loop {
        reader.sign(Sign::Comma)?;
        let next = expr(reader, depth)?;
        made = join(joint, place, made, next);
        if reader.closing_bracket() {
            return Ok(made);
        }
    }
}

// The two arguments of a composition.
#[cycle(expression)]
fn composed(reader: &mut Reader<'_>, depth: u8, place: usize) -> Result<Held, ReadFault>
    ensures { Works result reader.new (composed_of (expr_of depth) place reader.old) }
{
    reader.sign(Sign::OpenRound)?;
    let outer = expr(reader, depth)?;
    reader.sign(Sign::Comma)?;
    let inner = expr(reader, depth)?;
    reader.sign(Sign::CloseRound)?;
    Ok(compose_at(place, outer, inner))
}
