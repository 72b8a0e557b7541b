// Reading the arguments of a weighted rank.
ghost use Rattle.std.specs.Prelude.{ℕ, ◌≤◌, List, [], ◌∷◌, ◌++◌, length};
ghost use Rattle.filters.specs.Basic.{Weighed};
ghost use Rattle.grammar.specs.Reading.{weights_of, weighted_of};
ghost use Rattle.expressions.specs.Outcomes.{Works, Lists, ReadsWeights};

use crate::joining::Held;
use crate::leaves::unbroken;
use filters::{Weights, WeightsFault};
use forms::Cell;
use grammar::{GrammarFault, ReadFault, Reader};
use letters::Sign;

// The highest rank of weighed cells.
const MOST_WEIGHT: u16 = 891;

// The arguments of a weighted rank. Weights are told apart from faults by `match`, as forms are in joining.
pub(crate) fn weighted(reader: &mut Reader<'_>, place: usize) -> Result<Held, ReadFault>
    ensures { Works result reader.new (weighted_of place reader.old) }
{
    reader.sign(Sign::OpenRound)?;
    let k = reader.amount(1, MOST_WEIGHT)?;
    match weights(reader) {
        Ok(Ok(weights)) => Ok(unbroken(filters::weighted(&weights, k), place)?),
        Ok(Err(_)) => Err(GrammarFault::BrokenRule(place).into()),
        Err(fault) => Err(fault),
    }
}

// Weighed cells up to the closing bracket, or why the first that is not added is not.
fn weights(reader: &mut Reader<'_>) -> Result<Result<Weights, WeightsFault>, ReadFault>
    ensures { (n : ℕ) → length reader.old ≤ n → ReadsWeights result reader.new (weights_of n reader.old) }
{
    let mut all = Ok(Weights::none());
    loop {
        let (cell, times) = reader.weighed()?;
        all = with(all, cell, times);
        if reader.closing_bracket() {
            return Ok(all);
        }
    }
}

// The weights and one more cell, or why the first that is not added is not.
fn with(all: Result<Weights, WeightsFault>, cell: Cell, times: u8) -> Result<Weights, WeightsFault>
    ensures { (xs : List Weighed) → Lists all xs → Lists result (xs ++ record { cell = cell; times = times } ∷ []) }
{
    match all {
        Ok(mut weights) => {
            weights.add(cell, times)?;
            Ok(weights)
        }
        Err(fault) => Err(fault),
    }
}
