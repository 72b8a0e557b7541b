// Compiling a text.
ghost use Rattle.grammar.specs.Reading.{parse, ReadsSpellings};
ghost use Rattle.expressions.specs.Working.{compile as compile_of};
ghost use Rattle.expressions.specs.Outcomes.{ReadWhole, Compiled};

use crate::calls::expr;
use crate::faults::Fault;
use crate::joining::Held;
use forms::Form;
use grammar::{GrammarFault, MOST_BYTES, ReadFault, Reader};

/// How deep calls may nest.
pub const MOST_DEEP: u8 = 16;

/// The form of the expression that a text spells.
/// Declined with the first fault from the left of reading the text or, where it is read whole, with the first fault of
/// working it out.
#[tactic(auto, using(grammar::proofs::Spelling::reads_spellings), unfolding(crate::specs::Working::compile))]
pub fn compile(text: &[u8]) -> Result<Form, Fault>
    ensures exact { Compiled result (compile_of text.now) }
    ensures spelling { ReadsSpellings text.now }
{
    Ok(read(text)??)
}

// The form of the expression of a whole text, or the fault that was held while the text was read.
#[tactic(auto, unfolding(grammar::specs::Reading::parse))]
fn read(text: &[u8]) -> Result<Held, ReadFault>
    ensures { ReadWhole result (parse text.now) }
{
    if text.len() > MOST_BYTES {
        return Err(GrammarFault::TooLong.into());
    }
    let mut reader = Reader::new(text);
    let held = expr(&mut reader, MOST_DEEP)?;
    reader.finish()?;
    Ok(held)
}
