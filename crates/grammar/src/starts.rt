// How an expression begins: with a cell, or with the word of a call.
ghost use Rattle.std.specs.Prelude.{◌≡◌, OnErr};
ghost use Rattle.grammar.specs.Reading.{expr_of};
ghost use Rattle.grammar.specs.Starts.{Begins, begin_of, Continues, Calls};

use crate::faults::{GrammarFault, ReadFault};
use crate::readers::Reader;
use crate::words::Word;
use letters::{Sign, Token};

/// How an expression begins.
#[derive(Clone, Copy)]
pub enum Start {
    /// With the opening bracket of a cell.
    Cell,
    /// With the word of a call, at this place.
    Call(Word, usize),
}

impl Reader<'_> {
    /// Takes the token with which an expression begins, where calls may nest at most `depth` deep.
    /// Declined where it may not stand there, is an unknown word, or nests too deep.
    #[tactic(auto, using(crate::proofs::Beginnings::begun))]
    pub fn begin(&mut self, depth: u8) -> Result<Start, ReadFault>
        ensures first { Begins result self.new (begin_of depth self.old) }
        ensures reading { Continues result self.new depth (expr_of depth self.old) }
        ensures err { OnErr result (self.new ≡ self.old) }
    {
        let mut ahead = self.fork();
        let found = ahead.next()?;
        let start = match found.token {
            Token::Word(letters) => call(Word::spelled(letters), depth, found.place)?,
            Token::Mark(Sign::OpenSquare) => Start::Cell,
            _ => return Err(GrammarFault::NotAllowed(found.place).into()),
        };
        *self = ahead;
        Ok(start)
    }
}

// The call of a word, if it is one of the language and calls may nest deeper.
fn call(word: Option<Word>, depth: u8, place: usize) -> Result<Start, ReadFault>
    ensures { Calls result word depth place }
{
    let word = word.ok_or(GrammarFault::UnknownWord(place))?;
    if depth == 0 {
        return Err(GrammarFault::TooDeep(place).into());
    }
    Ok(Start::Call(word, place))
}
