// Reading a text token by token: a sign, a number in its range, the end of the text.
ghost use Rattle.std.specs.Prelude.{◌≡◌, ℕ, ◌≤◌, List, ◌++◌, IfOk, OnErr, unsigned_abs};
ghost use Rattle.letters.specs.Tokens.{Placed};
ghost use Rattle.letters.specs.Scanning.{tokens_at};
ghost use Rattle.grammar.specs.Expr.{Expr};
ghost use Rattle.grammar.specs.Reading.{sign_of, amount_of, offset_of, end_of};
ghost use Rattle.grammar.specs.Outcomes.{Takes, Passes, Reads, Closes, EndsWith};

use crate::faults::{GrammarFault, ReadFault};
use letters::{Found, LettersFault, Sign, Token, next_token};
use std::marker::Model;

/// A text that is read from the left. A contract sees of it the tokens that are left.
/// What a call reads it takes; what it declines it leaves, all of it.
#[derive(Drop)]
pub struct Reader<'a> {
    text: &'a [u8],
    at: usize,
}

impl<'a> Model for Reader<'a> {
    ghost use Rattle.std.specs.Prelude.{List};
    ghost use Rattle.letters.specs.Tokens.{Placed};
    ghost use Rattle.letters.specs.Scanning.{tokens_at};

    ghost Value = { List Placed };

    ghost view = { λ r. tokens_at r.text.now r.at };
}

impl<'a> Reader<'a> {
    /// A reader of the whole text.
    pub fn new(text: &'a [u8]) -> Reader<'a>
        ensures { result ≡ tokens_at text.now 0 }
    {
        Reader::at(text, 0)
    }

    /// A reader of a text from a place on, which may lie behind its end.
    pub fn at(text: &'a [u8], place: usize) -> Reader<'a>
        ensures { result ≡ tokens_at text.now place }
    {
        Reader { text, at: place }
    }

    /// A second reader at the same place, which may go ahead; a struct with a lifetime and a model cannot be `Copy`.
    pub fn fork(&self) -> Reader<'a>
        ensures { result ≡ self.now }
    {
        Reader::at(self.text, self.at)
    }

    /// The place of the next token, or of the end: from there on a text that was read so far has the tokens that are left.
    pub fn place(&self) -> usize
        ensures { (text : List ℕ) (at : ℕ) (read : List Placed) → tokens_at text at ≡ read ++ self.now → tokens_at text result ≡ self.now }
    {
        match self.fork().next() {
            Ok(found) => found.place,
            Err(fault) => fault.place,
        }
    }

    // Takes the next token; the end of the text stays.
    pub(crate) fn next(&mut self) -> Result<Found<'a>, LettersFault>
        ensures takes { Takes result self.new self.old }
        ensures err { OnErr result (self.new ≡ self.old) }
    {
        let found = next_token(self.text, self.at)?;
        self.at = found.end;
        Ok(found)
    }

    /// Takes the sign that has to stand next; declined at any other token.
    pub fn sign(&mut self, wanted: Sign) -> Result<(), ReadFault>
        ensures passes { Passes result self.new (sign_of wanted self.old) }
        ensures err { OnErr result (self.new ≡ self.old) }
    {
        let mut ahead = self.fork();
        let found = ahead.next()?;
        if !matches!(found.token, Token::Mark(sign) if sign == wanted) {
            return Err(GrammarFault::NotAllowed(found.place).into());
        }
        *self = ahead;
        Ok(())
    }

    /// Takes a closing round bracket that stands next, and says whether one did.
    pub fn closing_bracket(&mut self) -> bool
        ensures { Closes result self.new self.old }
    {
        self.sign(Sign::CloseRound).is_ok()
    }

    /// Whether the text ends here; declined at any token.
    pub fn finish(&self) -> Result<(), ReadFault>
        ensures { (e : Expr) → EndsWith result e (end_of e self.now) }
    {
        let found = self.fork().next()?;
        match found.token {
            Token::End => Ok(()),
            _ => Err(GrammarFault::NotAllowed(found.place).into()),
        }
    }

    /// Takes a number from `low` to `high`; declined at any other number or token.
    pub fn amount(&mut self, low: u16, high: u16) -> Result<u16, ReadFault>
        ensures value { Reads (λ n. n) result self.new (amount_of low high self.old) }
        ensures within { IfOk result (λ n. (low ≤ n) × (n ≤ high)) }
        ensures err { OnErr result (self.new ≡ self.old) }
    {
        let mut ahead = self.fork();
        let found = ahead.next()?;
        let Token::Number(number) = found.token else {
            return Err(GrammarFault::NotAllowed(found.place).into());
        };
        match u16::try_from(number) {
            Ok(number) if (low..=high).contains(&number) => {
                *self = ahead;
                Ok(number)
            }
            _ => Err(GrammarFault::OutOfRange(found.place).into()),
        }
    }

    // Its front is that of `amount`: a call for both would have to give a token and its place, and be no plainer.
    /// Takes a number from minus the reach to the reach; declined at any other number or token.
    pub fn offset(&mut self, reach: u16) -> Result<i16, ReadFault>
        ensures value { Reads (λ z. z) result self.new (offset_of reach self.old) }
        ensures within { IfOk result (λ z. unsigned_abs z ≤ reach) }
        ensures err { OnErr result (self.new ≡ self.old) }
    {
        let mut ahead = self.fork();
        let found = ahead.next()?;
        let Token::Number(number) = found.token else {
            return Err(GrammarFault::NotAllowed(found.place).into());
        };
        if number.unsigned_abs() > reach {
            return Err(GrammarFault::OutOfRange(found.place).into());
        }
        *self = ahead;
        Ok(number)
    }
}
