// The words of the expression language.
ghost use Rattle.std.specs.Prelude.{◌≡◌};
ghost use Rattle.grammar.specs.Words.{word_of};

/// A word that joins two or more expressions.
#[derive(Clone, Copy, PartialEq, Eq, Debug)]
pub enum Joint {
    Max,
    Min,
}

/// A word whose only arguments are the sides of a box.
#[derive(Clone, Copy, PartialEq, Eq, Debug)]
pub enum Shape {
    Erode,
    Dilate,
    Open,
    Close,
    Med,
}

/// A word that begins a call.
#[derive(Clone, Copy, PartialEq, Eq, Debug)]
pub enum Word {
    Join(Joint),
    After,
    Over(Shape),
    Rank,
    Weight,
}

impl Word {
    /// The word that has these letters, if the language has it.
    #[tactic(auto, unfolding(crate::specs::Words::word_of))]
    pub fn spelled(letters: &[u8]) -> Option<Word>
        ensures { result ≡ word_of letters.now }
    {
        match letters {
            b"max" => Some(Word::Join(Joint::Max)),
            b"min" => Some(Word::Join(Joint::Min)),
            b"after" => Some(Word::After),
            b"erode" => Some(Word::Over(Shape::Erode)),
            b"dilate" => Some(Word::Over(Shape::Dilate)),
            b"open" => Some(Word::Over(Shape::Open)),
            b"close" => Some(Word::Over(Shape::Close)),
            b"med" => Some(Word::Over(Shape::Med)),
            b"rank" => Some(Word::Rank),
            b"weight" => Some(Word::Weight),
            _ => None,
        }
    }
}
