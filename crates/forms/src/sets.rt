// Sets of cells, and terms: sets that are not empty.
ghost use Rattle.std.specs.Prelude.{◌≡◌, ◌≢◌, ℕ, ◌+◌, ◌^◌, ◌<◌, ◌≤◌, ◌⊎◌, ◌↔◌, [], ◌∷◌, IsTrue, IfSome, MatchOption, bit_or};
ghost use Rattle.forms.specs.Sets.{Has, Sub, CellByCell, single, cells, cells_from};

use crate::window::Cell;
use std::marker::Model;

mod cells;

pub use cells::Cells;

/// A set of cells, which may be empty.
#[derive(Clone, Copy, PartialEq, Eq, Debug)]
pub struct CellSet {
    bits: u64,
}

// Clauses see a set as the number of its 63 bits, of which cell 0 is the most significant.
impl Model for CellSet {
    ghost use Rattle.std.specs.Prelude.{ℕ, ◌^◌, ◌<◌};

    ghost Value = { ℕ };

    ghost view = { λ s. s.bits };

    ghost invariant = { λ s. s.bits < 2 ^ 63 };

    ghost inverse = { λ n. record { bits = n } };
}

impl CellSet {
    /// The set without a cell.
    pub fn empty() -> CellSet
        ensures { result ≡ 0 }
    {
        CellSet { bits: 0 }
    }

    /// This set with one more cell.
    pub fn with(self, cell: Cell) -> CellSet
        ensures value { result ≡ bit_or self (single cell) }
        ensures cells { (c : ℕ) → c < 63 → Has result c ↔ (Has self c ⊎ (c ≡ cell)) }
        ensures fits { result < 2 ^ 63 }
    {
        CellSet {
            bits: self.bits | mask(cell),
        }
    }

    /// Whether the cell is in the set.
    pub fn contains(self, cell: Cell) -> bool
        ensures { IsTrue result ↔ Has self cell }
    {
        self.bits >> (62 - cell.number()) & 1 == 1
    }

    // The first cell, and the set of the others; `None` of the empty set.
    fn split_first(self) -> Option<(Cell, CellSet)>
        ensures cells { MatchOption result (cells self ≡ []) (λ p. cells self ≡ p.0 ∷ cells p.1) }
        ensures others { IfSome result (λ p. cells p.1 ≡ cells_from (p.0 + 1) self) }
    {
        if self.bits == 0 {
            return None;
        }
        // Without the unused bit, the zeros in front are the number of the first cell.
        let number = (self.bits << 1).leading_zeros();
        let cell = Cell {
            number: number as u8,
        };
        let others = CellSet {
            bits: self.bits - (1 << (62 - number)),
        };
        Some((cell, others))
    }

    /// The cells of the set, ascending.
    pub fn cells(self) -> Cells
        ensures { result ≡ cells self }
    {
        Cells::of(self)
    }
}

/// A term: a set of cells that is not empty.
#[derive(Clone, Copy, PartialEq, Eq, PartialOrd, Ord, Debug)]
pub struct Term {
    pub(crate) bits: u64,
}

// Clauses see a term, too, as the number of its 63 bits.
impl Model for Term {
    ghost use Rattle.std.specs.Prelude.{ℕ, ◌^◌, ◌<◌};

    ghost Value = { ℕ };

    ghost view = { λ t. t.bits };

    ghost invariant = { λ t. (0 < t.bits) × (t.bits < 2 ^ 63) };

    ghost inverse = { λ n. record { bits = n } };
}

/// The term of one cell.
impl From<Cell> for Term {
    ghost from_gives = { λ cell r. r ≡ single cell };

    fn from(cell: Cell) -> Term {
        Term { bits: mask(cell) }
    }
}

/// The term's cells: there is one at least.
impl From<Term> for CellSet {
    ghost from_gives = { λ term r. (r ≡ term) × (0 < r) × (r < 2 ^ 63) };

    fn from(term: Term) -> CellSet {
        CellSet { bits: term.bits }
    }
}

impl Term {
    /// The term of the cells of a set, or `None` where there are none.
    pub fn new(set: CellSet) -> Option<Term>
        ensures { MatchOption result (set ≡ 0) (λ t. t ≡ set) }
    {
        Term::numbered(set.bits)
    }

    /// The term that a number of 63 bits is, or `None` for 0 and for what has more bits.
    pub fn numbered(number: u64) -> Option<Term>
        ensures { MatchOption result ((number ≡ 0) ⊎ (2 ^ 63 ≤ number)) (λ t. t ≡ number) }
    {
        if number == 0 || number >= 1 << Cell::COUNT {
            return None;
        }
        Some(Term { bits: number })
    }

    /// The term as a number of 63 bits, of which cell 0 is the most significant.
    pub fn number(self) -> u64
        ensures value { result ≡ self }
        ensures some { 0 < result }
        ensures fits { result < 2 ^ 63 }
    {
        CellSet::from(self).bits
    }

    /// The cells of both terms.
    pub fn union(self, other: Term) -> Term
        ensures value { result ≡ bit_or self other }
        ensures cells { (c : ℕ) → Has result c ↔ (Has self c ⊎ Has other c) }
    {
        Term {
            bits: self.bits | other.bits,
        }
    }

    /// Whether every cell of this term is in the other.
    pub fn inside(self, other: Term) -> bool
        ensures value { IsTrue result ↔ Sub self other }
        ensures cells { IsTrue result ↔ CellByCell self other }
    {
        self.within(CellSet::from(other))
    }

    // Whether every cell of this term is in the set.
    pub(crate) fn within(self, set: CellSet) -> bool
        ensures value { IsTrue result ↔ Sub self set }
        ensures cells { IsTrue result ↔ CellByCell self set }
    {
        self.bits & set.bits == self.bits
    }

    /// Whether the cell is in the term.
    pub fn contains(self, cell: Cell) -> bool
        ensures { IsTrue result ↔ Has self cell }
    {
        CellSet::from(self).contains(cell)
    }

    /// The term's cells, ascending; there is one at least.
    pub fn cells(self) -> Cells
        ensures value { result ≡ cells self }
        ensures some { cells self ≢ [] }
    {
        CellSet::from(self).cells()
    }

    /// The term's first cell that is numbered `from` or above, if there is one.
    pub fn cell_from(self, from: u8) -> Option<Cell>
        ensures { MatchOption result (cells_from from self ≡ []) (λ k. (from ≤ k) × (cells_from from self ≡ k ∷ cells_from (k + 1) self)) }
    {
        for number in from..Cell::COUNT {
            let cell = Cell { number };
            if self.contains(cell) {
                return Some(cell);
            }
        }
        None
    }

    /// The term's first cell.
    pub fn first_cell(self) -> Cell
        ensures { cells self ≡ result ∷ cells_from (result + 1) self }
    {
        let Some((cell, _)) = CellSet::from(self).split_first() else {
            unreachable()
        };
        cell
    }
}

// The set of one cell, as bits.
fn mask(cell: Cell) -> u64
    ensures value { result ≡ single cell }
    ensures some { 0 < result }
    ensures fits { result < 2 ^ 63 }
    ensures cell { cell < 63 }
{
    1 << (62 - cell.number())
}
