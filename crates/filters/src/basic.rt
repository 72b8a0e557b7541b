// Erosion, dilation, opening and closing.
ghost use Rattle.std.specs.Prelude.{◌≡◌, ◌-◌, ◌^◌, [], ◌∷◌};
ghost use Rattle.forms.specs.Sets.{set_of};
ghost use Rattle.forms.specs.Entering.{made};
ghost use Rattle.forms.specs.Parts.{terms_of, outcome};
ghost use Rattle.joins.specs.Outcomes.{Ensured};
ghost use Rattle.filters.specs.Boxes.{box, BoxLaw};
ghost use Rattle.filters.specs.Basic.{opposite, erosion_of, dilation_of, opening_of, closing_of};
ghost use Rattle.filters.specs.Laws.{Erodes, Dilates, Under, Over, Again};

use crate::boxes::Size;
use forms::{Cell, CellSet, Fault, Form, Term};
use joins::compose;

/// The least over the cells of a box.
pub fn erosion(size: Size) -> Form
    ensures exact { terms_of result ≡ erosion_of size.height size.width }
    ensures truth { Erodes size.height size.width (terms_of result) }
    ensures cells { BoxLaw size.height size.width }
{
    Form::single(all_cells(size))
}

// The term of all cells of a box.
fn all_cells(size: Size) -> Term
    ensures { result ≡ set_of (box size.height size.width) }
{
    let set = size
        .cells()
        .fold(CellSet::empty(), |set, cell| set.with(cell));
    let Some(term) = Term::new(set) else {
        unreachable()
    };
    term
}

/// The largest over the cells of a box that is turned about the middle.
pub fn dilation(size: Size) -> Form
    ensures exact { made (terms_of result) ≡ dilation_of size.height size.width }
    ensures truth { Dilates size.height size.width (terms_of result) }
{
    let Ok(form) = turned(size) else {
        unreachable()
    };
    form
}

// The cells on the other side of a box's cells, each as a term of its own.
fn turned(size: Size) -> Result<Form, Fault>
    ensures { outcome result ≡ dilation_of size.height size.width }
{
    let mut form = window();
    for cell in size.cells() {
        form.enter(Term::from(other_side(cell)))?;
    }
    Ok(form)
}

// The cell on the other side of the middle: the last cell is that of the first.
fn other_side(cell: Cell) -> Cell
    ensures { result ≡ opposite cell }
{
    let Some(other) = Cell::numbered(Cell::COUNT - 1 - cell.number()) else {
        unreachable()
    };
    other
}

// The form of all cells of the window: the first term that is entered takes its place.
pub(crate) fn window() -> Form
    ensures { terms_of result ≡ (2 ^ 63 - 1) ∷ [] }
{
    let Some(term) = Term::numbered((1 << Cell::COUNT) - 1) else {
        unreachable()
    };
    Form::single(term)
}

/// The dilation after the erosion, by one box.
/// Declined with `OutsideWindow` where a cell of the box minus a cell of the box leaves the window,
/// and with `TooManyTerms` where an entry leaves more terms than a form may have.
pub fn opening(size: Size) -> Result<Form, Fault>
    ensures exact { outcome result ≡ opening_of size.height size.width }
    ensures under { Ensured result Under }
    ensures again { Ensured result Again }
{
    compose(&dilation(size), &erosion(size))
}

/// The erosion after the dilation, by one box.
/// Declined with `OutsideWindow` where a cell of the box minus a cell of the box leaves the window,
/// and with `TooManyTerms` where an entry leaves more terms than a form may have.
pub fn closing(size: Size) -> Result<Form, Fault>
    ensures exact { outcome result ≡ closing_of size.height size.width }
    ensures over { Ensured result Over }
    ensures again { Ensured result Again }
{
    // Not one function with `opening`: the order of the two arguments is all that they differ in.
    compose(&erosion(size), &dilation(size))
}
