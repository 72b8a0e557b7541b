// Ranks over a box, and weighted ranks.
ghost use Rattle.std.specs.Prelude.{◌≡◌, ◌*◌, ◌<◌, ◌≤◌, map, bit_or};
ghost use Rattle.forms.specs.Parts.{terms_of, told};
ghost use Rattle.joins.specs.Joins.{enter_all};
ghost use Rattle.filters.specs.Boxes.{box};
ghost use Rattle.filters.specs.Basic.{most_cells, reaching, once, middle};
ghost use Rattle.filters.specs.Weights.{listed};
ghost use Rattle.filters.specs.Ranks.{Weighted, Ranked, Middle};
ghost use Rattle.filters.specs.Laws.{Weighs, Ranks, Provided};

use crate::basic::window;
use crate::boxes::Size;
use crate::weighed::Weighed;
use crate::weights::{MOST_CELLS, Weights};
use forms::{CellSet, Fault, Form, Term};

/// The k-th largest over the cells of a box, where it has at most `MOST_CELLS` and k is from 1 to
/// their number.
pub fn rank(size: Size, k: u8) -> Option<Form>
    ensures exact { Ranked result size.height size.width k }
    ensures truth { Provided result (Ranks size.height size.width k) }
{
    if usize::from(size.count()) > MOST_CELLS {
        return None;
    }
    weighted(&each_once(size), u16::from(k))
}

/// The median over the cells of a box, where they are odd in number and at most `MOST_CELLS`.
pub fn median(size: Size) -> Option<Form>
    ensures exact { Middle result size.height size.width }
    ensures truth { Provided result (Ranks size.height size.width (middle (size.height * size.width))) }
{
    let cells = size.count();
    if cells % 2 == 0 {
        return None;
    }
    rank(size, cells / 2 + 1)
}

/// The k-th largest after each element is repeated as often as it counts, where k is from 1 to the
/// sum of the times.
pub fn weighted(weights: &Weights, k: u16) -> Option<Form>
    ensures exact { Weighted result k (listed weights.now) }
    ensures truth { Provided result (Weighs k (listed weights.now)) }
{
    if k == 0 || k > weights.total() {
        return None;
    }
    let mut form = window();
    let Ok(()) = enter_reaching(&mut form, weights.as_slice(), k, CellSet::empty()) else {
        unreachable()
    };
    Some(form)
}

// The cells of a box, each counting once.
fn each_once(size: Size) -> Weights
    requires { size.height * size.width ≤ most_cells }
    ensures { listed result ≡ once (box size.height size.width) }
{
    let mut weights = Weights::none();
    for cell in size.cells() {
        // None is declined: the cells of a box are different, and here they are few.
        let _ = weights.add(cell, 1);
    }
    weights
}

// Enters the sets of some of the cells, each with those of a set, that count as often as is left.
fn enter_reaching(
    form: &mut Form,
    weights: &[Weighed],
    left: u16,
    set: CellSet,
) -> Result<(), Fault>
    requires { left ≡ 0 → 0 < set }
    ensures { told result (terms_of form.new)
        ≡ enter_all (map (bit_or set) (reaching weights.now left)) (terms_of form.old) }
{
    if left == 0 {
        let Some(term) = Term::new(set) else {
            unreachable()
        };
        return form.enter(term);
    }
    let [weighed, rest @ ..] = weights else {
        return Ok(());
    };
    enter_reaching(form, rest, left, set)?;
    let less = left.saturating_sub(u16::from(weighed.times));
    enter_reaching(form, rest, less, set.with(weighed.cell))
}
