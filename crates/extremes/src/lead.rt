// The first of the lowest and the first of the highest elements of a sequence so far.
ghost use Rattle.std.specs.Prelude.{◌≡◌, ◌+◌, ◌^◌, ◌<◌, Bool, length, if◌then◌else◌};
ghost use Rattle.extremes.specs.First.{turned};
ghost use Rattle.extremes.specs.Leads.{Scans};

use elements::Order;

#[derive(Clone, Copy)]
pub(crate) struct Lead<E> {
    pub element: E,
    pub index: u32,
}

#[derive(Clone, Copy)]
pub(crate) struct Leaders<E> {
    pub low: Lead<E>,
    pub high: Lead<E>,
}

// The leader where it keeps its place before what is here, and otherwise that.
fn leading<E: Copy, F: Fn(E, E) -> bool>(leader: Lead<E>, here: Lead<E>, keeps: F) -> Lead<E>
    requires { F.IsAlwaysCallable keeps }
    ensures { (most : E → E → Bool) → ((a b : E) (r : Bool) → F.post keeps a b r → r ≡ most a b)
        → result ≡ (if most leader.element here.element then leader else here) }
{
    if keeps(leader.element, here.element) {
        leader
    } else {
        here
    }
}

// The leaders after one row more, whose first element has the index `start`.
pub(crate) fn scan<E: Order>(row: &[E], start: u32, so_far: Leaders<E>) -> Leaders<E>
    requires { start + length row.now < 2 ^ 32 }
    ensures low { Scans E.Order.most row.now start (length row.now) so_far.low result.low }
    ensures high { Scans (turned E.Order.most) row.now start (length row.now) so_far.high result.high }
{
    let Leaders { mut low, mut high } = so_far;
    for (column, element) in row.iter().enumerate() {
        let here = Lead {
            element: *element,
            index: start + column as u32,
        };
        low = leading(low, here, |a, b| a.at_most(b));
        high = leading(high, here, |a, b| b.at_most(a));
    }
    Leaders { low, high }
}
