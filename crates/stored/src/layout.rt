// Where the fields of a stored form lie.
ghost use Rattle.std.specs.Prelude.{◌≡◌, ◌≤◌};
ghost use Rattle.forms.specs.Terms.{most_terms};
ghost use Rattle.stored.specs.Layout.{count_bits, term_start, bytes_for};

pub(crate) const VERSION: u64 = 1;

pub(crate) const VERSION_BITS: usize = 4;

pub(crate) const COUNT_BITS: usize = 8;

pub(crate) const TERM_BITS: usize = 63;

pub(crate) const HEAD_BITS: usize = VERSION_BITS + COUNT_BITS;

// The place of the first bit of a term, or of the filling behind so many terms.
pub(crate) fn term_start(term: usize) -> usize
    requires { term ≤ most_terms }
    ensures { result ≡ term_start count_bits term }
{
    HEAD_BITS + TERM_BITS * term
}

// How many bytes so many terms take.
pub(crate) fn bytes_for(count: usize) -> usize
    requires { count ≤ most_terms }
    ensures { result ≡ bytes_for count_bits count }
{
    term_start(count).div_ceil(8)
}
