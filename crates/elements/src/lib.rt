// Element kinds: plain values under one comparison, "at most", and the lesser and greater of two.
#![tactic(auto)]

ghost use Rattle.std.specs.Prelude.{◌≡◌, Bool, true, ◌||◌};
ghost use Rattle.elements.specs.Order.{lesser, greater, Lowest, Highest};

mod event;
mod pixel;

pub use event::Event;
pub use pixel::Pixel;

/// A kind of element: values that are copied freely, and of which any two can be compared.
pub trait Order: Sized + Copy {
    // `most a b` is true where a is at most b.
    ghost most: { Self → Self → Bool };

    /// Whether this element is at most the other.
    fn at_most(self, other: Self) -> bool
        ensures { result ≡ most self other };

    ghost reflexive: { (a : Self) → most a a ≡ true };

    ghost total: { (a b : Self) → (most a b || most b a) ≡ true };

    ghost antisymmetric: { (a b : Self) → most a b ≡ true → most b a ≡ true → a ≡ b };

    ghost transitive: { (a b c : Self) → most a b ≡ true → most b c ≡ true → most a c ≡ true };
}

/// The lesser of two elements.
pub fn least<E: Order>(a: E, b: E) -> E
    ensures value { result ≡ lesser E.Order.most a b }
    ensures lowest { Lowest E.Order.most a b result }
{
    if a.at_most(b) { a } else { b }
}

/// The greater of two elements.
pub fn greatest<E: Order>(a: E, b: E) -> E
    ensures value { result ≡ greater E.Order.most a b }
    ensures highest { Highest E.Order.most a b result }
{
    if a.at_most(b) { b } else { a }
}
